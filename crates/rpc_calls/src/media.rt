//! Bodies that aren't taken.
ghost use Rattle.std.specs.Prelude.{◌≡◌};
ghost use Rattle.rpc_calls.specs.Media.{media_type_of, is_refused_coding};
ghost use Rattle.rpc_calls.specs.Media.{is_refused_type, has_refused_media};

use delta_base::Bytes;
use http_heads::{RawRequest, split_at_byte, trim_blanks};

// The media type of a Content-Type field, without its parameters.
fn media_type(value: &[u8]) -> &[u8]
    ensures { result.now ≡ media_type_of value.now }
{
    match split_at_byte(value, b';') {
        Some((kind, _)) => trim_blanks(kind),
        None => trim_blanks(value),
    }
}

// Whether a body of this Content-Type isn't taken.
fn is_refused_type(value: &Option<Bytes>) -> bool
    ensures { result ≡ is_refused_type value.now }
{
    match value {
        Some(value) => {
            media_type(value.as_slice()).eq_ignore_ascii_case(b"application/rdf-patch+thrift")
        }
        None => false,
    }
}

// Whether a body of this Content-Encoding isn't taken.
fn is_refused_coding(value: &Option<Bytes>) -> bool
    ensures { result ≡ is_refused_coding value.now }
{
    match value {
        Some(value) => !value.as_slice().eq_ignore_ascii_case(b"identity"),
        None => false,
    }
}

/// Whether the body of a request isn't taken.
pub fn has_refused_media(request: &RawRequest) -> bool
    ensures { result ≡ has_refused_media request.now }
{
    is_refused_type(&request.content_type) || is_refused_coding(&request.encoding)
}
