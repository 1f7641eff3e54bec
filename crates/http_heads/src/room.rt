//! Room for the fields of a head or of a trailer section.
ghost use Rattle.std.specs.Prelude.{◌≡◌, ◌≤◌, OnOk, length};
ghost use Rattle.http_heads.specs.Room.{lines_in, most_spans};

use httparse::spans::{EMPTY_HEADER_SPAN, HeaderSpan};
use std::alloc::{AllocError, Global};

/// As many fields as a head or a trailer section of the allowed length can have.
const MOST_SPANS: usize = 5461;

/// For how many fields room is made first.
const FIRST_SPANS: usize = 16;

// How many lines end in the text.
fn count_lines(text: &[u8]) -> usize
    ensures { result ≡ lines_in text.now }
{
    let mut count = 0;
    for byte in text {
        if *byte == b'\n' {
            count += 1;
        }
    }
    count
}

/// Makes room for the fields of a head or of a trailer section at the front of the text.
pub fn make_room(
    alloc: Global,
    headers: &mut Vec<HeaderSpan>,
    text: &[u8],
) -> Result<(), AllocError>
    ensures { OnOk result (most_spans text.now ≤ length headers.new.items) }
{
    let wanted = count_lines(text).min(MOST_SPANS);
    if headers.len() < wanted {
        let room = (2 * wanted).max(FIRST_SPANS).min(MOST_SPANS);
        *headers = vec![in alloc; EMPTY_HEADER_SPAN; room]?;
    }
    Ok(())
}
