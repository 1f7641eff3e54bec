//! Where a text stops being a name or a URI. Nothing here takes memory.
ghost use Rattle.std.specs.Prelude.{◌≡◌, ◌≤◌, IfNone, length, position};
ghost use Rattle.rdf_terms.specs.Iri.{is_forbidden as no_iri_byte};
ghost use Rattle.registry_core.specs.Names.{may_stand as stands, name_stop};
ghost use Rattle.registry_core.specs.Names.{name_fault as stops_name};
ghost use Rattle.registry_core.specs.Names.{uri_stop, uri_fault as stops_uri};

use rdf_terms::{has_scheme, is_forbidden};

// Whether a name may have the byte at the place.
fn may_stand(place: usize, byte: u8) -> bool
    ensures { result ≡ stands place byte }
{
    byte.is_ascii_alphanumeric() || byte == b'_' || byte == b'-' || (byte == b'.' && place > 0)
}

// The first place that no name has, if the text has it.
#[tactic(auto, using(crate::proofs::Stops::name_steps))]
fn stop_of_name(text: &[u8]) -> Option<u64>
    ensures { result ≡ name_stop 0 text.now }
{
    for (place, byte) in text.iter().enumerate() {
        if place == 64 || !may_stand(place, *byte) {
            return Some(place as u64);
        }
    }
    None
}

/// Where a text stops being a name.
#[tactic(auto, unfolding(crate::specs::Names::name_fault))]
pub fn name_fault(text: &[u8]) -> Option<u64>
    ensures value { result ≡ stops_name text.now }
    ensures short { IfNone result (length text.now ≤ 64) }
{
    if text.is_empty() {
        return Some(0);
    }
    stop_of_name(text)
}

// The place of the first byte that no IRI has.
fn first_forbidden(text: &[u8]) -> Option<usize>
    ensures { result ≡ position no_iri_byte text.now }
{
    text.iter().position(|byte| is_forbidden(char::from(*byte)))
}

/// Where a text stops being a URI.
#[tactic(auto, unfolding(crate::specs::Names::uri_fault))]
pub fn uri_fault(text: &[u8]) -> Option<u64>
    ensures value { result ≡ stops_uri text.now }
    ensures short { IfNone result (length text.now ≤ 1024) }
{
    match first_forbidden(text) {
        Some(place) if place > 1024 => Some(1024),
        Some(place) => Some(place as u64),
        None if !has_scheme(text) => Some(0),
        None if text.len() > 1024 => Some(1024),
        None => None,
    }
}
