//! Words that are addresses of a server.
ghost use Rattle.std.specs.Prelude.{◌↔◌, IsTrue, All};
ghost use Rattle.command_tables.specs.Addresses.{IsAddress, IsDigit, IsPort, IsVisible};

/// The most characters of an address.
const MOST_CHARACTERS: usize = 255;

// Whether all are characters from `!` to `~`.
fn are_visible(bytes: &[u8]) -> bool
    ensures { IsTrue result ↔ All IsVisible bytes.now }
{
    bytes.iter().all(|byte| matches!(byte, b'!'..=b'~'))
}

// Whether all are digits.
fn are_digits(bytes: &[u8]) -> bool
    ensures { IsTrue result ↔ All IsDigit bytes.now }
{
    bytes.iter().all(|byte| matches!(byte, b'0'..=b'9'))
}

// Whether they are 1 to 5 digits.
fn is_port(bytes: &[u8]) -> bool
    ensures { IsTrue result ↔ IsPort bytes.now }
{
    (1..=5).contains(&bytes.len()) && are_digits(bytes)
}

/// Whether a word is an address: at most 255 characters from `!` to `~`, of which the last `:` has
/// 1 to 5 digits behind it and nothing else.
pub fn is_address(word: &str) -> bool
    ensures { IsTrue result ↔ IsAddress word.now }
{
    let bytes = word.as_bytes();
    let Some(colon) = word.rfind(':') else {
        return false;
    };
    bytes.len() <= MOST_CHARACTERS && are_visible(bytes) && is_port(&bytes[colon + 1..])
}
