//! The lines of a text.

ghost use Rattle.std.specs.Prelude.{◌≡◌, ◌≤◌, ◌==◌, length, count_by};

/// So few bytes that a byte counts them.
const BLOCK: usize = 192;

/// How many of the bytes are line feeds.
pub fn feeds_in(bytes: &[u8]) -> u64
    ensures value { result ≡ count_by (λ b. b == 10) bytes.now }
    ensures few { result ≤ length bytes.now }
{
    let mut count: u64 = 0;
    let mut at = 0;
    while at < bytes.len() {
        let size = BLOCK.min(bytes.len() - at);
        count += feeds_in_block(&bytes[at..at + size]) as u64;
        at += size;
    }
    count
}

/// The same of few bytes. Where a byte counts, a processor counts many places at once.
fn feeds_in_block(bytes: &[u8]) -> u8
    requires { length bytes.now ≤ BLOCK }
    ensures value { result ≡ count_by (λ b. b == 10) bytes.now }
    ensures few { result ≤ length bytes.now }
{
    let mut count: u8 = 0;
    for at in 0..bytes.len() {
        if bytes[at] == b'\n' {
            count += 1;
        }
    }
    count
}
