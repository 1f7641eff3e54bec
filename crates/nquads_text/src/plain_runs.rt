//! Runs of bytes that stand for themselves.

ghost use Rattle.std.specs.Prelude.{◌≡◌, ◌≤◌, ◌+◌, length, IsTrue, slice_range};
ghost use Rattle.std.specs.List.{list_all};
ghost use Rattle.nquads_text.specs.Reading.{is_at_home as at_home};
ghost use Rattle.nquads_text.specs.Reading.{is_plain_iri as plain_in_iri};
ghost use Rattle.nquads_text.specs.Reading.{is_plain_string as plain_in_string};

/// Each byte that stands for itself in an IRI, at its own place; dots at the places of the others.
static PLAIN_IN_IRI: [u8; 256] = *b"\
    ................................\
    .!.#$%&'()*+,-./0123456789:;.=.?\
    @ABCDEFGHIJKLMNOPQRSTUVWXYZ[.]._\
    .abcdefghijklmnopqrstuvwxyz...~\x7f\
    ................................\
    ................................\
    ................................\
    ................................";

/// The same for a string.
static PLAIN_IN_STRING: [u8; 256] = *b"\
    \x00\x01\x02\x03\x04\x05\x06\x07\x08\x09.\x0b\x0c.\x0e\x0f\
    \x10\x11\x12\x13\x14\x15\x16\x17\x18\x19\x1a\x1b\x1c\x1d\x1e\x1f\
    \x20!.#$%&'()*+,-./0123456789:;<=>?\
    @ABCDEFGHIJKLMNOPQRSTUVWXYZ[.]^_\
    `abcdefghijklmnopqrstuvwxyz{|}~\x7f\
    ................................\
    ................................\
    ................................\
    ................................";

/// Whether the table has the byte at its own place.
#[inline(always)]
fn is_at_home(table: &[u8; 256], b: u8) -> bool
    ensures { result ≡ at_home table.now b }
{
    table[usize::from(b)] == b
}

/// Whether the table has each of the eight bytes at a place at its own place.
#[inline(always)]
fn are_at_home(table: &[u8; 256], text: &[u8], at: usize) -> bool
    requires { at + 8 ≤ length text.now }
    ensures { IsTrue result
        → IsTrue (list_all (at_home table.now) (slice_range text.now at (at + 8))) }
{
    is_at_home(table, text[at])
        & is_at_home(table, text[at + 1])
        & is_at_home(table, text[at + 2])
        & is_at_home(table, text[at + 3])
        & is_at_home(table, text[at + 4])
        & is_at_home(table, text[at + 5])
        & is_at_home(table, text[at + 6])
        & is_at_home(table, text[at + 7])
}

/// The end of the bytes from `at` on that the table has at their own places.
#[inline(always)]
fn run_end(table: &[u8; 256], text: &[u8], at: usize) -> usize
    requires { at ≤ length text.now }
    ensures low { at ≤ result }
    ensures high { result ≤ length text.now }
    ensures home { IsTrue (list_all (at_home table.now) (slice_range text.now at result)) }
{
    let mut run = at;
    while text.len() - run >= 8 && are_at_home(table, text, run) {
        run += 8;
    }
    for i in run..text.len() {
        if !is_at_home(table, text[i]) {
            return i;
        }
    }
    text.len()
}

/// The end of the bytes from `at` on that stand for themselves in an IRI.
#[inline(always)]
pub fn plain_iri_end(text: &[u8], at: usize) -> usize
    requires { at ≤ length text.now }
    ensures low { at ≤ result }
    ensures high { result ≤ length text.now }
    ensures plain { IsTrue (list_all plain_in_iri (slice_range text.now at result)) }
{
    run_end(&PLAIN_IN_IRI, text, at)
}

/// The end of the bytes from `at` on that stand for themselves in a string.
#[inline(always)]
pub fn plain_string_end(text: &[u8], at: usize) -> usize
    requires { at ≤ length text.now }
    ensures low { at ≤ result }
    ensures high { result ≤ length text.now }
    ensures plain { IsTrue (list_all plain_in_string (slice_range text.now at result)) }
{
    run_end(&PLAIN_IN_STRING, text, at)
}
