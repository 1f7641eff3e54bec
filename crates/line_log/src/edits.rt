//! Edits whose lines stand elsewhere.
ghost use Rattle.std.specs.Prelude.{◌≡◌, ◌≤◌, length};
ghost use Rattle.line_log.specs.Held.{start_of};

/// Whether a line comes among the others or goes, and the place behind it in the text. It begins
/// where the line of the edit before it ends.
#[derive(Clone, Copy)]
pub struct Edit {
    pub adds: bool,
    pub end: u32,
}

/// Where the line of an edit begins, or, with no edit there, where the next one's would.
#[inline]
pub fn start_of(edits: &[Edit], number: usize) -> usize
    requires { number ≤ length edits.now }
    ensures { result ≡ start_of 0 edits.now number }
{
    if number == 0 {
        return 0;
    }
    edits[number - 1].end as usize
}
