//! The front of a text.
ghost use Rattle.std.specs.Prelude.{◌≡◌, ◌≤◌, ◌++◌, ℕ, List, length};

/// What stands in a text in front of its rest.
pub fn front_of<'t>(text: &'t [u8], rest: &[u8]) -> &'t [u8]
    requires { length rest.now ≤ length text.now }
    ensures { (front : List ℕ) → text.now ≡ front ++ rest.now → result.now ≡ front }
{
    &text[..text.len() - rest.len()]
}
