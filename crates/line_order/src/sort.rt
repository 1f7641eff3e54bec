//! The sort of lines.
ghost use Rattle.std.specs.List.Sorted.{IsPermutation, IsSorted};
ghost use Rattle.std.specs.Prelude.{◌≡◌, length, IfOk};
ghost use Rattle.line_order.specs.Moves.{lines_of};

use crate::presort::{Keyed, sort_keyed};
use delta_base::OutOfMemory;
use std::alloc::Global;

/// What is ordered by the bytes of its line before all else.
pub trait Line: Ord + Copy {
    fn bytes(&self) -> &[u8];
}

impl Line for &[u8] {
    #[inline]
    fn bytes(&self) -> &[u8] {
        self
    }
}

/// A line, and a number that tells it from those that are alike.
impl Line for (&[u8], usize) {
    #[inline]
    fn bytes(&self) -> &[u8] {
        self.0
    }
}

/// Sorts lines. Where there is no memory to do so fast, they are sorted all the same.
pub fn sort_lines<T: Line>(alloc: Global, lines: &mut Vec<T>)
    ensures permutation { IsPermutation lines.old.items lines.new.items }
    ensures sorted { IsSorted T.cmp lines.new.items }
{
    match keyed_lines(alloc, lines) {
        Ok(mut keyed) => {
            sort_keyed(&mut keyed);
            write_back(&keyed, lines);
        }
        Err(_) => lines.sort_unstable(),
    }
}

// Each line with room for a key.
fn keyed_lines<T: Line>(alloc: Global, lines: &[T]) -> Result<Vec<Keyed<T>>, OutOfMemory>
    ensures { IfOk result (λ keyed. lines_of keyed.items ≡ lines.now) }
{
    let mut keyed = Vec::with_capacity(alloc, lines.len())?;
    for line in lines {
        keyed.push(Keyed::new(*line))?;
    }
    Ok(keyed)
}

// Puts lines where others stood.
fn write_back<T: Line>(keyed: &[Keyed<T>], lines: &mut [T])
    requires { length keyed.now ≡ length lines.old }
    ensures { lines.new ≡ lines_of keyed.now }
{
    for at in 0..lines.len() {
        lines[at] = keyed[at].line;
    }
}
