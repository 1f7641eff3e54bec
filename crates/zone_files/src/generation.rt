//! In which generation a file is.
ghost use Rattle.std.specs.Prelude.{◌≡◌, ℕ, List, Ok, IfOk, IsSome, OnErr, false};
ghost use Rattle.log_journal.specs.Front.{IsFront};
ghost use Rattle.zone_files.specs.Generation.{IsInGeneration, BeginsBroken};
ghost use Rattle.zone_files.specs.Generation.{number_of, unmarked, is_later};

use checkpoint_line::{behind_mark, read_first_line};
use log_journal::Front;

/// What stands at the front of a file begins as a checkpoint, and isn't the first line of one.
#[derive(Clone, Copy, Debug, PartialEq, Eq)]
pub struct NoGeneration;

/// In which generation a file is with this front.
pub fn generation_of(second: bool, front: &Front) -> Result<Option<u64>, NoGeneration>
    ensures ok { IfOk result (λ generation. (file : List ℕ)
        → IsFront file (number_of second) (Ok front.now)
        → IsInGeneration file second generation) }
    ensures none { OnErr result ((file : List ℕ) → IsFront file (number_of second) (Ok front.now)
        → BeginsBroken file second) }
    ensures first { second ≡ false → IfOk result IsSome }
{
    let bytes = match front {
        Front::Nothing => return Ok(without(second)),
        Front::First { bytes, .. } => bytes.as_slice(),
    };
    let Some(_) = behind_mark(bytes) else {
        return Ok(without(second));
    };
    match read_first_line(bytes) {
        Some((line, _)) => Ok(Some(line.generation)),
        None => Err(NoGeneration),
    }
}

// The generation of a file without a checkpoint.
fn without(second: bool) -> Option<u64>
    ensures { result ≡ unmarked second }
{
    if second { None } else { Some(0) }
}

/// Whether the second file is current: in a later generation than the first.
pub fn is_later(first: Option<u64>, second: Option<u64>) -> bool
    ensures { result ≡ is_later first second }
{
    match (first, second) {
        (_, None) => false,
        (None, Some(_)) => true,
        (Some(first), Some(second)) => first < second,
    }
}
