//! What stands behind the last row of a text that comes in pieces.

ghost use Rattle.std.specs.Prelude.{◌≡◌, ◌≤◌, ℕ, List, true, false, None, length, drop, Ok};
ghost use Rattle.patch_rows.specs.declared.cut.TextEnd.TheVariants as ends;
ghost use Rattle.patch_reader.specs.Held.{row_place, IsKnownWithin, IsStuck, DecidesNothing};
ghost use Rattle.patch_reader.specs.Held.{IsDecided, HasAll, PassesGap, StaysThere};
ghost use Rattle.patch_reader.specs.declared.front.Region.TheVariants as regions;

use crate::progress::{RowProgress, at_row, follow};
use delta_base::OutOfMemory;
use patch_rows::TextEnd;
use patch_rows::parts::{is_cut_at, pass_gap};
use std::alloc::Global;

/// What stands at the front of the rest of a text.
#[derive(Clone, Copy)]
pub enum Region {
    /// Nothing, or the front of a character, in a comment or outside.
    Gap { comment: bool },
    /// A row, and how far it is known, once it was found to be unfinished.
    Row { progress: Option<RowProgress> },
}

/// Whether a row begins there that wasn't read yet.
pub fn is_new(region: Region) -> bool
    ensures yes { result ≡ true → region ≡ regions.Row None }
    ensures no { result ≡ false → (at : ℕ) → row_place at region ≡ None }
{
    match region {
        Region::Gap { .. } => false,
        Region::Row { progress } => progress.is_none(),
    }
}

/// How many bytes of white space and comments stand in front of a row, and what stands behind them.
fn skip_gap(rest: &[u8], in_comment: bool) -> (usize, Region)
    ensures within { result.0 ≤ length rest.now }
    ensures passes { PassesGap rest.now (regions.Gap in_comment) result.0 result.1 }
    ensures stuck { IsStuck (drop result.0 rest.now) result.1 }
{
    let (at, comment) = pass_gap(rest, 0, in_comment);
    if is_cut_at(rest, at) {
        return (at, Region::Gap { comment });
    }
    (at, Region::Row { progress: None })
}

/// The same where a row may stand in front already: how many bytes stand in front of it.
pub fn pass_front(rest: &[u8], region: &mut Region) -> usize
    requires { IsKnownWithin (length rest.now) region.old }
    ensures within { result ≤ length rest.now }
    ensures passes { PassesGap rest.now region.old result region.new }
    ensures stuck { IsStuck (drop result rest.now) region.new }
{
    match *region {
        Region::Gap { comment } => {
            let (size, there) = skip_gap(rest, comment);
            *region = there;
            size
        }
        Region::Row { .. } => 0,
    }
}

/// Whether nothing is decided in the rest of a text that may go on; of a row that wasn't read yet
/// that isn't known.
pub fn follow_open(alloc: Global, rest: &[u8], region: &mut Region) -> Result<bool, OutOfMemory>
    requires { IsKnownWithin (length rest.now) region.old }
    ensures quiet { result ≡ Ok true → DecidesNothing rest.now region.old }
    ensures decided { result ≡ Ok false → (region.old ≡ regions.Row None → ⊥)
        → IsDecided rest.now region.old }
    ensures stays { StaysThere rest.now region.old region.new }
    ensures all { result ≡ Ok false → HasAll ends.Open rest.now region.new }
{
    match *region {
        Region::Gap { .. } => Ok(true),
        Region::Row { progress } => {
            let Some(known) = progress else {
                return Ok(false);
            };
            match follow(alloc, rest, known)? {
                Some(further) => {
                    *region = Region::Row {
                        progress: Some(further),
                    };
                    Ok(true)
                }
                None => Ok(false),
            }
        }
    }
}

/// The same; in a whole text all is.
pub fn follow_rest(
    alloc: Global,
    rest: &[u8],
    region: &mut Region,
    end: TextEnd,
) -> Result<bool, OutOfMemory>
    requires { IsKnownWithin (length rest.now) region.old }
    ensures quiet { result ≡ Ok true → (end ≡ ends.Open) × DecidesNothing rest.now region.old }
    ensures stays { StaysThere rest.now region.old region.new }
    ensures all { result ≡ Ok false → HasAll end rest.now region.new }
{
    match end {
        TextEnd::Open => follow_open(alloc, rest, region),
        TextEnd::Known => Ok(false),
    }
}

/// Notes that a row was read, and isn't decided.
pub fn note_unfinished(region: &mut Region)
    ensures { (rest : List ℕ) → StaysThere rest region.old region.new }
{
    if let Region::Row { .. } = *region {
        *region = Region::Row {
            progress: Some(at_row()),
        };
    }
}
