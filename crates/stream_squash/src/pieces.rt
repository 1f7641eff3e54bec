//! Texts of patches that stand one behind another, and each has so many bytes.
ghost use Rattle.std.specs.Prelude.{◌≡◌, ◌≤◌, ◌<◌, ◌∷◌, ◌^◌, List, None, Some, IfOk, IfErr};
ghost use Rattle.std.specs.Prelude.{OnOk, length, sum};
ghost use Rattle.patch_algebra.specs.Gathered.{HasGathered};
ghost use Rattle.patch_algebra.specs.Patches.{RefusesNet, net_patch_of};
ghost use Rattle.patch_algebra.specs.declared.gathering.Direction.{Direction as Directions};
ghost use Rattle.patch_meaning.specs.Checked.{CheckedPatch, meanings};
ghost use Rattle.patch_meaning.specs.Patch.{IsPatch, Meaning};
ghost use Rattle.patch_meaning.specs.Replay.{link_of, replay};
ghost use Rattle.rdf_terms.specs.Dataset.{apply};
ghost use Rattle.stream_squash.specs.Pieces.{ArePieces, HasPieces};

use dataset_tx::Dataset;
use delta_base::OutOfMemory;
use log_base::ChainLink;
use patch_algebra::{Direction, Gathering, NetFault};
use patch_meaning::{Checked, check_patch};
use std::alloc::Global;

/// How many bytes they have together.
pub fn total(lengths: &[usize]) -> usize
    requires { sum lengths.now ≤ 2 ^ 31 }
    ensures { result ≡ sum lengths.now }
{
    let mut total = 0;
    let mut left = lengths;
    while let Some((length, others)) = left.split_first() {
        total += *length;
        left = others;
    }
    total
}

/// The patch of a text that is one.
pub fn read_piece(alloc: Global, piece: &[u8]) -> Result<Checked, OutOfMemory>
    ensures { IfOk result (λ patch. (m : Meaning) → IsPatch piece.now m
        → patch ≡ record { text = piece.now; meaning = m }) }
{
    match check_patch(alloc, piece) {
        Ok(patch) => Ok(patch),
        Err(_) => Err(OutOfMemory),
    }
}

/// The dataset that patches make of the empty one. Each is let go before the next one is read.
pub fn replayed(alloc: Global, text: &[u8], lengths: &[usize]) -> Result<Dataset, OutOfMemory>
    requires { HasPieces text.now lengths.now }
    ensures contents { IfOk result (λ base. (ps : List CheckedPatch)
        → ArePieces ps text.now lengths.now → base.contents ≡ replay (meanings ps)) }
    ensures staged { IfOk result (λ base. base.staged ≡ None) }
{
    let mut base = Dataset::new(alloc);
    let mut rest = text;
    let mut left = lengths;
    while let Some((length, others)) = left.split_first() {
        let (piece, behind) = rest.split_at(*length);
        apply_piece(alloc, &mut base, piece)?;
        rest = behind;
        left = others;
    }
    Ok(base)
}

// Applies the patch of a text that is one. A stream can't name as many terms as a dataset has
// numbers for, so only memory can be wanting.
fn apply_piece(alloc: Global, base: &mut Dataset, piece: &[u8]) -> Result<(), OutOfMemory>
    requires { base.old.staged ≡ None }
    ensures contents { OnOk result ((m : Meaning) → IsPatch piece.now m
        → base.new.contents ≡ apply m.changes base.old.contents) }
    ensures staged { base.new.staged ≡ None }
{
    let patch = read_piece(alloc, piece)?;
    match base.apply(patch.changes()) {
        Ok(()) => Ok(()),
        Err(_) => Err(OutOfMemory),
    }
}

// Gathers the patch of a text that is one, which stands in front of those that were gathered, and
// answers its ids.
fn gather_piece(
    alloc: Global,
    base: &Dataset,
    gathering: &mut Gathering,
    piece: &[u8],
) -> Result<ChainLink, OutOfMemory>
    requires { base.now.staged ≡ None }
    ensures gathers { OnOk result ((m : Meaning) (direction : Directions) (behind : List Meaning)
        → IsPatch piece.now m → HasGathered direction base.now.contents behind gathering.old
        → HasGathered direction base.now.contents (m ∷ behind) gathering.new) }
    ensures link { IfOk result (λ link. (m : Meaning) → IsPatch piece.now m → link ≡ link_of m) }
{
    let patch = read_piece(alloc, piece)?;
    gathering.take(base, &patch)?;
    Ok(ChainLink {
        id: patch.id(),
        prev: patch.prev(),
    })
}

/// The net patch of patches, of which there is one at least. They are read from the last one to
/// the first, and each is let go before the next one is read.
pub fn net_of(
    alloc: Global,
    base: &Dataset,
    text: &[u8],
    lengths: &[usize],
) -> Result<Checked, NetFault>
    requires staged { base.now.staged ≡ None }
    requires pieces { HasPieces text.now lengths.now }
    requires some { 0 < length lengths.now }
    ensures net { IfOk result (λ net. (ps : List CheckedPatch)
        → ArePieces ps text.now lengths.now
        → Some net ≡ net_patch_of base.now.contents (meanings ps)) }
    ensures fault { IfErr result (λ fault. (ps : List CheckedPatch)
        → ArePieces ps text.now lengths.now
        → RefusesNet (net_patch_of base.now.contents (meanings ps)) fault) }
{
    let Some((length, before)) = lengths.split_last() else {
        unreachable!();
    };
    let mut gathering = Gathering::new(alloc, Direction::Forth);
    let (front, piece) = text.split_at(text.len() - *length);
    let last = gather_piece(alloc, base, &mut gathering, piece)?;
    let mut first = last;
    let mut rest = front;
    let mut left = before;
    while let Some((length, others)) = left.split_last() {
        let (front, piece) = rest.split_at(rest.len() - *length);
        first = gather_piece(alloc, base, &mut gathering, piece)?;
        rest = front;
        left = others;
    }
    gathering.patch(alloc, last.id, first.prev)
}
