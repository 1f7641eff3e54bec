//! The patch that undoes the last one of a stream.
ghost use Rattle.std.specs.Prelude.{◌≡◌, ◌≤◌, ◌++◌, ◌∷◌, ◌^◌, [], List, IfOk, IfErr, length, map};
ghost use Rattle.std.specs.Prelude.{IfNone, IfSome};
ghost use Rattle.chain_core.specs.Links.{IsChain};
ghost use Rattle.chain_core.specs.Tested.{IsTested};
ghost use Rattle.log_base.specs.declared.chain_link.ChainLink.{ChainLink as Link};
ghost use Rattle.patch_algebra.specs.Patches.{RefusesWritten, inverse_of};
ghost use Rattle.patch_meaning.specs.Checked.{CheckedPatch, meanings};
ghost use Rattle.patch_meaning.specs.Patch.{IsPatch, Meaning};
ghost use Rattle.patch_meaning.specs.Replay.{replay};
ghost use Rattle.stream_squash.specs.Faults.{StopsInvert};
ghost use Rattle.stream_squash.specs.Links.{RepeatsId, next_link};
ghost use Rattle.stream_squash.specs.Pieces.{ArePieces, HasPieces};
ghost use Rattle.stream_squash.specs.Squashes.{IsInverse};

use crate::fault::SquashFault;
use crate::pieces::{read_piece, replayed};
use crate::placing::{Chained, read_chain};
use chain_core::{ChainFault, ChainTest};
use delta_base::Id;
use log_base::ChainLink;
use patch_algebra::{NetFault, inverse};
use patch_meaning::Checked;
use std::alloc::Global;

/// The patch of an id that undoes the last patch of a stream, and goes on its chain.
///
/// The first fault of the text comes before one of the chain, then that there is no patch, then
/// that a patch has the id, and then that the inverse is too long.
pub fn invert(alloc: Global, text: &[u8], id: Id) -> Result<Checked, SquashFault>
    requires { length text.now ≤ 2 ^ 31 }
    ensures inverse { IfOk result (IsInverse id text.now) }
    ensures fault { IfErr result (StopsInvert id text.now) }
{
    let Chained { lengths, chain } = read_chain(alloc, text)?;
    let Some((length, before)) = lengths.as_slice().split_last() else {
        return Err(SquashFault::NoPatch { version: 1 });
    };
    if let Some(fault) = fault_behind(&chain, id) {
        return Err(SquashFault::Chain(fault));
    }
    let (front, piece) = text.split_at(text.len() - *length);
    Ok(invert_last(alloc, front, before, piece, id)?)
}

// The fault of a patch of an id that names the last one of the chain.
fn fault_behind(chain: &ChainTest, id: Id) -> Option<ChainFault>
    ensures follows { IfNone result ((links : List Link) → IsTested links chain.now
        → IsChain (links ++ next_link links id ∷ [])) }
    ensures repeats { IfSome result (λ fault. (links : List Link) → IsTested links chain.now
        → RepeatsId links id fault) }
{
    chain.fault_of(ChainLink {
        id,
        prev: chain.head(),
    })
}

// The inverse of a patch behind others that each have so many bytes.
fn invert_last(
    alloc: Global,
    front: &[u8],
    lengths: &[usize],
    piece: &[u8],
    id: Id,
) -> Result<Checked, NetFault>
    requires { HasPieces front.now lengths.now }
    ensures inverse { IfOk result (λ other. (ps : List CheckedPatch) (m : Meaning)
        → ArePieces ps front.now lengths.now → IsPatch piece.now m
        → other ≡ inverse_of (replay (meanings ps)) m id) }
    ensures fault { IfErr result (λ fault. (ps : List CheckedPatch) (m : Meaning)
        → ArePieces ps front.now lengths.now → IsPatch piece.now m
        → RefusesWritten (inverse_of (replay (meanings ps)) m id) fault) }
{
    let base = replayed(alloc, front, lengths)?;
    let last = read_piece(alloc, piece)?;
    inverse(alloc, &base, &last, id)
}
