//! Lines of quads.
ghost use Rattle.std.specs.Prelude.{◌≡◌, ◌++◌, ◌∷◌, ℕ, List, [], None};
ghost use Rattle.std.specs.Prelude.{Ok, Err, IfOk, IfSome, IfNone, OnOk, IsErrOf};
ghost use Rattle.rdf_terms.specs.declared.change.Change.TheVariants.{Add};
ghost use Rattle.rdf_terms.specs.Dataset.{effect};
ghost use Rattle.rdf_terms.specs.Line.{line};
ghost use Rattle.rdf_terms.specs.Quad.{Statement};
ghost use Rattle.nquads_documents.specs.Laws.{IsQuadValue};
ghost use Rattle.dataset_tx.specs.Held.{AreMet};
ghost use Rattle.checkpoint_reading.specs.Front.{IsPast, IsInFront, NoneInFront, OnlyInFront};
ghost use Rattle.checkpoint_reading.specs.Front.{RiseInFront};
ghost use Rattle.checkpoint_reading.specs.Reading.{HasNewQuads};

use crate::applying::apply;
use crate::fault::CheckpointFault;
use crate::front::front_of;
use canonical_scan::{line_places, made_quad};
use dataset_tx::Dataset;
use delta_base::{Listing, OutOfMemory};
use nquads_documents::push_line;
use nquads_text::{ReadFault, read_statement};
use rdf_terms::{Change, Changes, Quad};
use std::alloc::Global;

// The quad in front, however it is written. No line of another one stands there.
fn read_any(alloc: Global, text: &[u8]) -> Result<Quad, CheckpointFault>
    ensures ok { IfOk result (OnlyInFront line IsQuadValue text.now) }
    ensures broken { IsErrOf result CheckpointFault.Broken → NoneInFront line IsQuadValue text.now }
{
    match read_statement(alloc, text, 0) {
        Ok((quad, _)) => Ok(quad),
        Err(ReadFault::At { .. }) => Err(CheckpointFault::Broken),
        Err(ReadFault::OutOfMemory) => Err(CheckpointFault::OutOfMemory),
    }
}

// What stands behind a quad's line, where that stands in front. The line is made in the room.
fn behind_line<'t>(
    text: &'t [u8],
    quad: &Quad,
    room: &mut Vec<u8>,
) -> Result<Option<&'t [u8]>, OutOfMemory>
    ensures some { IfOk result (λ behind. IfSome behind (λ rest.
        text.now ≡ line quad.now ++ rest.now)) }
    ensures none { IfOk result (λ behind. IfNone behind
        ((rest : List ℕ) → text.now ≡ line quad.now ++ rest → ⊥)) }
    ensures value { OnOk result (IsQuadValue quad.now) }
{
    room.clear();
    push_line(room, quad)?;
    Ok(text.strip_prefix(room.as_slice()))
}

// The quad whose line stands in front, and what stands behind it.
fn read_printed<'t>(
    alloc: Global,
    text: &'t [u8],
    room: &mut Vec<u8>,
) -> Result<(Quad, &'t [u8]), CheckpointFault>
    ensures ok { IfOk result (λ found.
        IsInFront line IsQuadValue text.now found.0 found.1.now) }
    ensures broken { IsErrOf result CheckpointFault.Broken → NoneInFront line IsQuadValue text.now }
{
    let quad = read_any(alloc, text)?;
    match behind_line(text, &quad, room) {
        Ok(Some(rest)) => Ok((quad, rest)),
        Ok(None) => {
            drop(quad);
            Err(CheckpointFault::Broken)
        }
        Err(_) => {
            drop(quad);
            Err(CheckpointFault::OutOfMemory)
        }
    }
}

// Such a quad by one scan; none where the scan finds none, or an escape.
fn scan_quad<'t>(alloc: Global, text: &'t [u8]) -> Result<Option<(Quad, &'t [u8])>, OutOfMemory>
    ensures { IfOk result (λ made. IfSome made (λ found.
        IsInFront line IsQuadValue text.now found.0 found.1.now)) }
{
    let Some(places) = line_places(text, 0) else {
        return Ok(None);
    };
    match made_quad(alloc, text, 0, places)? {
        Some(quad) => Ok(Some((quad, &text[places.end..]))),
        None => Ok(None),
    }
}

// Such a quad, by a scan where that finds it.
fn read_quad<'t>(
    alloc: Global,
    text: &'t [u8],
    room: &mut Vec<u8>,
) -> Result<(Quad, &'t [u8]), CheckpointFault>
    ensures ok { IfOk result (λ found.
        IsInFront line IsQuadValue text.now found.0 found.1.now) }
    ensures broken { IsErrOf result CheckpointFault.Broken → NoneInFront line IsQuadValue text.now }
{
    match scan_quad(alloc, text)? {
        Some(found) => Ok(found),
        None => read_printed(alloc, text, room),
    }
}

// The same of a line that comes behind the last one in the order of bytes.
fn next_quad<'t>(
    alloc: Global,
    text: &'t [u8],
    last: &[u8],
    room: &mut Vec<u8>,
) -> Result<(Quad, &'t [u8]), CheckpointFault>
    ensures ok { IfOk result (λ found. IsInFront line
        (IsPast line IsQuadValue last.now) text.now found.0 found.1.now) }
    ensures broken { IsErrOf result CheckpointFault.Broken
        → NoneInFront line (IsPast line IsQuadValue last.now) text.now }
{
    let (quad, rest) = read_quad(alloc, text, room)?;
    if last.cmp(front_of(text, rest)).is_lt() {
        Ok((quad, rest))
    } else {
        drop(quad);
        Err(CheckpointFault::Broken)
    }
}

/// Adds so many quads, whose lines stand in front in the order of their bytes. Answers what
/// stands behind them.
pub fn read_quads<'t>(
    alloc: Global,
    text: &'t [u8],
    count: u64,
    contents: &mut Dataset,
) -> Result<&'t [u8], CheckpointFault>
    requires unstaged { contents.old.staged ≡ None }
    requires none { contents.old.contents.quads ≡ [] }
    ensures ok { IfOk result (λ rest. (quads : List Statement)
        × RiseInFront line IsQuadValue count text.now quads rest.now
        × HasNewQuads contents.old contents.new quads) }
    ensures broken { IsErrOf result CheckpointFault.Broken
        → (quads : List Statement) (rest : List ℕ)
        → RiseInFront line IsQuadValue count text.now quads rest → ⊥ }
{
    let mut changes = Listing::new(alloc);
    let mut room = Vec::new(alloc);
    let mut last: &[u8] = &[];
    let mut rest = text;
    for _place in 0..count {
        let (quad, behind) = next_quad(alloc, rest, last, &mut room)?;
        apply(contents, &mut changes, Change::Add(quad))?;
        last = front_of(rest, behind);
        rest = behind;
    }
    Ok(rest)
}
