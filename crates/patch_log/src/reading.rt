//! Reads runs.
ghost use Rattle.std.specs.Prelude.{◌≡◌, ◌≤◌, ◌⊎◌, List, [], ◌∷◌, length, map, IfOk, IfErr};
ghost use Rattle.log_base.specs.declared.limits.TheConstants.{PATCH_LIMIT};
ghost use Rattle.rdf_terms.specs.declared.change.Change.{Change};
ghost use Rattle.chain_core.specs.Runs.{IsRun};
ghost use Rattle.patch_meaning.specs.Checked.{Refuses};
ghost use Rattle.patch_meaning.specs.PartRead.{meaning_of};
ghost use Rattle.patch_meaning.specs.Patch.{IsPatch};
ghost use Rattle.patch_log.specs.Opening.{IsPatchRead, IsRunRead, patch_linked};
ghost use Rattle.patch_log.specs.RunFaults.{HasRunFault, HasLinkFault, link_in_run};

use crate::run::{Run, RunFault};
use chain_core::{ChainTest, Patch};
use delta_base::{Bytes, Listing, OutOfMemory};
use log_base::{ChainLink, PATCH_LIMIT};
use patch_meaning::{Linked, PatchFault, check_link, split_links};
use std::alloc::Global;

/// The run that a text is. Where it is one patch, the text moves into it. A fault is the text's
/// first, in the order of its kinds.
pub fn read_run(alloc: Global, text: Bytes) -> Result<Run, RunFault>
    ensures ok { IfOk result (IsRunRead text) }
    ensures fault { IfErr result (HasRunFault text) }
{
    match check_link(alloc, text.as_slice()) {
        Ok(link) => Ok(alone(alloc, link, text)?),
        Err(_) => check_run(alloc, text.as_slice()),
    }
}

/// The run of the one patch that a text is, which moves into it. A fault is the text's first.
pub fn read_patch(alloc: Global, text: Bytes) -> Result<Run, PatchFault>
    ensures ok { IfOk result (IsPatchRead text) }
    ensures fault { IfErr result (Refuses text) }
{
    let link = check_link(alloc, text.as_slice())?;
    Ok(alone(alloc, link, text)?)
}

// The run of one patch by itself.
fn alone(alloc: Global, link: ChainLink, text: Bytes) -> Result<Run, OutOfMemory>
    requires { (changes : List Change) × IsPatch text (meaning_of link changes) }
    ensures { IfOk result (λ run.
        run ≡ record { id = link.id; prev = link.prev; text = text } ∷ []) }
{
    let mut patches = Listing::new(alloc);
    patches.push(Patch {
        id: link.id,
        prev: link.prev,
        text,
    })?;
    Ok(Run { patches })
}

/// The run that a text is, whose patches have copies of it. A fault is the text's first, in the
/// order of its kinds.
pub fn check_run(alloc: Global, text: &[u8]) -> Result<Run, RunFault>
    ensures ok { IfOk result (IsRunRead text.now) }
    ensures fault { IfErr result (HasRunFault text.now) }
{
    let length = text.len() as u64;
    if length > PATCH_LIMIT {
        return Err(RunFault::TooLong {
            length,
            limit: PATCH_LIMIT,
        });
    }
    let linked = match split_links(alloc, text) {
        Ok(linked) => linked,
        Err(PatchFault::OutOfMemory) => return Err(RunFault::OutOfMemory),
        Err(fault) => return Err(RunFault::Patch(fault)),
    };
    let patches = patches_of(alloc, linked)?;
    check_links(alloc, patches.as_slice())?;
    Ok(Run { patches })
}

// The patches that were read as links and texts.
fn patches_of(alloc: Global, linked: Listing<Linked>) -> Result<Listing<Patch>, OutOfMemory>
    ensures { IfOk result (λ patches. patches.items ≡ map patch_linked linked.items) }
{
    let mut patches = Listing::new(alloc);
    for patch in linked.into_vec() {
        let Linked { link, text } = patch;
        patches.push(Patch {
            id: link.id,
            prev: link.prev,
            text,
        })?;
    }
    Ok(patches)
}

// A link at a place of a run, counted from 0: the first one counts as naming nothing.
fn link_at(place: usize, patch: &Patch) -> ChainLink
    ensures { result
        ≡ link_in_run place (record { id = patch.now.id; prev = patch.now.prev }) }
{
    if place == 0 {
        return ChainLink {
            id: patch.id,
            prev: None,
        };
    }
    ChainLink {
        id: patch.id,
        prev: patch.prev,
    }
}

// Tests whether patches are a run.
fn check_links(alloc: Global, patches: &[Patch]) -> Result<(), RunFault>
    requires few { length patches.now ≤ PATCH_LIMIT }
    ensures ok { IfOk result (λ _. IsRun patches.now) }
    ensures fault { IfErr result (HasLinkFault patches.now) }
{
    if patches.is_empty() {
        return Err(RunFault::BadRun { at: 0 });
    }
    let mut test = ChainTest::new(alloc);
    for (place, patch) in patches.iter().enumerate() {
        let link = link_at(place, patch);
        if test.fault_of(link).is_some() {
            return Err(RunFault::BadRun {
                at: place as u64 + 1,
            });
        }
        test.push(link)?;
    }
    Ok(())
}
