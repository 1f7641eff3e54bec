//! The ids of a text that is a patch.

ghost use Rattle.std.specs.Prelude.{◌≡◌, ◌≤◌, ◌++◌, ◌∷◌, [], List, length, IfOk, IfErr, OnOk};
ghost use Rattle.log_base.specs.declared.limits.TheConstants.{PATCH_LIMIT};
ghost use Rattle.rdf_terms.specs.declared.change.Change.{Change};
ghost use Rattle.patch_meaning.specs.declared.fault.PatchFault.TheVariants as faults;
ghost use Rattle.patch_meaning.specs.declared.role.Role.{Role as Said};
ghost use Rattle.patch_meaning.specs.Checked.{HasTakenRows, AreDrafted, HasDrafted};
ghost use Rattle.patch_meaning.specs.Checked.{Refuses, IsStopped, TakesNext};
ghost use Rattle.patch_meaning.specs.Draft.{DraftStands};
ghost use Rattle.patch_meaning.specs.PartRead.{meaning_of};
ghost use Rattle.patch_meaning.specs.Patch.{IsPatch};

use crate::checked::refuse;
use crate::draft::Draft;
use crate::fault::{PatchFault, PatchKind};
use crate::part::whole;
use crate::rows::{Next, row_from};
use log_base::{ChainLink, PATCH_LIMIT};
use patch_rows::skip_space;
use row_scan::scan_row;
use std::alloc::Global;

/// The ids of one patch. A fault is the text's first. No change is kept, and no text copied.
pub fn check_link(alloc: Global, text: &[u8]) -> Result<ChainLink, PatchFault>
    ensures ok { IfOk result (λ link.
        (changes : List Change) × IsPatch text.now (meaning_of link changes)) }
    ensures fault { IfErr result (Refuses text.now) }
{
    let length = text.len() as u64;
    if length > PATCH_LIMIT {
        return Err(PatchFault::TooLong {
            length,
            limit: PATCH_LIMIT,
        });
    }
    let draft = draft_rows(alloc, text)?;
    whole(draft, length)
}

// Takes all rows of a text.
fn draft_rows(alloc: Global, text: &[u8]) -> Result<Draft, PatchFault>
    requires { length text.now ≤ PATCH_LIMIT }
    ensures ok { IfOk result (HasDrafted text.now) }
    ensures fault { IfErr result (Refuses text.now) }
{
    let mut draft = Draft::new();
    let mut at = 0;
    while let Some(end) = take_next(alloc, &mut draft, text, at)? {
        at = end;
    }
    Ok(draft)
}

// Takes the next row behind a place, if there is one, and answers the place behind it. Of a row
// that the scan finds no term is made.
#[inline(always)]
fn take_next(
    alloc: Global,
    draft: &mut Draft,
    text: &[u8],
    from: usize,
) -> Result<Option<usize>, PatchFault>
    requires short { length text.now ≤ PATCH_LIMIT }
    requires taken { HasTakenRows text.now from (AreDrafted draft.old) }
    ensures { TakesNext text.now from (AreDrafted draft.new) result }
{
    let at = skip_space(text, from);
    if let Some(row) = scan_row(text, at) {
        return match draft.take_found(row.says) {
            Ok(()) => Ok(Some(row.end)),
            Err(kind) => Err(fault_at(at, kind)),
        };
    }
    match row_from(alloc, text, at)? {
        None => Ok(None),
        Some(next) => Ok(Some(take(draft, next)?)),
    }
}

// Takes a row, and answers the place behind it.
fn take(draft: &mut Draft, next: Next) -> Result<usize, PatchFault>
    ensures ok { OnOk result ((rs : List Said)
        → DraftStands rs draft.old → DraftStands (rs ++ next.role ∷ []) draft.new) }
    ensures end { IfOk result (λ end. end ≡ next.end) }
    ensures fault { IfErr result (λ fault. (rs : List Said)
        → DraftStands rs draft.old → IsStopped rs next fault) }
{
    let Next { role, at, end } = next;
    match draft.take(&role) {
        Ok(()) => {
            drop(role);
            Ok(end)
        }
        Err(kind) => refuse(role, fault_at(at, kind)),
    }
}

fn fault_at(at: usize, kind: PatchKind) -> PatchFault
    ensures { result ≡ faults.At at kind }
{
    PatchFault::At {
        at: at as u64,
        kind,
    }
}
