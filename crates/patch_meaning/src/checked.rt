//! Patches that were checked.

ghost use Rattle.std.specs.Prelude.{◌≡◌, ◌≤◌, ◌++◌, ◌∷◌, [], List, Err, length, IfOk, IfErr, OnOk};
ghost use Rattle.patch_meaning.specs.declared.role.Role.{Role as Said};
ghost use Rattle.patch_meaning.specs.declared.role.Role.TheVariants as roles;
ghost use Rattle.patch_meaning.specs.Checked.{AreRead, HasReadPatch, HasTakenRows};
ghost use Rattle.patch_meaning.specs.Checked.{Refuses, IsStopped, TakesNext};
ghost use Rattle.patch_meaning.specs.Roles.{change_of};
ghost use Rattle.patch_meaning.specs.PartRead.{meaning_of};
ghost use Rattle.log_base.specs.declared.limits.TheConstants.{PATCH_LIMIT};
ghost use Rattle.patch_meaning.specs.Patch.{IsPatch};
ghost use Rattle.row_scan.specs.Found.{change_by};

use crate::draft::Draft;
use crate::fault::PatchFault;
use crate::part::whole;
use crate::role::Role;
use crate::rows::{Next, next_from};
use delta_base::{Bytes, Id, Listing, OutOfMemory};
use log_base::{ChainLink, PATCH_LIMIT, Sent};
use patch_rows::skip_space;
use rdf_terms::{Change, Changes, Quad};
use row_scan::{MadeRow, made_row};
use std::alloc::Global;
use std::marker::Model;

/// A patch whose text was checked: its id, the id of the patch before it, its changes and its text
/// are those of one patch.
#[derive(Drop)]
pub struct Checked {
    id: Id,
    prev: Option<Id>,
    text: Bytes,
    changes: Changes,
}

impl Model for Checked {
    ghost use Rattle.patch_meaning.specs.Checked.{CheckedPatch, checked};
    ghost use Rattle.patch_meaning.specs.Patch.{IsPatch};

    ghost Value = { CheckedPatch };

    ghost view = { λ c. checked c.text c.id c.prev c.changes.items };

    ghost invariant = { λ c.
        IsPatch c.text (record { id = c.id; prev = c.prev; changes = c.changes.items }) };
}

impl Checked {
    // A patch with its text.
    pub(crate) fn with_text(
        alloc: Global,
        text: &[u8],
        link: ChainLink,
        changes: Changes,
    ) -> Result<Checked, OutOfMemory>
        requires { IsPatch text.now (meaning_of link changes.items) }
        ensures { IfOk result (λ c.
            c ≡ record { text = text.now; meaning = meaning_of link changes.items }) }
    {
        let text = Bytes::from_slice(alloc, text)?;
        Ok(Checked {
            id: link.id,
            prev: link.prev,
            text,
            changes,
        })
    }

    pub fn id(&self) -> Id
        ensures { result ≡ self.now.meaning.id }
    {
        self.id
    }

    /// The id of the patch before it, if it names one.
    pub fn prev(&self) -> Option<Id>
        ensures { result ≡ self.now.meaning.prev }
    {
        self.prev
    }

    /// The changes in their order, with the words of blocks.
    pub fn changes(&self) -> &Changes
        ensures { result.now.items ≡ self.now.meaning.changes }
    {
        &self.changes
    }

    /// The text as it was given.
    pub fn text(&self) -> &Bytes
        ensures text { result.now ≡ self.now.text }
        ensures is_patch { IsPatch self.now.text self.now.meaning }
        ensures short { length self.now.text ≤ PATCH_LIMIT }
    {
        &self.text
    }

    /// An equal patch.
    pub fn copy(&self) -> Result<Checked, OutOfMemory>
        ensures { IfOk result (λ c. c ≡ self.now) }
    {
        Ok(Checked {
            id: self.id,
            prev: self.prev,
            text: self.text.copy()?,
            changes: copy_changes(&self.changes)?,
        })
    }
}

impl Sent for Checked {
    ghost link_sent = { λ patch. record { id = patch.meaning.id; prev = patch.meaning.prev } };

    ghost text_sent = { λ patch. patch.text };

    fn link(&self) -> ChainLink {
        ChainLink {
            id: self.id,
            prev: self.prev,
        }
    }

    fn text(&self) -> &[u8] {
        self.text.as_slice()
    }
}

// Equal changes.
fn copy_changes(changes: &Changes) -> Result<Changes, OutOfMemory>
    ensures { IfOk result (λ copy. copy.items ≡ changes.now.items) }
{
    let mut copy = Listing::new(changes.alloc());
    for change in changes.as_slice() {
        copy.push(change.copy()?)?;
    }
    Ok(copy)
}

/// A patch of which some rows were read, and its changes so far.
#[derive(Drop)]
pub struct ReadRows {
    draft: Draft,
    changes: Changes,
}

/// Reads one patch. A fault is the text's first.
pub fn check_patch(alloc: Global, text: &[u8]) -> Result<Checked, PatchFault>
    ensures ok { IfOk result (λ patch. (patch.text ≡ text.now) × IsPatch text.now patch.meaning) }
    ensures fault { IfErr result (Refuses text.now) }
{
    let length = text.len() as u64;
    if length > PATCH_LIMIT {
        return Err(PatchFault::TooLong {
            length,
            limit: PATCH_LIMIT,
        });
    }
    let read = read_rows(alloc, text)?;
    finish(alloc, read, text)
}

// Takes all rows of a text.
fn read_rows(alloc: Global, text: &[u8]) -> Result<ReadRows, PatchFault>
    requires { length text.now ≤ PATCH_LIMIT }
    ensures ok { IfOk result (HasReadPatch text.now) }
    ensures fault { IfErr result (Refuses text.now) }
{
    let mut read = ReadRows {
        draft: Draft::new(),
        changes: Listing::new(alloc),
    };
    let mut at = 0;
    while let Some(end) = take_next(alloc, &mut read, text, at)? {
        at = end;
    }
    Ok(read)
}

// Takes the next row behind a place, if there is one, and answers the place behind it. Where the
// scan finds a quad, it is made with no reading.
#[inline(always)]
fn take_next(
    alloc: Global,
    read: &mut ReadRows,
    text: &[u8],
    from: usize,
) -> Result<Option<usize>, PatchFault>
    requires short { length text.now ≤ PATCH_LIMIT }
    requires taken { HasTakenRows text.now from (AreRead read.old) }
    ensures { TakesNext text.now from (AreRead read.new) result }
{
    let at = skip_space(text, from);
    if let Some(MadeRow { row, quad }) = made_row(alloc, text, at)? {
        take_quad(read, row.adds, quad)?;
        return Ok(Some(row.end));
    }
    match next_from(alloc, text, at)? {
        None => Ok(None),
        Some(next) => Ok(Some(take(read, next)?)),
    }
}

// Takes a row that adds or deletes a quad, which may stand behind any others.
#[inline(always)]
fn take_quad(read: &mut ReadRows, adds: bool, quad: Quad) -> Result<(), OutOfMemory>
    ensures { OnOk result ((rs : List Said) → AreRead read.old rs
        → AreRead read.new (rs ++ roles.Change (change_by adds quad) ∷ [])) }
{
    read.draft.take_quad();
    if adds {
        read.changes.push(Change::Add(quad))?;
    } else {
        read.changes.push(Change::Delete(quad))?;
    }
    Ok(())
}

// Takes a row, and answers the place behind it.
fn take(read: &mut ReadRows, next: Next) -> Result<usize, PatchFault>
    ensures ok { OnOk result ((rs : List Said)
        → AreRead read.old rs → AreRead read.new (rs ++ next.role ∷ [])) }
    ensures end { IfOk result (λ end. end ≡ next.end) }
    ensures fault { IfErr result (λ fault. (rs : List Said)
        → AreRead read.old rs → IsStopped rs next fault) }
{
    let Next { role, at, end } = next;
    match read.draft.take(&role) {
        Ok(()) => {
            keep(&mut read.changes, role)?;
            Ok(end)
        }
        Err(kind) => refuse(
            role,
            PatchFault::At {
                at: at as u64,
                kind,
            },
        ),
    }
}

/// Keeps the change that a row says, if it says one.
pub fn keep(changes: &mut Changes, says: Role) -> Result<(), OutOfMemory>
    ensures { OnOk result (changes.new.items ≡ changes.old.items ++ change_of says) }
{
    match says {
        Role::Change(change) => {
            changes.push(change)?;
            Ok(())
        }
        _ => Ok(()),
    }
}

/// Lets go what a row says, and answers the fault.
pub fn refuse<T>(says: Role, fault: PatchFault) -> Result<T, PatchFault>
    ensures { result ≡ Err fault }
{
    drop(says);
    Err(fault)
}

// The patch of which all rows were taken.
fn finish(alloc: Global, read: ReadRows, text: &[u8]) -> Result<Checked, PatchFault>
    requires short { length text.now ≤ PATCH_LIMIT }
    requires read { HasReadPatch text.now read }
    ensures ok { IfOk result (λ patch. (patch.text ≡ text.now) × IsPatch text.now patch.meaning) }
    ensures fault { IfErr result (Refuses text.now) }
{
    let link = whole(read.draft, text.len() as u64)?;
    Ok(Checked::with_text(alloc, text, link, read.changes)?)
}
