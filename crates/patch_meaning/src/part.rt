//! A patch of a stream of which some rows were read.

ghost use Rattle.std.specs.Prelude.{◌≡◌, ◌+◌, ◌++◌, ◌∷◌, [], Bool, List};
ghost use Rattle.std.specs.Prelude.{IfOk, IfErr, OnOk, OnErr, nat_lt, ◌-◌};
ghost use Rattle.log_base.specs.declared.limits.TheConstants.{PATCH_LIMIT};
ghost use Rattle.patch_meaning.specs.declared.fault.PatchFault.TheVariants as faults;
ghost use Rattle.patch_meaning.specs.declared.role.Role.{Role as Said};
ghost use Rattle.patch_meaning.specs.declared.role.Role.TheVariants as roles;
ghost use Rattle.patch_meaning.specs.Draft.{DraftStands};
ghost use Rattle.patch_meaning.specs.Patch.{IsWell, has_some};
ghost use Rattle.patch_meaning.specs.PartRead.{meaning_of, HasPart, IsComplete};
ghost use Rattle.patch_meaning.specs.PartRead.{IsIncomplete, IsRefusedRow, IsToldAt, LacksEnd};
ghost use Rattle.patch_meaning.specs.Roles.{role, said, changes_of};
ghost use Rattle.patch_meaning.specs.Stream.{begins, within};
ghost use Rattle.patch_reader.specs.declared.placed.PlacedRow.{PlacedRow};
ghost use Rattle.rdf_terms.specs.Quad.{Statement};
ghost use Rattle.row_scan.specs.Found.{change_by};

use crate::draft::Draft;
use crate::fault::{PatchFault, PatchKind};
use crate::role::Role;
use log_base::{ChainLink, PATCH_LIMIT};

/// A patch of a stream, as far as its rows were taken. Who reads them keeps the changes.
#[derive(Clone, Copy)]
pub struct Part {
    /// Where its text begins.
    pub from: u64,
    draft: Draft,
    has_rows: bool,
}

impl Part {
    /// A patch whose text begins here, without rows so far.
    pub fn new(from: u64) -> Part
        ensures rows { HasPart [] result }
        ensures from { result.from ≡ from }
    {
        Part {
            from,
            draft: Draft::new(),
            has_rows: false,
        }
    }

    /// Whether it has rows.
    pub fn has_rows(&self) -> bool
        ensures { (rs : List PlacedRow) → HasPart rs self.now → has_some rs ≡ result }
    {
        self.has_rows
    }

    /// Whether this place is behind the limit. With a row there the patch is too long, whatever
    /// follows, and nobody needs the row's change.
    pub fn is_behind_limit(&self, at: u64) -> bool
        ensures { result ≡ nat_lt (self.now.from + PATCH_LIMIT) at }
    {
        at.saturating_sub(self.from) > PATCH_LIMIT
    }

    /// Whether the next patch begins with a row that says this.
    pub fn begins_next(&self, says: &Role) -> bool
        ensures { (rs : List PlacedRow) → HasPart rs self.now → begins (said rs) says.now ≡ result }
    {
        match says {
            Role::Id(_) => self.draft.id.is_some() || self.draft.has_change,
            Role::Prev(_) => self.draft.has_change,
            Role::Other => self.draft.has_change,
            Role::Change(_) => false,
        }
    }

    /// Takes what the row at a place says, where it may stand behind the others; else nothing
    /// changes.
    pub fn take(&mut self, says: &Role, at: u64) -> Result<(), PatchFault>
        ensures rows { OnOk result ((rs : List PlacedRow) (r : PlacedRow)
            → HasPart rs self.old → role r.row ≡ says.now → HasPart (rs ++ r ∷ []) self.new) }
        ensures from { self.new.from ≡ self.old.from }
        ensures fault { IfErr result (IsRefusedRow self.old says.now at) }
        ensures told { IfErr result (IsToldAt at) }
        ensures err { OnErr result (self.new ≡ self.old) }
    {
        match self.draft.take(says) {
            Ok(()) => {
                self.has_rows = true;
                Ok(())
            }
            Err(kind) => Err(self.fault_at(at, kind)),
        }
    }

    /// Takes a row that adds or deletes a quad, which may stand behind any others.
    #[inline]
    pub fn take_quad(&mut self)
        ensures rows { (rs : List PlacedRow) (r : PlacedRow) (adds : Bool) (quad : Statement)
            → HasPart rs self.old → role r.row ≡ roles.Change (change_by adds quad)
            → HasPart (rs ++ r ∷ []) self.new }
        ensures from { self.new.from ≡ self.old.from }
    {
        self.draft.take_quad();
        self.has_rows = true;
    }

    /// What is wrong at a place; where the patch is too long up to there, that.
    pub fn fault_at(&self, at: u64, kind: PatchKind) -> PatchFault
        ensures fault { result ≡ within self.now.from at kind }
        ensures told { IsToldAt at result }
    {
        if self.is_behind_limit(at) {
            return too_long(self.from, at);
        }
        PatchFault::At { at, kind }
    }

    /// The ids of the patch whose text stops here.
    pub fn finish(&self, stop: u64) -> Result<ChainLink, PatchFault>
        ensures ok { IfOk result (IsComplete self.now stop) }
        ensures fault { IfErr result (IsIncomplete self.now stop) }
        ensures told { IfErr result (IsToldAt stop) }
    {
        if self.is_behind_limit(stop) {
            return Err(too_long(self.from, stop));
        }
        whole(self.draft, stop)
    }
}

// A patch that has too many bytes between these places.
fn too_long(from: u64, at: u64) -> PatchFault
    ensures { result ≡ faults.TooLong (at - from) PATCH_LIMIT }
{
    PatchFault::TooLong {
        length: at.saturating_sub(from),
        limit: PATCH_LIMIT,
    }
}

/// The ids of the patch of which all rows were taken.
pub fn whole(draft: Draft, stop: u64) -> Result<ChainLink, PatchFault>
    ensures ok { IfOk result (λ link. (rs : List Said)
        → DraftStands rs draft → IsWell rs (meaning_of link (changes_of rs))) }
    ensures fault { IfErr result (λ fault. (rs : List Said) → DraftStands rs draft
        → LacksEnd rs stop fault) }
    ensures told { IfErr result (IsToldAt stop) }
{
    if draft.in_block {
        return Err(PatchFault::At {
            at: stop,
            kind: PatchKind::OpenBlock,
        });
    }
    match draft.id {
        None => Err(PatchFault::At {
            at: stop,
            kind: PatchKind::NoId,
        }),
        Some(id) => Ok(ChainLink {
            id,
            prev: draft.prev,
        }),
    }
}
