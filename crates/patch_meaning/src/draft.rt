//! A patch of which some rows were read.

ghost use Rattle.std.specs.Prelude.{◌≡◌, ◌++◌, ◌∷◌, [], Bool, List, None, Some, MatchResult, OnErr};
ghost use Rattle.patch_meaning.specs.declared.role.Role.{Role as Said};
ghost use Rattle.patch_meaning.specs.declared.role.Role.TheVariants as roles;
ghost use Rattle.patch_meaning.specs.Patch.{block_refusal};
ghost use Rattle.patch_meaning.specs.Roles.{open_after, IsFoundRole};
ghost use Rattle.rdf_terms.specs.Quad.{Statement};
ghost use Rattle.row_scan.specs.Found.{change_by};

use crate::fault::PatchKind;
use crate::role::Role;
use delta_base::Id;
use rdf_terms::Change;
use row_scan::Says;

/// A patch, as far as its rows were read. Who reads them keeps the changes.
#[derive(Clone, Copy)]
pub struct Draft {
    pub id: Option<Id>,
    pub prev: Option<Id>,
    pub has_change: bool,
    /// Whether a block is open.
    pub in_block: bool,
}

impl Draft {
    ghost use Rattle.patch_meaning.specs.Draft.{DraftStands, DraftTakes};

    /// No row so far.
    pub fn new() -> Draft
        ensures { DraftStands [] result }
    {
        Draft {
            id: None,
            prev: None,
            has_change: false,
            in_block: false,
        }
    }

    /// Takes what the next row says, where it may stand behind the others; else nothing changes.
    pub fn take(&mut self, says: &Role) -> Result<(), PatchKind>
        ensures row { (rs : List Said) → DraftStands rs self.old
            → DraftTakes rs says.now result self.new }
        ensures err { OnErr result (self.new ≡ self.old) }
    {
        match says {
            Role::Id(id) => self.take_id(*id),
            Role::Prev(prev) => self.take_prev(*prev),
            Role::Other => self.take_other(),
            Role::Change(change) => self.take_change(change),
        }
    }

    /// Takes the next row, of which a scan found what it says, with no row made.
    #[inline]
    pub fn take_found(&mut self, says: Says) -> Result<(), PatchKind>
        ensures { (rs : List Said) (r : Said)
            → IsFoundRole says r → DraftStands rs self.old → DraftTakes rs r result self.new }
    {
        match says {
            Says::Quad { .. } => {
                self.take_quad();
                Ok(())
            }
            Says::Begin => self.take_change(&Change::Begin),
            Says::Commit => self.take_change(&Change::Commit),
            Says::Abort => self.take_change(&Change::Abort),
            Says::Id(id) => self.put_id(id),
            Says::Prev(prev) => self.put_prev(prev),
        }
    }

    #[tactic(auto, unfolding(crate::specs::Patch::refusal))]
    fn take_id(&mut self, id: Option<Id>) -> Result<(), PatchKind>
        ensures row { (rs : List Said)
            → DraftStands rs self.old → DraftTakes rs (roles.Id id) result self.new }
        ensures err { OnErr result (self.new ≡ self.old) }
    {
        match id {
            None => Err(PatchKind::BadId),
            Some(id) => self.put_id(id),
        }
    }

    fn put_id(&mut self, id: Id) -> Result<(), PatchKind>
        ensures row { (rs : List Said)
            → DraftStands rs self.old → DraftTakes rs (roles.Id (Some id)) result self.new }
        ensures err { OnErr result (self.new ≡ self.old) }
    {
        if self.id.is_some() {
            return Err(PatchKind::TwoIds);
        }
        if self.has_change {
            return Err(PatchKind::LateHeader);
        }
        self.id = Some(id);
        Ok(())
    }

    #[tactic(auto, unfolding(crate::specs::Patch::refusal))]
    fn take_prev(&mut self, prev: Option<Id>) -> Result<(), PatchKind>
        ensures row { (rs : List Said)
            → DraftStands rs self.old → DraftTakes rs (roles.Prev prev) result self.new }
        ensures err { OnErr result (self.new ≡ self.old) }
    {
        match prev {
            None => Err(PatchKind::BadId),
            Some(prev) => self.put_prev(prev),
        }
    }

    fn put_prev(&mut self, prev: Id) -> Result<(), PatchKind>
        ensures row { (rs : List Said)
            → DraftStands rs self.old → DraftTakes rs (roles.Prev (Some prev)) result self.new }
        ensures err { OnErr result (self.new ≡ self.old) }
    {
        if self.prev.is_some() {
            return Err(PatchKind::TwoPrevs);
        }
        if self.has_change {
            return Err(PatchKind::LateHeader);
        }
        self.prev = Some(prev);
        Ok(())
    }

    fn take_other(&mut self) -> Result<(), PatchKind>
        ensures row { (rs : List Said) → DraftStands rs self.old
            → DraftTakes rs roles.Other result self.new }
        ensures err { OnErr result (self.new ≡ self.old) }
    {
        if self.has_change {
            return Err(PatchKind::LateHeader);
        }
        Ok(())
    }

    /// Takes a row that adds or deletes a quad, which may stand behind any others.
    #[inline]
    pub fn take_quad(&mut self)
        ensures { (rs : List Said) (adds : Bool) (quad : Statement) → DraftStands rs self.old
            → DraftStands (rs ++ roles.Change (change_by adds quad) ∷ []) self.new }
    {
        self.has_change = true;
    }

    #[inline]
    fn take_change(&mut self, change: &Change) -> Result<(), PatchKind>
        ensures row { (rs : List Said)
            → DraftStands rs self.old → DraftTakes rs (roles.Change change.now) result self.new }
        ensures err { OnErr result (self.new ≡ self.old) }
    {
        match in_block_behind(change, self.in_block) {
            Ok(in_block) => {
                self.in_block = in_block;
                self.has_change = true;
                Ok(())
            }
            Err(why) => Err(why),
        }
    }
}

// Whether a block is open behind a change, where it may stand.
#[inline]
fn in_block_behind(change: &Change, in_block: bool) -> Result<bool, PatchKind>
    ensures { MatchResult result (λ after. (after ≡ open_after in_block change.now)
        × (block_refusal in_block change.now ≡ None))
        (λ why. block_refusal in_block change.now ≡ Some why) }
{
    match change {
        Change::Begin => {
            if in_block {
                return Err(PatchKind::Nested);
            }
            Ok(true)
        }
        Change::Commit | Change::Abort => {
            if !in_block {
                return Err(PatchKind::NotInBlock);
            }
            Ok(false)
        }
        _ => Ok(in_block),
    }
}
