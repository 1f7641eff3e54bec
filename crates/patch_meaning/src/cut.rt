//! A stream that is cut into patches while its rows come one at a time.

ghost use Rattle.std.specs.Prelude.{◌≡◌, IfOk, IfErr, OnErr};
ghost use Rattle.patch_meaning.specs.Cutting.{BeginsPatch, EndsStream, HasTakenNext, IsBrokenAt};
ghost use Rattle.patch_meaning.specs.Cutting.{IsBrokenAtEnd, IsBrokenBy, IsCutAt, IsLastPatch};
ghost use Rattle.patch_meaning.specs.Cutting.{IsLeftPart};
ghost use Rattle.patch_meaning.specs.PartRead.{IsIncomplete, IsToldAt};

use crate::fault::{PatchFault, PatchKind};
use crate::part::Part;
use crate::role::Role;
use log_base::ChainLink;
use patch_rows::RowKind;

impl Part {
    /// Takes what the next row of a stream says, and the row's place. Where the next patch begins
    /// with it, the ids of the patch so far are answered, and the part is that next patch. Behind a
    /// fault the part is as before.
    pub fn take_next(&mut self, says: &Role, at: u64) -> Result<Option<ChainLink>, PatchFault>
        ensures ok { IfOk result (λ done. HasTakenNext self.old says.now at done self.new) }
        ensures cut { IfOk result (IsCutAt self.old says.now at) }
        ensures fault { IfErr result (IsBrokenBy self.old says.now at) }
        ensures told { IfErr result (IsToldAt at) }
        ensures err { OnErr result (self.new ≡ self.old) }
    {
        match self.cut_before(says, at) {
            Ok((mut next, done)) => match next.take(says, at) {
                Ok(()) => {
                    *self = next;
                    Ok(done)
                }
                Err(fault) => Err(fault),
            },
            Err(fault) => Err(fault),
        }
    }

    // The patch to which the row belongs that says this, and the ids of the one before it, where
    // the row begins the next one.
    fn cut_before(&self, says: &Role, at: u64) -> Result<(Part, Option<ChainLink>), PatchFault>
        ensures cut { IfOk result (λ x. IsCutAt self.now says.now at x.1) }
        ensures left { IfOk result (λ x. IsLeftPart self.now at x.1 x.0) }
        ensures fault { IfErr result (λ fault.
            BeginsPatch says.now self.now × IsIncomplete self.now at fault) }
        ensures told { IfErr result (IsToldAt at) }
    {
        if !self.begins_next(says) {
            return Ok((*self, None));
        }
        match self.finish(at) {
            Ok(link) => Ok((Part::new(at), Some(link))),
            Err(fault) => Err(fault),
        }
    }

    /// The ids of the last patch of a stream that ends here, if it has rows.
    pub fn finish_stream(&self, stop: u64) -> Result<Option<ChainLink>, PatchFault>
        ensures ok { IfOk result (EndsStream self.now stop) }
        ensures last { IfOk result (IsLastPatch self.now stop) }
        ensures fault { IfErr result (IsBrokenAtEnd self.now stop) }
        ensures told { IfErr result (IsToldAt stop) }
    {
        if !self.has_rows() {
            return Ok(None);
        }
        match self.finish(stop) {
            Ok(link) => Ok(Some(link)),
            Err(fault) => Err(fault),
        }
    }

    /// The fault of a stream where no row stands at this place.
    pub fn break_stream(&self, at: u64, kind: RowKind) -> PatchFault
        ensures fault { IsBrokenAt self.now at kind result }
        ensures told { IsToldAt at result }
    {
        self.fault_at(at, PatchKind::Row(kind))
    }
}
