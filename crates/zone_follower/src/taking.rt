//! A shared zone as a replica of a log.
ghost use Rattle.std.specs.Prelude.{◌≡◌};
ghost use Rattle.follower.specs.Syncing.{no_patch_at};
ghost use Rattle.zone_follower.specs.Following.{answer_told, stay_told};

use catch_up::{Replica, Standing};
use delta_base::Id;
use disk_model::Disk;
use follower::TextRefusal;
use log_base::LogInfo;
use patch_meaning::{PatchFault, check_patch};
use shared_zone::{Stayed, ZoneHall, ZonePass};
use std::alloc::Global;
use std::sync::Wait;
use zone_state::TakeAnswer;

/// A zone that a pass has take what it is handed, each patch in a stay of its own. The state is the
/// pass.
#[derive(Drop)]
pub(crate) struct Following<'a, R: Wait, D: Disk> {
    pub(crate) rt: &'a R,
    pub(crate) hall: &'a ZoneHall<D>,
}

// A text that is no patch, or want of memory.
fn no_patch(version: u32, fault: PatchFault) -> TextRefusal
    ensures { result ≡ no_patch_at version fault }
{
    match fault {
        PatchFault::OutOfMemory => TextRefusal::OutOfMemory,
        fault => TextRefusal::BadPatch { version, fault },
    }
}

// What a zone that had so many patches answered to the patch with this id.
fn answered(answer: TakeAnswer, id: Id, had: u32) -> Result<u32, TextRefusal>
    ensures { result ≡ answer_told answer id had }
{
    match answer {
        TakeAnswer::Applied { version } => Ok(version),
        TakeAnswer::Diverged { have, prev } => Err(TextRefusal::Diverged {
            version: had,
            have,
            theirs: prev,
        }),
        TakeAnswer::Repeated { version } => Err(TextRefusal::Repeated { version, id }),
        TakeAnswer::Full { what, have, limit } => Err(TextRefusal::Full { what, have, limit }),
        TakeAnswer::TermsFull => Err(TextRefusal::TermsFull),
        TakeAnswer::OutOfMemory => Err(TextRefusal::OutOfMemory),
        TakeAnswer::DiskFault => Err(TextRefusal::DiskFault),
    }
}

// What a stay with the patch of this id came to.
fn told(stayed: Stayed, id: Id) -> Result<u32, TextRefusal>
    ensures { result ≡ stay_told stayed id }
{
    match stayed {
        Stayed::Ahead { found } => Ok(found),
        Stayed::Asked { had, answer } => answered(answer, id, had),
    }
}

impl<'a, R: Wait, D: Disk> Replica for Following<'a, R, D> {
    ghost use Rattle.std.specs.Prelude.{◌≡◌};
    ghost use Rattle.turn_cell.specs.Sharing.{IsPassOf};
    ghost use Rattle.shared_zone.specs.History.{shared_zone, version_seen};
    ghost use Rattle.zone_follower.specs.Following.{ShowsZone, ComesToText};

    type State = ZonePass<D>;

    type Refusal = TextRefusal;

    ghost ready = { λ f p. IsPassOf (shared_zone D.Disk) f.hall.now p };

    ghost goes_on = { λ f p from. from ≡ version_seen f.hall.now.origin.base p };

    ghost shows = { λ f. ShowsZone D.Disk f.hall.now.origin };

    ghost takes = { λ f. ComesToText D.Disk f.hall.now.origin };

    fn standing(&self, pass: &mut ZonePass<D>) -> Standing {
        let LogInfo { version, head } = self.hall.describe(self.rt, pass);
        Standing { version, head }
    }

    fn take(
        &self,
        alloc: Global,
        pass: &mut ZonePass<D>,
        text: &[u8],
        version: u32,
    ) -> Result<u32, TextRefusal> {
        let patch = match check_patch(alloc, text) {
            Ok(patch) => patch,
            Err(fault) => return Err(no_patch(version, fault)),
        };
        let id = patch.id();
        let stayed = self.hall.take(self.rt, pass, &patch, version);
        drop(patch);
        told(stayed, id)
    }
}
