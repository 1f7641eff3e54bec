//! Taking the text of a patch that was fetched.
ghost use Rattle.std.specs.Prelude.{◌≡◌, ◌≢◌, ◌+◌, [], length, OnOk, IfErr, IsErrOf};
ghost use Rattle.patch_meaning.specs.Checked.{CheckedPatch};
ghost use Rattle.follower.specs.Footing.{ZoneWent};
ghost use Rattle.follower.specs.Grown.{IsText, Stayed, Took};
ghost use Rattle.follower.specs.Syncing.{RefusesText, no_patch_at, taken_or_refused};

use crate::ends::TextRefusal;
use crate::zones::Follower;
use delta_base::Id;
use patch_meaning::{PatchFault, check_patch};
use std::alloc::Global;
use zone_state::TakeAnswer;

// A text that is no patch, or want of memory.
fn no_patch(version: u32, fault: PatchFault) -> TextRefusal
    ensures { result ≡ no_patch_at version fault }
{
    match fault {
        PatchFault::OutOfMemory => TextRefusal::OutOfMemory,
        fault => TextRefusal::BadPatch { version, fault },
    }
}

// What a zone of this version answered to the patch with this id.
fn told(answer: TakeAnswer, id: Id, mine: u32) -> Result<(), TextRefusal>
    ensures { result ≡ taken_or_refused answer id mine }
{
    match answer {
        TakeAnswer::Applied { version: _ } => Ok(()),
        TakeAnswer::Diverged { have, prev } => Err(TextRefusal::Diverged {
            version: mine,
            have,
            theirs: prev,
        }),
        TakeAnswer::Repeated { version } => Err(TextRefusal::Repeated { version, id }),
        TakeAnswer::Full { what, have, limit } => Err(TextRefusal::Full { what, have, limit }),
        TakeAnswer::TermsFull => Err(TextRefusal::TermsFull),
        TakeAnswer::OutOfMemory => Err(TextRefusal::OutOfMemory),
        TakeAnswer::DiskFault => Err(TextRefusal::DiskFault),
    }
}

/// Takes the text of a patch as the zone's next one, which has this version.
pub(crate) fn take_text<Z: Follower>(
    alloc: Global,
    zone: &mut Z,
    text: &[u8],
    version: u32,
) -> Result<(), TextRefusal>
    requires { version ≡ length (Z.zone zone.old).brief.ids + 1 }
    ensures ok { OnOk result ((next : CheckedPatch) × IsText text.now next
        × Took Z.footing (Z.zone zone.old) (Z.zone zone.new) next) }
    ensures err { IfErr result (λ why.
        RefusesText (Z.zone zone.old).terms [] (Z.zone zone.new) text.now why) }
    ensures stayed { IfErr result (λ _.
        Stayed Z.footing (Z.zone zone.old) (Z.zone zone.new) text.now) }
    ensures untouched { IfErr result (λ why. why ≢ TextRefusal.DiskFault
        → Z.zone zone.new ≡ record (Z.zone zone.old) { terms = (Z.zone zone.new).terms }) }
    ensures went { ZoneWent Z.footing (IsErrOf result TextRefusal.DiskFault)
        (Z.zone zone.old).disk (Z.zone zone.new).disk }
    ensures limits { (Z.zone zone.new).limits ≡ (Z.zone zone.old).limits }
{
    let patch = match check_patch(alloc, text) {
        Ok(patch) => patch,
        Err(fault) => return Err(no_patch(version, fault)),
    };
    let id = patch.id();
    let mine = zone.version();
    let answer = zone.take_next(&patch);
    drop(patch);
    told(answer, id, mine)
}
