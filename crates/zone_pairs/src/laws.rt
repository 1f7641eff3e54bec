//! Laws of a zone on two files. These functions do nothing: their contracts are theorems.
ghost use Rattle.std.specs.Prelude.{◌≡◌, List, ℕ, Option, None, Some, false};
ghost use Rattle.log_base.specs.declared.limits.LogLimits.{LogLimits};
ghost use Rattle.patch_meaning.specs.Checked.{CheckedPatch, AreChecked};
ghost use Rattle.patch_meaning.specs.Patch.{IsPatch};
ghost use Rattle.checkpoint_text.specs.Brief.{Brief};
ghost use Rattle.zone_files.specs.Generation.{number_of};
ghost use Rattle.zone_pairs.specs.Pair.{PairPoint, payloads_at, IsStart, start_brief, TakeTo, Fits};
ghost use Rattle.zone_pairs.specs.Pair.{MayBeTaken, MayBeBeside, MayHoldPayloads, MayHoldTaking};
ghost use Rattle.zone_pairs.specs.Pair.{IsNextBrief, ZoneHolds, ZoneHoldsByRole};

/// Any two images, the one of the current file with its payloads or with these and the patch in
/// doubt, the other of a file that leaves that current or holds the next checkpoint alone, are those
/// of a zone: of the brief, or of that with the patch in doubt.
pub fn images_are_of_a_zone()
    ensures { (point : PairPoint) (brief : Brief) → IsStart point.generation point.start
        → (point.start ≡ None → point.second ≡ false) → AreChecked point.patches
        → TakeTo (start_brief point.start) point.patches brief → (limits : LogLimits)
        → MayBeTaken limits brief point.doubt → (current other : List ℕ)
        → MayHoldPayloads (number_of point.second) (payloads_at point) point.doubt current
        → MayBeBeside point.second point.generation brief other
        → (next : Brief) × IsNextBrief brief point.doubt None next
        × ZoneHoldsByRole point.second current other next }
{}

/// The same while a patch is taken, and then also of the brief with the new patch.
pub fn images_while_taking()
    ensures { (point : PairPoint) (brief : Brief) → IsStart point.generation point.start
        → (point.start ≡ None → point.second ≡ false) → AreChecked point.patches
        → TakeTo (start_brief point.start) point.patches brief → (limits : LogLimits)
        → MayBeTaken limits brief point.doubt
        → (patch : CheckedPatch) → IsPatch patch.text patch.meaning → Fits brief patch
        → (current other : List ℕ)
        → MayHoldTaking (number_of point.second) (payloads_at point) point.doubt patch current
        → MayBeBeside point.second point.generation brief other
        → (next : Brief) × IsNextBrief brief point.doubt (Some patch) next
        × ZoneHoldsByRole point.second current other next }
{}

/// Two images are those of a zone of one brief.
pub fn two_images_are_of_one_brief()
    ensures { (first second : List ℕ) (a b : Brief) → ZoneHolds first second a
        → ZoneHolds first second b → a ≡ b }
{}
