//! What zones have in common with logs. These functions do nothing: their contracts are theorems.
ghost use Rattle.std.specs.Prelude.{◌≡◌, ◌↔◌, ◌⊎◌, ℕ, List, Option, map};
ghost use Rattle.std.specs.List.{AllByRecursion};
ghost use Rattle.log_base.specs.declared.limits.LogLimits.{LogLimits};
ghost use Rattle.log_base.specs.OneMore.{with_one_more};
ghost use Rattle.disk_model.specs.Past.{Past, MayLeave};
ghost use Rattle.log_journal.specs.File.{Holds};
ghost use Rattle.chain_core.specs.declared.answer.Decision.TheVariants.{Accept};
ghost use Rattle.chain_core.specs.declared.chain.Patch.{Patch};
ghost use Rattle.chain_core.specs.declared.fate.Fate.{Fate};
ghost use Rattle.chain_core.specs.Decision.{decision};
ghost use Rattle.chain_core.specs.Log.{up};
ghost use Rattle.chain_core.specs.Patches.{texts_of};
ghost use Rattle.chain_core.specs.Stay.{stay};
ghost use Rattle.patch_meaning.specs.Checked.{CheckedPatch};
ghost use Rattle.zone_state.specs.declared.answer.TakeAnswer.TheVariants.{Applied};
ghost use Rattle.zone_state.specs.declared.fault.ZoneFault.{ZoneFault};
ghost use Rattle.patch_log.specs.Log.{bare, IsSound};
ghost use Rattle.zone_state.specs.Brief.{brief_of};
ghost use Rattle.zone_state.specs.Fault.{HasZoneFault};
ghost use Rattle.zone_state.specs.Log.{IsSoundZoneLog, StandsForZoneFile};
ghost use Rattle.zone_state.specs.Taking.{taking, taken_by};
ghost use Rattle.zone_state.specs.Zone.{ZoneView, AreTakenPatches, StandsForZone, zone_number};
ghost use Rattle.zone_state.specs.Zone.{doubt_of};

use disk_model::Disk;

/// A zone takes what a log of the same patches accepts, and comes to what that comes to.
pub fn zones_decide_as_logs()
    ensures decided { (limits : LogLimits) (taken : List CheckedPatch) (patch : Patch) (version : ℕ)
        → (taking (brief_of taken).ids (brief_of taken).bytes patch limits ≡ Applied version)
        ↔ (decision (map bare taken) patch limits ≡ Accept version) }
    ensures stays { (limits : LogLimits) (taken : List CheckedPatch) (doubt : Option Patch)
        (patch : Patch) (fate : Fate)
        → (taken_by (taking (brief_of taken).ids (brief_of taken).bytes patch limits)
        fate (map bare taken) doubt patch).0
        ≡ (stay limits (up (map bare taken) doubt) patch fate).0 }
{}

/// Patches that were taken are a log, and the disk of a zone stands for it.
pub fn zones_stand_as_logs<D: Disk>()
    ensures taken { (limits : LogLimits) (taken : List CheckedPatch) → AreTakenPatches limits taken
        → IsSoundZoneLog limits (map bare taken) }
    ensures stands { D.tells → (past : Past) (zone : ZoneView D)
        (taken : List CheckedPatch) (doubt : Option CheckedPatch)
        → StandsForZone D.tells past zone taken doubt
        → StandsForZoneFile past zone_number zone.limits (map bare taken) (doubt_of doubt) }
{}

/// Whatever a crash leaves of a zone's file, opening it finds the chain, with the patch in
/// doubt or without.
pub fn zones_are_found_again()
    ensures found { (past : Past) (number : ℕ) (limits : LogLimits) (chain found : List Patch)
        (doubt : Option Patch) (image : List ℕ)
        → StandsForZoneFile past number limits chain doubt → MayLeave past image
        → Holds image number (texts_of found) → AllByRecursion IsSound found
        → (found ≡ chain) ⊎ (found ≡ with_one_more chain doubt) }
    ensures no_fault { (past : Past) (limits : LogLimits) (chain : List Patch)
        (doubt : Option Patch) (image : List ℕ) (fault : ZoneFault)
        → StandsForZoneFile past zone_number limits chain doubt → MayLeave past image
        → HasZoneFault image limits fault
        → (fault ≡ ZoneFault.Failed)
        ⊎ ((fault ≡ ZoneFault.TermsFull) ⊎ (fault ≡ ZoneFault.OutOfMemory)) }
{}
