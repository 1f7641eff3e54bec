//! Laws of every world. These functions do nothing: their contracts are theorems.
ghost use Rattle.std.specs.Prelude.{◌≡◌, ℕ, ◌++◌, List, Some, slice_get};
ghost use Rattle.std.specs.List.{AllByRecursion};
ghost use Rattle.log_base.specs.declared.limits.LogLimits.{LogLimits};
ghost use Rattle.chain_core.specs.declared.chain.Patch.{Patch};
ghost use Rattle.chain_core.specs.Links.{IsChain};
ghost use Rattle.chain_core.specs.Patches.{links_of, patch_at};
ghost use Rattle.chain_core.specs.Runs.{patches_in};
ghost use Rattle.world_core.specs.declared.event.WorldEvent.{WorldEvent};
ghost use Rattle.world_core.specs.declared.mirror.MirrorEvent.{MirrorEvent};
ghost use Rattle.world_core.specs.Mirrors.{mirrored};
ghost use Rattle.world_core.specs.World.{world, MayBeFound, BringsRun, WasAccepted, StandsAt};
ghost use Rattle.world_core.specs.World.{ZonePoint, WasServed, BeginsLog};

/// Whatever happens, the log is a chain, and so is all that a crash may leave of it: what is
/// appended is a run.
pub fn chains_stay_chains()
    ensures { (limits : LogLimits) (events : List WorldEvent) (found : List (List Patch))
        → AllByRecursion BringsRun events → MayBeFound (world limits events).log found
        → IsChain (links_of (patches_in found)) }
{}

/// The patches of a run whose append was told to be accepted stand at the versions told, whatever
/// happens then and whatever a crash leaves.
pub fn accepted_patches_stay()
    ensures { (limits : LogLimits) (events more : List WorldEvent) (run : List Patch)
        (first version : ℕ) (found : List (List Patch))
        → WasAccepted limits events run first version
        → MayBeFound (world limits (events ++ more)).log found
        → StandsAt (patches_in found) run first version }
{}

/// So does a patch that was served.
pub fn served_patches_stay()
    ensures { (limits : LogLimits) (events more : List WorldEvent) (patch : Patch) (version : ℕ)
        (found : List (List Patch)) → WasServed limits events patch version
        → MayBeFound (world limits (events ++ more)).log found
        → patch_at (patches_in found) version ≡ Some patch }
{}

/// What a zone took begins the log, whatever happened and whatever a crash leaves of either.
pub fn zones_follow()
    ensures { (limits : LogLimits) (events : List WorldEvent) (place : ℕ) (zone : ZonePoint)
        (taken : List Patch) → slice_get (world limits events).zones place ≡ Some zone
        → MayBeFound zone taken → BeginsLog (world limits events).log taken }
{}

/// What a mirror has begins the log, whatever happened and whatever a crash leaves of either.
pub fn mirrors_follow()
    ensures { (limits : LogLimits) (events : List MirrorEvent) (found : List (List Patch))
        → MayBeFound (mirrored limits events).log found
        → BeginsLog (mirrored limits events).origin.log (patches_in found) }
{}
