//! Laws of chains and their faults.
ghost use Rattle.std.specs.Prelude.{◌≡◌, ◌≤◌, List, Bool, length};
ghost use mathlib.Core.List.{IsPrefix};
ghost use Rattle.log_base.specs.declared.chain_link.ChainLink.{ChainLink};
ghost use Rattle.chain_core.specs.declared.testing.ChainFault.{ChainFault};
ghost use Rattle.chain_core.specs.Links.{IsChain};
ghost use Rattle.chain_core.specs.Breaks.{Breaks};
ghost use Rattle.log_base.specs.declared.limits.LogLimits.{LogLimits};
ghost use Rattle.log_base.specs.declared.limits.TheConstants.{PATCH_LIMIT};
ghost use Rattle.chain_core.specs.declared.chain.Patch.{Patch};
ghost use Rattle.chain_core.specs.declared.fate.Fate.{Fate};
ghost use Rattle.chain_core.specs.Among.{AreAmong};
ghost use Rattle.chain_core.specs.Patches.{links_of};
ghost use Rattle.chain_core.specs.Log.{LogPoint, IsPoint, stopped, opened_again};
ghost use Rattle.chain_core.specs.Runs.{IsRun, run_text};
ghost use Rattle.chain_core.specs.Stay.{run_stay};

/// A chain has no fault.
pub fn chains_have_no_fault()
    ensures { (links : List ChainLink) (fault : ChainFault)
        → Breaks links fault → IsChain links → ⊥ }
{}

/// Patches have one fault at most.
pub fn patches_have_one_fault()
    ensures { (links : List ChainLink) (fault other : ChainFault)
        → Breaks links fault → Breaks links other → fault ≡ other }
{}

/// Whatever an append comes to, the chain and what the disk may hold stay logs.
pub fn stays_keep_logs()
    ensures { (limits : LogLimits) (point : LogPoint (List Patch)) (run : List Patch)
        (fate : Fate) → IsPoint limits point → IsRun run → length (run_text run) ≤ PATCH_LIMIT
        → IsPoint limits (run_stay limits point run fate).0 }
{}

/// So do they over stops and openings.
pub fn stops_keep_logs()
    ensures stop { (limits : LogLimits) (point : LogPoint (List Patch)) (opened : Bool)
        → IsPoint limits point → IsPoint limits (stopped point opened) }
    ensures opening { (limits : LogLimits) (point : LogPoint (List Patch))
        → IsPoint limits point → IsPoint limits (opened_again point) }
{}

/// A chain whose patches are all among those of another chain begins it, in whatever order they came:
/// each patch says which one stands before it.
pub fn chain_of_its_patches_begins_it()
    ensures { (some whole : List Patch) → IsChain (links_of some) → IsChain (links_of whole)
        → AreAmong some whole → IsPrefix some whole }
{}
