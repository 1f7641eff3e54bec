//! Laws of a log's file and of its disk. These functions do nothing: their contracts are theorems.
ghost use Rattle.std.specs.Prelude.{◌≡◌, ◌⊎◌, ℕ, ◌^◌, ◌<◌, List, Option};
ghost use Rattle.std.specs.List.{AllByRecursion};
ghost use Rattle.disk_model.specs.Past.{Past, MayLeave};
ghost use Rattle.log_journal.specs.File.{Holds};
ghost use Rattle.chain_core.specs.declared.chain.Patch.{Patch};
ghost use Rattle.log_base.specs.declared.limits.LogLimits.{LogLimits};
ghost use Rattle.log_base.specs.OneMore.{with_one_more};
ghost use Rattle.chain_core.specs.Runs.{run_texts};
ghost use Rattle.patch_log.specs.declared.fault.LogFault.{LogFault};
ghost use Rattle.patch_log.specs.Log.{IsSoundRun, IsSoundLog, StandsForLog};
ghost use Rattle.patch_log.specs.Fault.{HasLogFault};

/// A file that holds a log has no fault, but that its disk may fail and memory may run out.
pub fn logs_have_no_fault()
    ensures { (file : List ℕ) (number : ℕ) (limits : LogLimits) (runs : List (List Patch))
        (fault : LogFault) → number < 2 ^ 32
        → Holds file number (run_texts runs) → IsSoundLog limits runs
        → HasLogFault file number limits fault
        → (fault ≡ LogFault.Failed) ⊎ (fault ≡ LogFault.OutOfMemory) }
{}

/// Whatever a crash leaves of a log that runs, opening it finds its runs, with the one in
/// doubt or without.
pub fn logs_are_found_again()
    ensures found { (past : Past) (number : ℕ) (limits : LogLimits) (runs found : List (List Patch))
        (doubt : Option (List Patch)) (image : List ℕ)
        → StandsForLog past number limits runs doubt → MayLeave past image
        → Holds image number (run_texts found) → AllByRecursion IsSoundRun found
        → (found ≡ runs) ⊎ (found ≡ with_one_more runs doubt) }
    ensures no_fault { (past : Past) (number : ℕ) (limits : LogLimits) (runs : List (List Patch))
        (doubt : Option (List Patch)) (image : List ℕ) (fault : LogFault) → number < 2 ^ 32
        → StandsForLog past number limits runs doubt → MayLeave past image
        → HasLogFault image number limits fault
        → (fault ≡ LogFault.Failed) ⊎ (fault ≡ LogFault.OutOfMemory) }
{}
