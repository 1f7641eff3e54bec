//! Laws of a zone's files. These functions do nothing: their contracts are theorems.
ghost use Rattle.std.specs.Prelude.{◌≡◌, ℕ, Bool, List, ◌∷◌, Option};
ghost use Rattle.log_journal.specs.File.{Holds};
ghost use Rattle.zone_files.specs.Generation.{number_of, IsInGeneration, BeginsBroken};
ghost use Rattle.zone_files.specs.Generation.{PayloadsShow};

/// A file is in one generation, and its payloads show in which. One that begins broken is in none.
pub fn files_are_in_one_generation()
    ensures one { (file : List ℕ) (second : Bool) (g h : Option ℕ) → IsInGeneration file second g
        → IsInGeneration file second h → g ≡ h }
    ensures shown { (file : List ℕ) (second : Bool) (payloads : List (List ℕ)) (g : Option ℕ)
        → Holds file (number_of second) payloads → PayloadsShow second payloads g
        → IsInGeneration file second g }
    ensures broken { (file : List ℕ) (second : Bool) (g : Option ℕ) → BeginsBroken file second
        → IsInGeneration file second g → ⊥ }
{}
