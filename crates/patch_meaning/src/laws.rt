//! Laws of the definitions. These functions do nothing: their contracts are theorems.

ghost use Rattle.std.specs.Prelude.{◌≡◌, ◌⊎◌, List, [], ◌∷◌, ℕ};
ghost use Rattle.std.specs.List.{flat_map};
ghost use Rattle.patch_meaning.specs.declared.fault.PatchFault.{PatchFault};
ghost use Rattle.patch_meaning.specs.Patch.{Meaning, IsPatch, IsPatchFault};
ghost use Rattle.patch_meaning.specs.Checked.{AreChecked, CheckedPatch};
ghost use Rattle.patch_meaning.specs.Stream.{IsSplit, IsStream, IsStreamFault};

/// A text is a patch that says one thing, or it has one first fault, and never both.
pub fn patches_are_settled()
    ensures one { (text : List ℕ) (m n : Meaning) → IsPatch text m → IsPatch text n → m ≡ n }
    ensures one_fault { (text : List ℕ) (f g : PatchFault) → IsPatchFault text f
        → IsPatchFault text g → f ≡ g }
    ensures apart { (text : List ℕ) (m : Meaning) (f : PatchFault) → IsPatch text m
        → IsPatchFault text f → ⊥ }
    ensures some { (text : List ℕ)
        → ((m : Meaning) × IsPatch text m) ⊎ ((f : PatchFault) × IsPatchFault text f) }
{}

/// A text is a stream of one list of patches, or it has one first fault, and never both.
pub fn streams_are_settled()
    ensures one { (text : List ℕ) (ms ns : List Meaning) → IsStream text ms
        → IsStream text ns → ms ≡ ns }
    ensures one_fault { (text : List ℕ) (f g : PatchFault) → IsStreamFault text f
        → IsStreamFault text g → f ≡ g }
    ensures apart { (text : List ℕ) (ms : List Meaning) (f : PatchFault) → IsStream text ms
        → IsStreamFault text f → ⊥ }
    ensures some { (text : List ℕ)
        → ((ms : List Meaning) × IsStream text ms) ⊎ ((f : PatchFault) × IsStreamFault text f) }
{}

/// The texts of a stream's patches, one behind another, are its text, and each of them is that
/// patch by itself.
pub fn streams_are_their_patches()
    ensures joined { (text : List ℕ) (ps : List CheckedPatch) → IsSplit text ps
        → (ps ≡ [] → ⊥) → flat_map (λ p. p.text) ps ≡ text }
    ensures each { (text : List ℕ) (ps : List CheckedPatch) → IsSplit text ps → AreChecked ps }
{}

/// A patch is the stream of that patch alone, and a text is the stream of one list of patches.
pub fn patches_are_streams()
    ensures alone { (p : CheckedPatch) → IsPatch p.text p.meaning → IsSplit p.text (p ∷ []) }
    ensures one { (text : List ℕ) (ps qs : List CheckedPatch) → IsSplit text ps → IsSplit text qs
        → ps ≡ qs }
{}
