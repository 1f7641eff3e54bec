//! What more text may change. These functions do nothing: their contracts are theorems.

ghost use Rattle.std.specs.Prelude.{◌≡◌, ◌⊎◌, true, false, ◌++◌, List, ℕ, Ok, Err};
ghost use Rattle.patch_rows.specs.declared.row.Row.{Row};
ghost use Rattle.patch_rows.specs.Fault.{Fault};
ghost use Rattle.patch_rows.specs.Faults.{FaultDecided, FirstFault};
ghost use Rattle.patch_rows.specs.Grammar.{RowDecided, ShortRowAt};
ghost use Rattle.patch_rows.specs.Rows.{live_row, row_at};
ghost use Rattle.patch_rows.specs.Cut.{ends_row};
ghost use Rattle.patch_reader.specs.Decided.{Undecided};
ghost use Rattle.patch_reader.specs.Limit.{limited_row_at};

/// What is read of a row whose text may go on is decided, unless the text's end was met; then
/// nothing is decided.
pub fn rows_are_decided()
    ensures row { (text : List ℕ) (r : Row) (after : List ℕ) → live_row text ≡ Ok (r, after)
        → RowDecided text r after }
    ensures only_row { (text : List ℕ) (r : Row) (after : List ℕ) → RowDecided text r after
        → live_row text ≡ Ok (r, after) }
    ensures fault { (text : List ℕ) (f : Fault) → live_row text ≡ Err f
        → ends_row f.0 f.1 ≡ false → FaultDecided text f }
    ensures only_fault { (text : List ℕ) (f : Fault) → FaultDecided text f
        → (live_row text ≡ Err f) × (ends_row f.0 f.1 ≡ false) }
    ensures none { (text : List ℕ) (f : Fault) → live_row text ≡ Err f
        → ends_row f.0 f.1 ≡ true → Undecided text }
{}

/// The same with every longer text, which is read as a whole.
pub fn rows_stay()
    ensures row { (text more : List ℕ) (r : Row) (after : List ℕ) → live_row text ≡ Ok (r, after)
        → row_at (text ++ more) ≡ Ok (r, after ++ more) }
    ensures fault { (text more : List ℕ) (f : Fault) → live_row text ≡ Err f
        → ends_row f.0 f.1 ≡ false → row_at (text ++ more) ≡ Err (f.0, f.1 ++ more) }
{}

/// A text begins with one row within the limit, or it has one first fault.
pub fn rows_are_settled()
    ensures some { (text : List ℕ) → ((r : Row) × (after : List ℕ) × ShortRowAt text r after)
        ⊎ ((f : Fault) × FirstFault text f) }
    ensures one { (text : List ℕ) (r s : Row) (after rest : List ℕ) → ShortRowAt text r after
        → ShortRowAt text s rest → (r ≡ s) × (after ≡ rest) }
    ensures one_fault { (text : List ℕ) (f g : Fault) → FirstFault text f
        → FirstFault text g → f ≡ g }
    ensures apart { (text : List ℕ) (r : Row) (after : List ℕ) (f : Fault) → ShortRowAt text r after
        → FirstFault text f → ⊥ }
{}

/// A row within the limit is read exactly where it stands; else its first fault is met.
pub fn rows_are_read_within_their_limit()
    ensures found { (text : List ℕ) (r : Row) (after : List ℕ) → limited_row_at text ≡ Ok (r, after)
        → ShortRowAt text r after }
    ensures again { (text : List ℕ) (r : Row) (after : List ℕ) → ShortRowAt text r after
        → limited_row_at text ≡ Ok (r, after) }
    ensures fault { (text : List ℕ) (f : Fault) → limited_row_at text ≡ Err f → FirstFault text f }
    ensures only_fault { (text : List ℕ) (f : Fault) → FirstFault text f
        → limited_row_at text ≡ Err f }
{}
