//! What the reading, the grammar and the table of faults have in common. These functions do
//! nothing: their contracts are theorems.

ghost use Rattle.std.specs.Prelude.{◌≡◌, List, ℕ, Ok, Err};
ghost use Rattle.rdf_terms.specs.declared.term.Term.{Term};
ghost use Rattle.patch_rows.specs.declared.row.Row.{Row};
ghost use Rattle.patch_rows.specs.Fault.{Fault};
ghost use Rattle.patch_rows.specs.Faults.{RowTermFault, AnyRowFault};
ghost use Rattle.patch_rows.specs.Grammar.{Space, RowTerm, RowAt};
ghost use Rattle.patch_rows.specs.Printing.{IsWritable};
ghost use Rattle.patch_rows.specs.Reading.{skip_space, row_term_at};
ghost use Rattle.patch_rows.specs.Rows.{row_at};

/// A row of any length is read exactly where the grammar has one; else its first fault is met.
pub fn rows_are_read()
    ensures found { (text : List ℕ) (r : Row) (after : List ℕ) → row_at text ≡ Ok (r, after)
        → RowAt text r after }
    ensures again { (text : List ℕ) (r : Row) (after : List ℕ) → RowAt text r after
        → row_at text ≡ Ok (r, after) }
    ensures fault { (text : List ℕ) (f : Fault) → row_at text ≡ Err f → AnyRowFault text f }
    ensures only_fault { (text : List ℕ) (f : Fault) → AnyRowFault text f → row_at text ≡ Err f }
{}

/// The same of a term of a row.
pub fn row_terms_are_read()
    ensures found { (text : List ℕ) (t : Term) (after : List ℕ) → row_term_at text ≡ Ok (t, after)
        → RowTerm text t after }
    ensures again { (text : List ℕ) (t : Term) (after : List ℕ) → RowTerm text t after
        → row_term_at text ≡ Ok (t, after) }
    ensures fault { (text : List ℕ) (f : Fault) → row_term_at text ≡ Err f → RowTermFault text f }
    ensures only_fault { (text : List ℕ) (f : Fault) → RowTermFault text f
        → row_term_at text ≡ Err f }
{}

/// White space and comments are skipped, and no more than they.
pub fn space_is_skipped()
    ensures found { (text : List ℕ) → Space text (skip_space text) }
    ensures again { (text after : List ℕ) → Space text after → skip_space text ≡ after }
{}

/// A row that stands in a text can be printed and read again.
pub fn rows_are_writable()
    ensures { (text : List ℕ) (r : Row) (after : List ℕ) → RowAt text r after → IsWritable r }
{}
