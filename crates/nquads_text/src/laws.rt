//! What the reading, the grammar and the table of faults have in common. These functions do
//! nothing: their contracts are theorems.

ghost use Rattle.std.specs.Prelude.{◌≡◌, ◌⊎◌, ◌==◌, true, false, ◌++◌, ◌∷◌, List, ℕ, Ok, Err};
ghost use Rattle.rdf_terms.specs.declared.term.Term.{Term};
ghost use Rattle.rdf_terms.specs.Tag.{lower};
ghost use Rattle.nquads_text.specs.Fault.{TextFault};
ghost use Rattle.nquads_text.specs.Faults.{NoCharacter, IriFault, StringFault};
ghost use Rattle.nquads_text.specs.Faults.{LabelFault, TagFault, AnyTermFault};
ghost use Rattle.nquads_text.specs.Grammar.{CharAt, is_blank, Blanks, IsString};
ghost use Rattle.nquads_text.specs.Grammar.{IriRef, BlankNode, LangTag, TermAt};
ghost use Rattle.nquads_text.specs.Printing.{IsTermValue, EndsTerm};
ghost use Rattle.rdf_terms.specs.Line.{term_text};
ghost use Rattle.nquads_text.specs.Reading.{char_at, string_body_at};
ghost use Rattle.nquads_text.specs.Terms.{skip_blanks, iri_needed, label_at, tag_at, term_at};

/// A text begins with one term, or it has one first fault.
pub fn terms_are_settled()
    ensures some { (text : List ℕ)
        → ((t : Term) × (after : List ℕ) × TermAt text t after)
        ⊎ ((f : TextFault) × AnyTermFault text f) }
    ensures one { (text : List ℕ) (t u : Term) (after rest : List ℕ) → TermAt text t after
        → TermAt text u rest → (t ≡ u) × (after ≡ rest) }
    ensures one_fault { (text : List ℕ) (f g : TextFault) → AnyTermFault text f
        → AnyTermFault text g → f ≡ g }
    ensures apart { (text : List ℕ) (t : Term) (after : List ℕ) (f : TextFault)
        → TermAt text t after
        → AnyTermFault text f → ⊥ }
{}

/// A term is read exactly where the grammar has one; else its first fault is met.
pub fn terms_are_read()
    ensures found { (text : List ℕ) (t : Term) (after : List ℕ) → term_at text ≡ Ok (t, after)
        → TermAt text t after }
    ensures again { (text : List ℕ) (t : Term) (after : List ℕ) → TermAt text t after
        → term_at text ≡ Ok (t, after) }
    ensures fault { (text : List ℕ) (f : TextFault) → term_at text ≡ Err f → AnyTermFault text f }
    ensures only_fault { (text : List ℕ) (f : TextFault) → AnyTermFault text f
        → term_at text ≡ Err f }
{}

/// A character is read exactly where its UTF-8 stands.
pub fn characters_are_read()
    ensures found { (text : List ℕ) (c : ℕ) (after : List ℕ) → char_at text ≡ Ok (c, after)
        → CharAt text c after }
    ensures again { (text : List ℕ) (c : ℕ) (after : List ℕ) → CharAt text c after
        → char_at text ≡ Ok (c, after) }
    ensures fault { (text : List ℕ) (f : TextFault) → char_at text ≡ Err f → NoCharacter text f }
    ensures only_fault { (text : List ℕ) (f : TextFault) → NoCharacter text f
        → char_at text ≡ Err f }
{}

/// Blanks are skipped, and no more than they.
pub fn blanks_are_skipped()
    ensures found { (text : List ℕ) → Blanks text (skip_blanks text) }
    ensures again { (text after : List ℕ) → Blanks text after → skip_blanks text ≡ after }
{}

/// The same of an IRIREF, from its `<` on.
pub fn iris_are_read()
    ensures found { (text iri after : List ℕ) → iri_needed text ≡ Ok (iri, after)
        → IriRef text iri after }
    ensures again { (text iri after : List ℕ) → IriRef text iri after
        → iri_needed text ≡ Ok (iri, after) }
    ensures fault { (rest : List ℕ) (f : TextFault) → iri_needed (60 ∷ rest) ≡ Err f
        → IriFault (60 ∷ rest) f }
    ensures only_fault { (text : List ℕ) (f : TextFault) → IriFault text f
        → iri_needed text ≡ Err f }
{}

/// The same of a string, from behind its opening quote on.
pub fn strings_are_read()
    ensures found { (rest string after : List ℕ) → string_body_at rest ≡ Ok (string, after)
        → (bytes : List ℕ) × IsString bytes string × (34 ∷ rest ≡ bytes ++ after) }
    ensures again { (rest string after bytes : List ℕ) → IsString bytes string
        → 34 ∷ rest ≡ bytes ++ after → string_body_at rest ≡ Ok (string, after) }
    ensures fault { (rest : List ℕ) (f : TextFault) → string_body_at rest ≡ Err f
        → StringFault (34 ∷ rest) f }
    ensures only_fault { (rest : List ℕ) (f : TextFault) → StringFault (34 ∷ rest) f
        → string_body_at rest ≡ Err f }
{}

/// The same of a blank node, from behind its `_` on.
pub fn labels_are_read()
    ensures found { (rest label after : List ℕ) → label_at (95 ∷ rest) rest ≡ Ok (label, after)
        → BlankNode (95 ∷ rest) label after }
    ensures again { (rest label after : List ℕ) → BlankNode (95 ∷ rest) label after
        → label_at (95 ∷ rest) rest ≡ Ok (label, after) }
    ensures fault { (rest : List ℕ) (f : TextFault) → label_at (95 ∷ rest) rest ≡ Err f
        → LabelFault (95 ∷ rest) f }
    ensures only_fault { (rest : List ℕ) (f : TextFault) → LabelFault (95 ∷ rest) f
        → label_at (95 ∷ rest) rest ≡ Err f }
{}

/// The same of a language tag, from behind its `@` on.
pub fn tags_are_read()
    ensures found { (rest value after : List ℕ)
        → tag_at true false (64 ∷ rest) rest ≡ Ok (value, after)
        → (tag : List ℕ) × LangTag (64 ∷ rest) tag after × (value ≡ lower tag) }
    ensures again { (rest tag after : List ℕ) → LangTag (64 ∷ rest) tag after
        → tag_at true false (64 ∷ rest) rest ≡ Ok (lower tag, after) }
    ensures fault { (rest : List ℕ) (f : TextFault) → tag_at true false (64 ∷ rest) rest ≡ Err f
        → TagFault (64 ∷ rest) f }
    ensures only_fault { (rest : List ℕ) (f : TextFault) → TagFault (64 ∷ rest) f
        → tag_at true false (64 ∷ rest) rest ≡ Err f }
{}

/// What is printed is the term's text in the grammar, whatever follows that can't go on with it; a
/// space and a next token can't.
pub fn printed_is_read()
    ensures spaced { (t : Term) (b : ℕ) (rest : List ℕ) → is_blank b ≡ false
        → (b == 94) ≡ false → EndsTerm t (32 ∷ b ∷ rest) }
    ensures again { (t : Term) (rest : List ℕ) → IsTermValue t → EndsTerm t rest
        → TermAt (term_text t ++ rest) t rest }
{}
