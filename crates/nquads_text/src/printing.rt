//! The canonical text of a term.

ghost use Rattle.std.specs.Prelude.{◌≡◌, ◌≤◌, ◌<◌, ◌++◌, ◌∷◌, [], ℕ, List};
ghost use Rattle.std.specs.Prelude.{length, drop, true, OnOk, IfOk, slice_index};
ghost use Rattle.std.specs.List.{flat_map};
ghost use Rattle.nquads_text.specs.Grammar.{TermAt};
ghost use Rattle.nquads_text.specs.Printing.{IsKind, IsGraphValue, IsTermValue, EndsTerm};
ghost use Rattle.rdf_terms.specs.Line.{escaped, quoted, iri_text, kind_text, term_text, graph_text};

use crate::plain_runs::plain_string_end;
use delta_base::{OutOfMemory, Text};
use rdf_terms::{LiteralKind, Term};
use std::alloc::Global;

fn push_escaped(out: &mut Vec<u8>, b: u8) -> Result<(), OutOfMemory>
    ensures { OnOk result (out.new.items ≡ out.old.items ++ escaped b) }
{
    match b {
        b'"' => out.extend_from_slice(b"\\\"")?,
        b'\\' => out.extend_from_slice(b"\\\\")?,
        b'\n' => out.extend_from_slice(b"\\n")?,
        b'\r' => out.extend_from_slice(b"\\r")?,
        _ => out.push(b)?,
    }
    Ok(())
}

/// Whether the byte is written as itself.
#[inline(always)]
fn is_unescaped(b: u8) -> bool
    ensures { result ≡ true → escaped b ≡ b ∷ [] }
{
    b != b'"' && b != b'\\' && b != b'\n' && b != b'\r'
}

/// The end of some bytes from `at` on that are written as themselves.
fn unescaped_end(text: &[u8], at: usize) -> usize
    requires { at ≤ length text.now }
    ensures low { at ≤ result }
    ensures high { result ≤ length text.now }
    ensures same { (k : ℕ) → at ≤ k → k < result
        → escaped (slice_index text.now k) ≡ slice_index text.now k ∷ [] }
{
    let run = plain_string_end(text, at);
    for i in run..text.len() {
        if !is_unescaped(text[i]) {
            return i;
        }
    }
    text.len()
}

/// Appends bytes that are written as themselves, and one that isn't; gives the place behind.
fn push_run(out: &mut Vec<u8>, text: &[u8], at: usize) -> Result<usize, OutOfMemory>
    requires { at < length text.now }
    ensures low { IfOk result (λ next. at < next) }
    ensures high { IfOk result (λ next. next ≤ length text.now) }
    ensures leads { IfOk result (λ next. out.new.items ++ flat_map escaped (drop next text.now)
        ≡ out.old.items ++ flat_map escaped (drop at text.now)) }
{
    let run = unescaped_end(text, at);
    out.extend_from_slice(&text[at..run])?;
    if run == text.len() {
        return Ok(run);
    }
    push_escaped(out, text[run])?;
    Ok(run + 1)
}

/// Appends what stands between the quotes of a string.
pub fn push_escapes(out: &mut Vec<u8>, text: &[u8]) -> Result<(), OutOfMemory>
    ensures { OnOk result (out.new.items ≡ out.old.items ++ flat_map escaped text.now) }
{
    let mut at = 0;
    while at < text.len() {
        at = push_run(out, text, at)?;
    }
    Ok(())
}

/// Appends a string in its quotes.
pub fn push_quoted(out: &mut Vec<u8>, text: &[u8]) -> Result<(), OutOfMemory>
    ensures { OnOk result (out.new.items ≡ out.old.items ++ quoted text.now) }
{
    out.push(b'"')?;
    push_escapes(out, text)?;
    out.push(b'"')?;
    Ok(())
}

/// Appends an IRI in its brackets.
pub fn push_iri(out: &mut Vec<u8>, iri: &[u8]) -> Result<(), OutOfMemory>
    ensures { OnOk result (out.new.items ≡ out.old.items ++ iri_text iri.now) }
{
    out.push(b'<')?;
    out.extend_from_slice(iri)?;
    out.push(b'>')?;
    Ok(())
}

/// Appends what follows the closing quote of a literal.
pub fn push_kind(out: &mut Vec<u8>, kind: &LiteralKind) -> Result<(), OutOfMemory>
    ensures text { OnOk result (out.new.items ≡ out.old.items ++ kind_text kind.now) }
    ensures value { OnOk result (IsKind kind.now) }
{
    match kind {
        LiteralKind::Plain => {}
        LiteralKind::Typed(datatype) => {
            out.extend_from_slice(b"^^")?;
            push_iri(out, datatype.as_bytes())?;
        }
        LiteralKind::Tagged(tag) => {
            out.push(b'@')?;
            out.extend_from_slice(tag.as_bytes())?;
        }
    }
    Ok(())
}

/// Appends the canonical text of a term.
pub fn push_term(out: &mut Vec<u8>, term: &Term) -> Result<(), OutOfMemory>
    ensures text { OnOk result (out.new.items ≡ out.old.items ++ term_text term.now) }
    ensures value { OnOk result (IsTermValue term.now) }
{
    match term {
        Term::Iri(iri) => push_iri(out, iri.as_bytes())?,
        Term::Blank(label) => {
            out.extend_from_slice(b"_:")?;
            out.extend_from_slice(label.as_bytes())?;
        }
        Term::Literal(literal) => {
            push_quoted(out, literal.lexical.as_bytes())?;
            push_kind(out, &literal.kind)?;
        }
    }
    Ok(())
}

/// Appends a graph behind a space, where there is one.
pub fn push_graph(out: &mut Vec<u8>, graph: &Option<Term>) -> Result<(), OutOfMemory>
    ensures text { OnOk result (out.new.items ≡ out.old.items ++ graph_text graph.now) }
    ensures value { OnOk result (IsGraphValue graph.now) }
{
    if let Some(term) = graph {
        out.push(b' ')?;
        push_term(out, term)?;
    }
    Ok(())
}

/// The canonical text of a term.
pub fn print_term(alloc: Global, term: &Term) -> Result<Text, OutOfMemory>
    ensures text { IfOk result (λ text. text ≡ term_text term.now) }
    ensures read_again { IfOk result (λ text. (rest : List ℕ) → EndsTerm term.now rest
        → TermAt (text ++ rest) term.now rest) }
{
    let mut out = Vec::new(alloc);
    push_term(&mut out, term)?;
    // Its parts are in UTF-8, and what stands between them is ASCII.
    Ok(Text::from_string(unsafe { String::from_utf8_unchecked(out) }))
}
