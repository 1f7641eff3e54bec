ghost use Rattle.std.specs.Prelude.{◌≡◌, true, IfOk, IsTrue, MatchResult, MatchOption, IsUtf8};
ghost use Rattle.rdf_terms.specs.Iri.{has_scheme as spells_scheme, is_forbidden as forbids};
ghost use Rattle.rdf_terms.specs.Iri.{is_scheme_byte as in_scheme, ends_scheme as spells_end};
ghost use Rattle.rdf_terms.specs.Iri.{IsIri, AllowedAll, FirstForbidden};
ghost use Rattle.rdf_terms.specs.Terms.{IsIriFault};

use crate::fault::TermFault;
use delta_base::{OutOfMemory, Text};
use std::marker::Model;

/// An IRI, seen as its bytes.
#[derive(Debug, PartialEq, Eq, PartialOrd, Ord, Hash, Drop)]
pub struct Iri {
    text: Text,
}

impl Model for Iri {
    ghost use Rattle.std.specs.Prelude.{ℕ, List};
    ghost use Rattle.rdf_terms.specs.Iri.{IsIri};

    ghost Value = { List ℕ };

    ghost view = { λ i. i.text };

    ghost invariant = { λ i. IsIri i.text };

    ghost inverse = { λ v. record { text = v } };
}

impl Iri {
    /// The IRI of a text.
    pub fn new(text: Text) -> Result<Iri, TermFault>
        ensures { MatchResult result (λ i. IsIri text × (i ≡ text)) (λ e. IsIriFault text e) }
    {
        if let Some(at) = first_forbidden(text.as_bytes()) {
            return Err(TermFault::BadIri { at });
        }
        if !has_scheme(text.as_bytes()) {
            return Err(TermFault::RelativeIri);
        }
        Ok(Iri { text })
    }

    /// The IRI of a text that is known to be one.
    pub fn of_checked(text: Text) -> Iri
        requires { IsIri text }
        ensures { result ≡ text }
    {
        Iri { text }
    }

    pub fn as_bytes(&self) -> &[u8]
        ensures value { result.now ≡ self.now }
        ensures is_iri { IsIri self.now }
        ensures utf8 { IsUtf8 self.now }
    {
        self.text.as_bytes()
    }

    /// An equal value.
    pub fn copy(&self) -> Result<Iri, OutOfMemory>
        ensures { IfOk result (λ i. i ≡ self.now) }
    {
        Ok(Iri {
            text: self.text.copy()?,
        })
    }
}

/// Whether `http:` stands in front, as in most IRIs.
#[inline(always)]
fn begins_http(bytes: &[u8]) -> bool
    ensures { IsTrue result → spells_scheme bytes.now ≡ true }
{
    if bytes.len() < 5 {
        return false;
    }
    (bytes[0] == b'h')
        & (bytes[1] == b't')
        & (bytes[2] == b't')
        & (bytes[3] == b'p')
        & (bytes[4] == b':')
}

/// Whether a scheme stands in front: a letter, then letters, digits, `+`, `-`, `.`, then `:`.
#[tactic(auto, unfolding(crate::specs::Iri::has_scheme))]
pub fn has_scheme(bytes: &[u8]) -> bool
    ensures { result ≡ spells_scheme bytes.now }
{
    if begins_http(bytes) {
        return true;
    }
    match bytes {
        [] => false,
        [first, rest @ ..] => first.is_ascii_alphabetic() && ends_scheme(rest),
    }
}

fn is_scheme_byte(b: u8) -> bool
    ensures { result ≡ in_scheme b }
{
    b.is_ascii_alphanumeric() || b == b'+' || b == b'-' || b == b'.'
}

#[tactic(auto, using(crate::proofs::Schemes::scheme_steps))]
fn ends_scheme(rest: &[u8]) -> bool
    ensures { result ≡ spells_end rest.now }
{
    for b in rest {
        if *b == b':' {
            return true;
        }
        if !is_scheme_byte(*b) {
            return false;
        }
    }
    false
}

/// Whether no IRI holds the character.
pub fn is_forbidden(c: char) -> bool
    ensures { result ≡ forbids c }
{
    c <= ' ' || matches!(c, '<' | '>' | '"' | '{' | '}' | '|' | '^' | '`' | '\\')
}

/// The place of the first character that no IRI holds. All of these are single bytes.
fn first_forbidden(bytes: &[u8]) -> Option<usize>
    ensures { MatchOption result (AllowedAll bytes.now) (λ at. FirstForbidden bytes.now at) }
{
    for (at, b) in bytes.iter().enumerate() {
        if is_forbidden(char::from(*b)) {
            return Some(at);
        }
    }
    None
}
