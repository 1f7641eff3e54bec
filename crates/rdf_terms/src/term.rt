ghost use Rattle.std.specs.Prelude.{◌≡◌, IfOk, MatchResult, Err};
ghost use Rattle.rdf_terms.specs.declared.term.LiteralKind.TheVariants.{Plain};
ghost use Rattle.rdf_terms.specs.Quad.{is_iri, is_literal};
ghost use Rattle.rdf_terms.specs.Terms.{kind_of, IsTagged, IsTagFault, IsTyped};

use crate::datatype::{Datatype, is_lang_string, is_xsd_string};
use crate::fault::TermFault;
use crate::iri::Iri;
use crate::label::Label;
use crate::tag::Tag;
use delta_base::{OutOfMemory, Text};
use std::alloc::Global;

/// What stands behind a literal's text. `Plain` is xsd:string.
#[derive(Debug, PartialEq, Eq, PartialOrd, Ord, Hash, Drop)]
pub enum LiteralKind {
    Plain,
    Typed(Datatype),
    Tagged(Tag),
}

#[derive(Debug, PartialEq, Eq, PartialOrd, Ord, Hash, Drop)]
pub struct Literal {
    pub lexical: Text,
    pub kind: LiteralKind,
}

#[derive(Debug, PartialEq, Eq, PartialOrd, Ord, Hash, Drop)]
pub enum Term {
    Iri(Iri),
    Blank(Label),
    Literal(Literal),
}

impl LiteralKind {
    /// The kind of a literal with this datatype; none has rdf:langString, which needs a tag.
    pub fn of_datatype(datatype: Iri) -> Result<LiteralKind, TermFault>
        ensures { result ≡ kind_of datatype }
    {
        if is_lang_string(datatype.as_bytes()) {
            return Err(TermFault::LangStringWithoutTag);
        }
        if is_xsd_string(datatype.as_bytes()) {
            return Ok(LiteralKind::Plain);
        }
        Ok(LiteralKind::Typed(Datatype::of_checked(datatype)))
    }

    /// An equal value.
    pub fn copy(&self) -> Result<LiteralKind, OutOfMemory>
        ensures { IfOk result (λ k. k ≡ self.now) }
    {
        Ok(match self {
            LiteralKind::Plain => LiteralKind::Plain,
            LiteralKind::Typed(datatype) => LiteralKind::Typed(datatype.copy()?),
            LiteralKind::Tagged(tag) => LiteralKind::Tagged(tag.copy()?),
        })
    }
}

impl Literal {
    pub fn plain(lexical: Text) -> Literal
        ensures { result ≡ record { lexical = lexical; kind = Plain } }
    {
        Literal {
            lexical,
            kind: LiteralKind::Plain,
        }
    }

    /// A literal with a datatype.
    pub fn typed(lexical: Text, datatype: Iri) -> Result<Literal, TermFault>
        ensures { MatchResult result (IsTyped lexical datatype)
            (λ fault. kind_of datatype ≡ Err fault) }
    {
        Ok(Literal {
            lexical,
            kind: LiteralKind::of_datatype(datatype)?,
        })
    }

    /// A literal with a language tag: what stands behind `@`.
    pub fn tagged(alloc: Global, lexical: Text, tag: &Text) -> Result<Literal, TermFault>
        ensures { MatchResult result (λ l. IsTagged lexical tag.now l) (λ e. IsTagFault tag.now e) }
    {
        Ok(Literal {
            lexical,
            kind: LiteralKind::Tagged(Tag::new(alloc, tag)?),
        })
    }

    /// An equal value.
    pub fn copy(&self) -> Result<Literal, OutOfMemory>
        ensures { IfOk result (λ l. l ≡ self.now) }
    {
        Ok(Literal {
            lexical: self.lexical.copy()?,
            kind: self.kind.copy()?,
        })
    }
}

impl Term {
    pub fn is_iri(&self) -> bool
        ensures { result ≡ is_iri self.now }
    {
        matches!(self, Term::Iri(_))
    }

    pub fn is_literal(&self) -> bool
        ensures { result ≡ is_literal self.now }
    {
        matches!(self, Term::Literal(_))
    }

    /// An equal value.
    pub fn copy(&self) -> Result<Term, OutOfMemory>
        ensures { IfOk result (λ t. t ≡ self.now) }
    {
        Ok(match self {
            Term::Iri(iri) => Term::Iri(iri.copy()?),
            Term::Blank(label) => Term::Blank(label.copy()?),
            Term::Literal(literal) => Term::Literal(literal.copy()?),
        })
    }
}
