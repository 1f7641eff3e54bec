ghost use Rattle.std.specs.Prelude.{◌≡◌, IfOk, false, IsUtf8};
ghost use Rattle.std.specs.Str.{bytes_eq};
ghost use Rattle.rdf_terms.specs.Datatype.{IsDatatype, xsd_string, lang_string};

use crate::iri::Iri;
use delta_base::OutOfMemory;
use std::marker::Model;

/// The datatype of a typed literal, seen as its bytes: an IRI that is neither
/// xsd:string nor rdf:langString.
#[derive(Debug, PartialEq, Eq, PartialOrd, Ord, Hash, Drop)]
pub struct Datatype {
    iri: Iri,
}

impl Model for Datatype {
    ghost use Rattle.std.specs.Prelude.{ℕ, List};
    ghost use Rattle.rdf_terms.specs.Datatype.{IsDatatype};

    ghost Value = { List ℕ };

    ghost view = { λ d. d.iri };

    ghost invariant = { λ d. IsDatatype d.iri };

    ghost inverse = { λ v. record { iri = v } };
}

impl Datatype {
    /// The datatype of an IRI that is known to be neither.
    pub fn of_checked(iri: Iri) -> Datatype
        requires plain { bytes_eq iri xsd_string ≡ false }
        requires lang { bytes_eq iri lang_string ≡ false }
        ensures { result ≡ iri }
    {
        let _bytes = iri.as_bytes();
        Datatype { iri }
    }

    pub fn as_bytes(&self) -> &[u8]
        ensures value { result.now ≡ self.now }
        ensures is_datatype { IsDatatype self.now }
        ensures utf8 { IsUtf8 self.now }
    {
        self.iri.as_bytes()
    }

    /// An equal value.
    pub fn copy(&self) -> Result<Datatype, OutOfMemory>
        ensures { IfOk result (λ d. d ≡ self.now) }
    {
        Ok(Datatype {
            iri: self.iri.copy()?,
        })
    }
}

/// Whether the IRI is xsd:string.
pub(crate) fn is_xsd_string(bytes: &[u8]) -> bool
    ensures { result ≡ bytes_eq bytes.now xsd_string }
{
    bytes == b"http://www.w3.org/2001/XMLSchema#string".as_slice()
}

/// Whether the IRI is rdf:langString.
pub(crate) fn is_lang_string(bytes: &[u8]) -> bool
    ensures { result ≡ bytes_eq bytes.now lang_string }
{
    bytes == b"http://www.w3.org/1999/02/22-rdf-syntax-ns#langString".as_slice()
}
