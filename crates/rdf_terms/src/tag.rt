ghost use Rattle.std.specs.Prelude.{◌≡◌, IfOk, MatchOption, MatchResult};
ghost use Rattle.rdf_terms.specs.Fit.{StopsFitting};
ghost use Rattle.rdf_terms.specs.Tag.{IsTag, TagForm, lower, is_tag_char as in_tag};
ghost use Rattle.rdf_terms.specs.Terms.{IsTagFault};

use crate::fault::TermFault;
use delta_base::{OutOfMemory, Text};
use std::alloc::Global;
use std::marker::Model;

/// A language tag in lower case, seen as its bytes.
#[derive(Debug, PartialEq, Eq, PartialOrd, Ord, Hash, Drop)]
pub struct Tag {
    text: Text,
}

impl Model for Tag {
    ghost use Rattle.std.specs.Prelude.{ℕ, List};
    ghost use Rattle.rdf_terms.specs.Tag.{IsTag};

    ghost Value = { List ℕ };

    ghost view = { λ t. t.text };

    ghost invariant = { λ t. IsTag t.text };

    ghost inverse = { λ v. record { text = v } };
}

impl Tag {
    /// The tag of a text in any case: what stands behind `@`.
    pub(crate) fn new(alloc: Global, text: &Text) -> Result<Tag, TermFault>
        ensures { MatchResult result (λ t. TagForm text.now × (t ≡ lower text.now))
            (λ e. IsTagFault text.now e) }
    {
        if let Some(at) = first_misfit(text.as_str()) {
            return Err(TermFault::BadLang { at });
        }
        Ok(Tag {
            text: Text::from_string(text.as_str().to_ascii_lowercase(alloc)?),
        })
    }

    /// The tag of a text that is known to be one.
    pub fn of_checked(text: Text) -> Tag
        requires { IsTag text }
        ensures { result ≡ text }
    {
        Tag { text }
    }

    pub fn as_bytes(&self) -> &[u8]
        ensures value { result.now ≡ self.now }
        ensures is_tag { IsTag self.now }
    {
        self.text.as_bytes()
    }

    /// An equal value.
    pub fn copy(&self) -> Result<Tag, OutOfMemory>
        ensures { IfOk result (λ t. t ≡ self.now) }
    {
        Ok(Tag {
            text: self.text.copy()?,
        })
    }
}

fn is_tag_char(first: bool, c: char) -> bool
    ensures { result ≡ in_tag first c }
{
    if first {
        c.is_ascii_alphabetic()
    } else {
        c.is_ascii_alphanumeric()
    }
}

/// Where a text stops being a language tag, if it does.
fn first_misfit(text: &str) -> Option<usize>
    ensures { MatchOption result (TagForm text.now) (λ at. StopsFitting TagForm text.now at) }
{
    let mut first = true;
    let mut some = false;
    for (at, c) in text.char_indices() {
        if is_tag_char(first, c) {
            some = true;
        } else if some && c == '-' {
            first = false;
            some = false;
        } else {
            return Some(at);
        }
    }
    if some { None } else { Some(text.len()) }
}
