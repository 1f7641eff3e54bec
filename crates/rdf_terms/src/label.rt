ghost use Rattle.std.specs.Prelude.{◌≡◌, IfOk, MatchOption, MatchResult};
ghost use Rattle.rdf_terms.specs.Fit.{StopsFitting};
ghost use Rattle.rdf_terms.specs.Label.{IsLabel, LabelChars};
ghost use Rattle.rdf_terms.specs.Label.{may_follow as follows, may_end as ends};
ghost use Rattle.rdf_terms.specs.Terms.{IsLabelFault};

use crate::fault::TermFault;
use crate::names::{begins_name, is_name_char};
use delta_base::{OutOfMemory, Text};
use std::marker::Model;

/// The label of a blank node, seen as its bytes.
#[derive(Debug, PartialEq, Eq, PartialOrd, Ord, Hash, Drop)]
pub struct Label {
    text: Text,
}

impl Model for Label {
    ghost use Rattle.std.specs.Prelude.{ℕ, List};
    ghost use Rattle.rdf_terms.specs.Label.{IsLabel};

    ghost Value = { List ℕ };

    ghost view = { λ l. l.text };

    ghost invariant = { λ l. IsLabel l.text };

    ghost inverse = { λ v. record { text = v } };
}

impl Label {
    /// The label of a text: what stands behind `_:`.
    pub fn new(text: Text) -> Result<Label, TermFault>
        ensures { MatchResult result (λ l. IsLabel text × (l ≡ text)) (λ e. IsLabelFault text e) }
    {
        match first_misfit(text.as_str()) {
            Some(at) => Err(TermFault::BadLabel { at }),
            None => Ok(Label { text }),
        }
    }

    /// The label of a text that is known to be one.
    pub fn of_checked(text: Text) -> Label
        requires { IsLabel text }
        ensures { result ≡ text }
    {
        Label { text }
    }

    pub fn as_bytes(&self) -> &[u8]
        ensures value { result.now ≡ self.now }
        ensures is_label { IsLabel self.now }
    {
        self.text.as_bytes()
    }

    /// An equal value.
    pub fn copy(&self) -> Result<Label, OutOfMemory>
        ensures { IfOk result (λ l. l ≡ self.now) }
    {
        Ok(Label {
            text: self.text.copy()?,
        })
    }
}

fn may_follow(last: Option<char>, c: char) -> bool
    ensures { result ≡ follows last c }
{
    match last {
        None => begins_name(c),
        Some(_) => c == '.' || is_name_char(c),
    }
}

fn may_end(last: Option<char>) -> bool
    ensures { result ≡ ends last }
{
    last.is_some_and(|c| c != '.')
}

/// Where a text stops being a label, if it does.
fn first_misfit(text: &str) -> Option<usize>
    ensures { MatchOption result (IsLabel text.now) (λ at. StopsFitting LabelChars text.now at) }
{
    let mut last = None;
    for (at, c) in text.char_indices() {
        if !may_follow(last, c) {
            return Some(at);
        }
        last = Some(c);
    }
    if may_end(last) {
        None
    } else {
        Some(text.len())
    }
}
