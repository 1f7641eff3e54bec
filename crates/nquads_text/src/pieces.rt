//! The insides of an IRIREF and of a string.

ghost use Rattle.std.specs.Prelude.{◌≡◌, ◌≤◌, ◌<◌, ◌+◌, length, drop, IfOk};
ghost use Rattle.std.specs.String.{string_bytes};
ghost use Rattle.nquads_text.specs.Fault.{Gives};
ghost use Rattle.nquads_text.specs.Reading.{iri_piece as iri_piece_of};
ghost use Rattle.nquads_text.specs.Reading.{string_piece as string_piece_of};
ghost use Rattle.nquads_text.specs.Grammar.{echar as echar_of};

use crate::chars::{char_at, is_line_end, uchar_at};
use crate::fault::{ReadFault, TextKind};
use rdf_terms::is_forbidden;
use std::alloc::Global;

/// [^#x00-#x20<>"{}|^`\] | UCHAR: one character of an IRIREF, or none at its `>`.
#[tactic(auto, unfolding(crate::specs::Reading::iri_piece))]
pub fn iri_piece(text: &[u8], at: usize) -> Result<(Option<char>, usize), ReadFault>
    requires { at ≤ length text.now }
    ensures gives { Gives text.now (λ c. c) result (iri_piece_of (drop at text.now)) }
    ensures further { IfOk result (λ x. at < x.1) }
{
    let (c, next) = char_at(text, at)?;
    if c == '>' {
        return Ok((None, next));
    }
    if c == '\\' {
        let (named, behind) = uchar_at(text, at, next)?;
        if is_forbidden(named) {
            return Err(ReadFault::At {
                at,
                kind: TextKind::BadIri,
            });
        }
        return Ok((Some(named), behind));
    }
    if is_forbidden(c) {
        return Err(ReadFault::At {
            at,
            kind: TextKind::BadIri,
        });
    }
    Ok((Some(c), next))
}

/// ECHAR ::= '\' [tbnrf"'\]: what its letter stands for.
fn echar(letter: char) -> Option<char>
    ensures { result ≡ echar_of letter }
{
    match letter {
        't' => Some('\t'),
        'b' => Some('\u{8}'),
        'n' => Some('\n'),
        'r' => Some('\r'),
        'f' => Some('\u{c}'),
        '"' => Some('"'),
        '\'' => Some('\''),
        '\\' => Some('\\'),
        _ => None,
    }
}

/// [^#x22#x5C#xA#xD] | ECHAR | UCHAR: one character of a string, or none at its closing quote.
#[tactic(auto, unfolding(crate::specs::Reading::string_piece))]
pub fn string_piece(text: &[u8], at: usize) -> Result<(Option<char>, usize), ReadFault>
    requires { at ≤ length text.now }
    ensures gives { Gives text.now (λ c. c) result (string_piece_of (drop at text.now)) }
    ensures further { IfOk result (λ x. at < x.1) }
{
    let (c, next) = char_at(text, at)?;
    if c == '"' {
        return Ok((None, next));
    }
    if c == '\\' {
        let (letter, behind) = char_at(text, next)?;
        if let Some(named) = echar(letter) {
            return Ok((Some(named), behind));
        }
        let (named, behind) = uchar_at(text, at, next)?;
        return Ok((Some(named), behind));
    }
    if is_line_end(c) {
        return Err(ReadFault::At {
            at,
            kind: TextKind::BadToken,
        });
    }
    Ok((Some(c), next))
}
