//! The answers with a text.
ghost use Rattle.std.specs.Prelude.{ℕ, List, IfOk, IfSome, IfNone};
ghost use Rattle.serde_json.specs.View.{view};
ghost use Rattle.rpc_answers.specs.Parts.{IsRowOf, IsOfTexts};

use crate::answer::Answer;
use crate::fields::{is_word, long_in, text_in};
use crate::members::{three_members, two_members};
use crate::print::status_beside;
use delta_base::{OutOfMemory, Text};
use serde_json::Value;
use std::alloc::Global;

fn bad_call_in(status: u16, value: &Value) -> Option<&str>
    ensures found { IfSome result (λ name.
        IsRowOf status (view value.now) (Answer.BadCall name.now)) }
    ensures none { IfNone result ((name : List ℕ)
        → IsRowOf status (view value.now) (Answer.BadCall name) → ⊥) }
{
    let (error, name) = two_members(value, "error", "member")?;
    if status != 400 || !is_word(error, "bad_call") {
        return None;
    }
    text_in(name)
}

fn bad_patch_in(status: u16, value: &Value) -> Option<(u64, &str)>
    ensures found { IfSome result (λ row.
        IsRowOf status (view value.now) (Answer.BadPatch row.0 row.1.now)) }
    ensures none { IfNone result ((at : ℕ) (kind : List ℕ)
        → IsRowOf status (view value.now) (Answer.BadPatch at kind) → ⊥) }
{
    let (at, error, kind) = three_members(value, "at", "error", "kind")?;
    if status != 400 || !is_word(error, "bad_patch") {
        return None;
    }
    let at = long_in(at)?;
    let kind = text_in(kind)?;
    Some((at, kind))
}

fn id_taken_in(status: u16, value: &Value) -> Option<&str>
    ensures found { IfSome result (λ name.
        IsRowOf status (view value.now) (Answer.IdTaken name.now)) }
    ensures none { IfNone result ((name : List ℕ)
        → IsRowOf status (view value.now) (Answer.IdTaken name) → ⊥) }
{
    let (error, name) = two_members(value, "error", "name")?;
    if status != 409 || !is_word(error, "id_taken") {
        return None;
    }
    text_in(name)
}

fn bad_request_in(status: u16, value: &Value) -> Option<&str>
    ensures found { IfSome result (λ kind.
        IsRowOf status (view value.now) (Answer.BadRequest kind.now)) }
    ensures none { IfNone result ((kind : List ℕ)
        → IsRowOf status (view value.now) (Answer.BadRequest kind) → ⊥) }
{
    let (error, kind) = two_members(value, "error", "kind")?;
    if is_word(error, "bad_request")
        && let Some(kind) = text_in(kind)
        && let Some(beside) = status_beside(kind)
        && beside == status
    {
        Some(kind)
    } else {
        None
    }
}

/// The answer of a status and a value, where it is one with a text.
pub fn texts_in(alloc: Global, status: u16, value: &Value) -> Result<Option<Answer>, OutOfMemory>
    ensures found { IfOk result (λ o. IfSome o (λ a. IsRowOf status (view value.now) a)) }
    ensures none { IfOk result (λ o. IfNone o ((a : Answer) → IsOfTexts a
        → IsRowOf status (view value.now) a → ⊥)) }
{
    if let Some(name) = bad_call_in(status, value) {
        let member = Text::from_str(alloc, name)?;
        return Ok(Some(Answer::BadCall { member }));
    }
    if let Some((at, kind)) = bad_patch_in(status, value) {
        let kind = Text::from_str(alloc, kind)?;
        return Ok(Some(Answer::BadPatch { at, kind }));
    }
    if let Some(name) = id_taken_in(status, value) {
        let name = Text::from_str(alloc, name)?;
        return Ok(Some(Answer::IdTaken { name }));
    }
    if let Some(kind) = bad_request_in(status, value) {
        let kind = Text::from_str(alloc, kind)?;
        return Ok(Some(Answer::BadRequest { kind }));
    }
    Ok(None)
}
