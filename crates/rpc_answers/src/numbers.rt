//! The answers of numbers and ids.
ghost use Rattle.std.specs.Prelude.{◌≡◌, ◌<◌, ◌^◌, ℕ, Bool, Option, [], ◌∷◌, IfSome, IfNone, codes};
ghost use Rattle.serde_json.specs.View.{view};
ghost use Rattle.rpc_answers.specs.Parts.{IsRowOf, IsOfNumbers, IsPlaced};
ghost use Rattle.rpc_answers.specs.Values.{object_of, word, whole_number};

use crate::answer::Answer;
use crate::fields::{
    flag_in, id_in, id_or_null_in, is_word, limit_in, long_in, short_in, short_or_null_in,
};
use crate::members::{four_members, one_member, three_members, two_members};
use delta_base::Id;
use log_base::FullKind;
use serde_json::Value;

// The place of a refusal with this name.
fn place_in(value: &Value, name: &str) -> Option<u64>
    ensures found { IfSome result (λ at.
        (view value.now ≡ object_of
        ((codes "at", whole_number at) ∷ (codes "error", word name.now) ∷ []))
        × (at < 2 ^ 64)) }
    ensures none { IfNone result ((at : ℕ) → at < 2 ^ 64
        → view value.now ≡ object_of
        ((codes "at", whole_number at) ∷ (codes "error", word name.now) ∷ [])
        → ⊥) }
{
    let (at, error) = two_members(value, "at", "error")?;
    if !is_word(error, name) {
        return None;
    }
    long_in(at)
}

// The refusal of a status and a value, where it says a place and no more.
fn placed_in(status: u16, value: &Value) -> Option<Answer>
    ensures found { IfSome result (λ a. IsRowOf status (view value.now) a) }
    ensures none { IfNone result ((a : Answer) → IsPlaced a
        → IsRowOf status (view value.now) a → ⊥) }
{
    if status != 400 {
        return None;
    }
    if let Some(at) = place_in(value, "bad_run") {
        return Some(Answer::BadRun { at });
    }
    if let Some(at) = place_in(value, "bad_name") {
        return Some(Answer::BadName { at });
    }
    if let Some(at) = place_in(value, "bad_uri") {
        return Some(Answer::BadUri { at });
    }
    None
}

fn info_in(status: u16, value: &Value) -> Option<(u32, Option<Id>)>
    ensures found { IfSome result (λ row.
        IsRowOf status (view value.now) (Answer.Info row.0 row.1)) }
    ensures none { IfNone result ((version : ℕ) (head : Option Id)
        → IsRowOf status (view value.now) (Answer.Info version head) → ⊥) }
{
    let (head, version) = two_members(value, "head", "version")?;
    if status != 200 {
        return None;
    }
    let head = id_or_null_in(head)?;
    let version = short_in(version)?;
    Some((version, head))
}

fn version_in(status: u16, value: &Value) -> Option<u32>
    ensures found { IfSome result (λ version.
        IsRowOf status (view value.now) (Answer.Version version)) }
    ensures none { IfNone result ((version : ℕ)
        → IsRowOf status (view value.now) (Answer.Version version) → ⊥) }
{
    let version = one_member(value, "version")?;
    if status != 200 {
        return None;
    }
    short_in(version)
}

fn run_in(status: u16, value: &Value) -> Option<(u32, u32)>
    ensures found { IfSome result (λ row.
        IsRowOf status (view value.now) (Answer.Run row.0 row.1)) }
    ensures none { IfNone result ((first version : ℕ)
        → IsRowOf status (view value.now) (Answer.Run first version) → ⊥) }
{
    let (first, version) = two_members(value, "first", "version")?;
    if status != 200 {
        return None;
    }
    let first = short_in(first)?;
    let version = short_in(version)?;
    Some((first, version))
}

fn no_patch_in(status: u16, value: &Value) -> Option<u32>
    ensures found { IfSome result (λ version.
        IsRowOf status (view value.now) (Answer.NoPatch version)) }
    ensures none { IfNone result ((version : ℕ)
        → IsRowOf status (view value.now) (Answer.NoPatch version) → ⊥) }
{
    let (error, version) = two_members(value, "error", "version")?;
    if status != 404 || !is_word(error, "no_patch") {
        return None;
    }
    short_in(version)
}

fn known_in(status: u16, value: &Value) -> Option<(u32, bool)>
    ensures found { IfSome result (λ row.
        IsRowOf status (view value.now) (Answer.Known row.0 row.1)) }
    ensures none { IfNone result ((version : ℕ) (same : Bool)
        → IsRowOf status (view value.now) (Answer.Known version same) → ⊥) }
{
    let (error, same, version) = three_members(value, "error", "same", "version")?;
    if status != 409 || !is_word(error, "known") {
        return None;
    }
    let same = flag_in(same)?;
    let version = short_in(version)?;
    Some((version, same))
}

fn conflict_in(status: u16, value: &Value) -> Option<(u32, Option<Id>, Option<u32>)>
    ensures found { IfSome result (λ row.
        IsRowOf status (view value.now) (Answer.Conflict row.0 row.1 row.2)) }
    ensures none { IfNone result ((version : ℕ) (head : Option Id) (prev_version : Option ℕ)
        → IsRowOf status (view value.now) (Answer.Conflict version head prev_version) → ⊥) }
{
    let (error, head, prev_version, version) = four_members(
        value,
        "error",
        "head",
        "prev_version",
        "version",
    )?;
    if status == 409
        && is_word(error, "conflict")
        && let Some(head) = id_or_null_in(head)
        && let Some(prev_version) = short_or_null_in(prev_version)
        && let Some(version) = short_in(version)
    {
        Some((version, head, prev_version))
    } else {
        None
    }
}

fn name_taken_in(status: u16, value: &Value) -> Option<Id>
    ensures found { IfSome result (λ id. IsRowOf status (view value.now) (Answer.NameTaken id)) }
    ensures none { IfNone result ((id : Id)
        → IsRowOf status (view value.now) (Answer.NameTaken id) → ⊥) }
{
    let (error, id) = two_members(value, "error", "id")?;
    if status != 409 || !is_word(error, "name_taken") {
        return None;
    }
    id_in(id)
}

fn full_in(status: u16, value: &Value) -> Option<(FullKind, u64, u64)>
    ensures found { IfSome result (λ row.
        IsRowOf status (view value.now) (Answer.Full row.0 row.1 row.2)) }
    ensures none { IfNone result ((what : FullKind) (have limit : ℕ)
        → IsRowOf status (view value.now) (Answer.Full what have limit) → ⊥) }
{
    let (error, have, limit, what) = four_members(value, "error", "have", "limit", "what")?;
    if status != 507 || !is_word(error, "full") {
        return None;
    }
    let have = long_in(have)?;
    let limit = long_in(limit)?;
    let what = limit_in(what)?;
    Some((what, have, limit))
}

/// The answer of a status and a value, where it is one of numbers and ids.
pub fn numbers_in(status: u16, value: &Value) -> Option<Answer>
    ensures found { IfSome result (λ a. IsRowOf status (view value.now) a) }
    ensures none { IfNone result ((a : Answer) → IsOfNumbers a
        → IsRowOf status (view value.now) a → ⊥) }
{
    if let Some((version, head)) = info_in(status, value) {
        return Some(Answer::Info { version, head });
    }
    if let Some(version) = version_in(status, value) {
        return Some(Answer::Version { version });
    }
    if let Some((first, version)) = run_in(status, value) {
        return Some(Answer::Run { first, version });
    }
    if let Some(version) = no_patch_in(status, value) {
        return Some(Answer::NoPatch { version });
    }
    if let Some(answer) = placed_in(status, value) {
        return Some(answer);
    }
    if let Some((version, same)) = known_in(status, value) {
        return Some(Answer::Known { version, same });
    }
    if let Some((version, head, prev_version)) = conflict_in(status, value) {
        return Some(Answer::Conflict {
            version,
            head,
            prev_version,
        });
    }
    if let Some(id) = name_taken_in(status, value) {
        return Some(Answer::NameTaken { id });
    }
    if let Some((what, have, limit)) = full_in(status, value) {
        return Some(Answer::Full { what, have, limit });
    }
    None
}
