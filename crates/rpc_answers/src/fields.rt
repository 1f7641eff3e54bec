//! The values of members.
ghost use Rattle.std.specs.Prelude.{◌≡◌, ◌↔◌, ◌<◌, ◌^◌, ℕ, Bool, List};
ghost use Rattle.std.specs.Prelude.{Option, IfSome, IfNone, IsTrue};
ghost use Rattle.std.specs.Option.{ForSome};
ghost use Rattle.serde_json.specs.Data.{string, boolean};
ghost use Rattle.serde_json.specs.View.{view};
ghost use Rattle.delta_base.specs.Ids.{IsId};
ghost use Rattle.rpc_answers.specs.Values.{word, whole_number, whole_or_null};
ghost use Rattle.rpc_answers.specs.Values.{id_data, id_or_null, limit_name};

use delta_base::{Id, exact_id};
use log_base::FullKind;
use serde_json::Value;

/// Whether the value is that word.
pub fn is_word(value: &Value, name: &str) -> bool
    ensures { IsTrue result ↔ (view value.now ≡ word name.now) }
{
    match value {
        Value::String(text) => text.as_str() == name,
        _ => false,
    }
}

/// A text.
pub fn text_in(value: &Value) -> Option<&str>
    ensures found { IfSome result (λ text. view value.now ≡ string text.now) }
    ensures none { IfNone result ((text : List ℕ) → view value.now ≡ string text → ⊥) }
{
    value.as_str()
}

/// A whole number below 2^64.
pub fn long_in(value: &Value) -> Option<u64>
    ensures found { IfSome result (λ n. (view value.now ≡ whole_number n) × (n < 2 ^ 64)) }
    ensures none { IfNone result ((n : ℕ) → n < 2 ^ 64 → view value.now ≡ whole_number n → ⊥) }
{
    value.as_u64()
}

/// A whole number below 2^32.
pub fn short_in(value: &Value) -> Option<u32>
    ensures found { IfSome result (λ n. (view value.now ≡ whole_number n) × (n < 2 ^ 32)) }
    ensures none { IfNone result ((n : ℕ) → n < 2 ^ 32 → view value.now ≡ whole_number n → ⊥) }
{
    u32::try_from(value.as_u64()?).ok()
}

/// A truth.
pub fn flag_in(value: &Value) -> Option<bool>
    ensures found { IfSome result (λ b. view value.now ≡ boolean b) }
    ensures none { IfNone result ((b : Bool) → view value.now ≡ boolean b → ⊥) }
{
    value.as_bool()
}

/// A whole number below 2^32, or null.
pub fn short_or_null_in(value: &Value) -> Option<Option<u32>>
    ensures found { IfSome result (λ n. (view value.now ≡ whole_or_null n)
        × ForSome n (λ k. k < 2 ^ 32)) }
    ensures none { IfNone result ((n : Option ℕ) → ForSome n (λ k. k < 2 ^ 32)
        → view value.now ≡ whole_or_null n → ⊥) }
{
    match value {
        Value::Null => Some(None),
        _ => match short_in(value) {
            Some(n) => Some(Some(n)),
            None => None,
        },
    }
}

/// An id's own text.
pub fn id_in(value: &Value) -> Option<Id>
    ensures found { IfSome result (λ id. (view value.now ≡ id_data id) × IsId id.0) }
    ensures none { IfNone result ((id : Id) → IsId id.0 → view value.now ≡ id_data id → ⊥) }
{
    let text = text_in(value)?;
    exact_id(text.as_bytes())
}

/// An id's own text, or null.
pub fn id_or_null_in(value: &Value) -> Option<Option<Id>>
    ensures found { IfSome result (λ id. (view value.now ≡ id_or_null id)
        × ForSome id (λ i. IsId i.0)) }
    ensures none { IfNone result ((id : Option Id) → ForSome id (λ i. IsId i.0)
        → view value.now ≡ id_or_null id → ⊥) }
{
    match value {
        Value::Null => Some(None),
        _ => match id_in(value) {
            Some(id) => Some(Some(id)),
            None => None,
        },
    }
}

/// Which limit was reached.
pub fn limit_in(value: &Value) -> Option<FullKind>
    ensures found { IfSome result (λ what. view value.now ≡ word (limit_name what)) }
    ensures none { IfNone result ((what : FullKind) → view value.now ≡ word (limit_name what) → ⊥) }
{
    if is_word(value, "patches") {
        return Some(FullKind::Patches);
    }
    if is_word(value, "bytes") {
        return Some(FullKind::Bytes);
    }
    if is_word(value, "slots") {
        return Some(FullKind::Slots);
    }
    None
}
