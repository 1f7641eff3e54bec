//! Reads payloads as events, whatever came before.
ghost use Rattle.std.specs.Prelude.{◌≡◌, ℕ, ◌<◌, ◌^◌, ◌++◌, ◌∷◌, IfOk, IfSome, IfNone, IsErrOf};
ghost use Rattle.std.specs.Fmt.{decimal};
ghost use Rattle.registry_core.specs.declared.event.Event.{Event as AnyEvent};
ghost use Rattle.log_base.specs.declared.source_info.SourceInfo.{SourceInfo as AnySource};
ghost use Rattle.registry_core.specs.Blanks.{HasNoBlank};
ghost use Rattle.registry_core.specs.Events.{IsSlot, IsName, IsUri, IsSource, IsSoundEvent};
ghost use Rattle.registry_core.specs.Texts.{slots_payload, source_text, event_text};

use crate::event::Event;
use crate::names::{name_fault, uri_fault};
use crate::texts::{first_payload, slot_text};
use delta_base::{OutOfMemory, Text, exact_id};
use log_base::SourceInfo;
use std::alloc::Global;

/// Why a payload is no event.
#[derive(Clone, Copy, Debug, PartialEq, Eq)]
pub enum TextFault {
    NoEvent,
    OutOfMemory,
}

impl From<OutOfMemory> for TextFault {
    ghost use Rattle.std.specs.Prelude.{◌≡◌};
    ghost use Rattle.registry_core.specs.declared.reading.TextFault.TheVariants as fault;

    ghost from_gives = { λ _ e. e ≡ fault.OutOfMemory };

    fn from(_: OutOfMemory) -> TextFault {
        TextFault::OutOfMemory
    }
}

/// The number of slots that a first payload tells.
pub fn read_slots(text: &[u8]) -> Option<u32>
    ensures some { IfSome result (λ slots. (slots_payload slots ≡ text.now) × IsSlot slots) }
    ensures none { IfNone result ((slots : ℕ) → IsSlot slots → slots_payload slots ≡ text.now → ⊥) }
{
    for slots in 1..17u8 {
        if text == first_payload(slots, &mut [0; 4]) {
            return Some(u32::from(slots));
        }
    }
    None
}

// The slot that this spells in decimal.
fn read_slot(text: &[u8]) -> Option<u32>
    ensures some { IfSome result (λ slot. (decimal slot ≡ text.now) × IsSlot slot) }
    ensures none { IfNone result ((slot : ℕ) → IsSlot slot → decimal slot ≡ text.now → ⊥) }
{
    for slot in 1..17u32 {
        if text == slot_text(slot, &mut [0; 4]) {
            return Some(slot);
        }
    }
    None
}

// What stands before the first blank, and behind it.
fn cut(text: &[u8]) -> Option<(&[u8], &[u8])>
    ensures some { IfSome result (λ parts. (text.now ≡ parts.0.now ++ 32 ∷ parts.1.now)
        × HasNoBlank parts.0.now) }
    ensures none { IfNone result (HasNoBlank text.now) }
{
    for (at, byte) in text.iter().enumerate() {
        if *byte == b' ' {
            return Some((&text[..at], &text[at + 1..]));
        }
    }
    None
}

// The text of a name.
fn read_name(alloc: Global, bytes: &[u8]) -> Result<Text, TextFault>
    ensures ok { IfOk result (λ name. (name ≡ bytes.now) × IsName name) }
    ensures none { IsErrOf result TextFault.NoEvent → IsName bytes.now → ⊥ }
{
    if name_fault(bytes).is_some() {
        return Err(TextFault::NoEvent);
    }
    match str::from_utf8(bytes) {
        Ok(name) => Ok(Text::from_str(alloc, name)?),
        Err(_) => Err(TextFault::NoEvent),
    }
}

// The text of a URI.
fn read_uri(alloc: Global, bytes: &[u8]) -> Result<Text, TextFault>
    ensures ok { IfOk result (λ uri. (uri ≡ bytes.now) × IsUri uri) }
    ensures none { IsErrOf result TextFault.NoEvent → IsUri bytes.now → ⊥ }
{
    if uri_fault(bytes).is_some() {
        return Err(TextFault::NoEvent);
    }
    match str::from_utf8(bytes) {
        Ok(uri) => Ok(Text::from_str(alloc, uri)?),
        Err(_) => Err(TextFault::NoEvent),
    }
}

fn read_source(alloc: Global, text: &[u8]) -> Result<SourceInfo, TextFault>
    ensures ok { IfOk result (λ source. (source_text source ≡ text.now) × IsSource source) }
    ensures none { IsErrOf result TextFault.NoEvent → (source : AnySource) → IsSource source
        → source_text source ≡ text.now → ⊥ }
{
    let Some((slot_part, behind_slot)) = cut(text) else {
        return Err(TextFault::NoEvent);
    };
    let Some((id_part, behind_id)) = cut(behind_slot) else {
        return Err(TextFault::NoEvent);
    };
    let Some((name_part, uri_part)) = cut(behind_id) else {
        return Err(TextFault::NoEvent);
    };
    let Some(slot) = read_slot(slot_part) else {
        return Err(TextFault::NoEvent);
    };
    let Some(id) = exact_id(id_part) else {
        return Err(TextFault::NoEvent);
    };
    let name = match read_name(alloc, name_part) {
        Ok(name) => name,
        Err(fault) => return Err(fault),
    };
    let uri = match read_uri(alloc, uri_part) {
        Ok(uri) => uri,
        Err(fault) => return Err(fault),
    };
    Ok(SourceInfo {
        slot,
        id,
        name,
        uri,
    })
}

fn read_renaming(alloc: Global, text: &[u8]) -> Result<(u32, Text), TextFault>
    ensures ok { IfOk result (λ parts. (decimal parts.0 ++ 32 ∷ parts.1 ≡ text.now)
        × IsSlot parts.0 × IsName parts.1) }
    ensures none { IsErrOf result TextFault.NoEvent → (slot : ℕ) (name : _) → IsSlot slot
        → IsName name → decimal slot ++ 32 ∷ name ≡ text.now → ⊥ }
{
    let Some((slot_part, name_part)) = cut(text) else {
        return Err(TextFault::NoEvent);
    };
    let Some(slot) = read_slot(slot_part) else {
        return Err(TextFault::NoEvent);
    };
    match read_name(alloc, name_part) {
        Ok(name) => Ok((slot, name)),
        Err(fault) => Err(fault),
    }
}

/// The event that a payload is by its form.
pub fn read_event(alloc: Global, text: &[u8]) -> Result<Event, TextFault>
    ensures ok { IfOk result (λ event. (event_text event ≡ text.now) × IsSoundEvent event) }
    ensures none { IsErrOf result TextFault.NoEvent → (event : AnyEvent) → IsSoundEvent event
        → event_text event ≡ text.now → ⊥ }
{
    match text {
        [b'C', b' ', rest @ ..] => Ok(Event::Created(read_source(alloc, rest)?)),
        [b'R', b' ', rest @ ..] => {
            let (slot, name) = read_renaming(alloc, rest)?;
            Ok(Event::Renamed { slot, name })
        }
        [b'D', b' ', rest @ ..] => match read_slot(rest) {
            Some(slot) => Ok(Event::Removed { slot }),
            None => Err(TextFault::NoEvent),
        },
        _ => Err(TextFault::NoEvent),
    }
}
