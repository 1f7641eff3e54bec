//! Writes the payloads of a registry.
ghost use Rattle.std.specs.Prelude.{◌≡◌, ◌+◌, ◌≤◌, ◌++◌, length, IfOk, OnOk};
ghost use Rattle.std.specs.Fmt.{decimal};
ghost use Rattle.delta_base.specs.declared.id.Id.{Id as AnyId};
ghost use Rattle.log_base.specs.declared.limits.TheConstants.{MOST_SLOTS};
ghost use Rattle.registry_core.specs.declared.event.Event.TheVariants as event;
ghost use Rattle.registry_core.specs.Events.{IsSlot, IsSoundEvent};
ghost use Rattle.registry_core.specs.Texts.{slots_payload, source_text, event_text};

use crate::event::Event;
use delta_base::{OutOfMemory, id_text};
use log_base::SourceInfo;
use std::alloc::Global;

/// The registry's first payload: `S`, a space and the number of slots in decimal. It is written
/// into the buffer.
pub fn first_payload<'a>(slots: u8, room: &'a mut [u8; 4]) -> &'a [u8]
    requires { slots ≤ MOST_SLOTS }
    ensures payload { result.now ≡ slots_payload slots }
    ensures short { length result.now ≤ 4 }
{
    let last = b'0' + slots % 10;
    if slots < 10 {
        *room = [b'S', b' ', last, 0];
        return &room[..3];
    }
    *room = [b'S', b' ', b'0' + slots / 10, last];
    &room[..]
}

/// A slot in decimal. It is written into the buffer.
pub fn slot_text<'a>(slot: u32, room: &'a mut [u8; 4]) -> &'a [u8]
    requires { IsSlot slot }
    ensures value { result.now ≡ decimal slot }
    ensures short { length result.now ≤ 2 }
{
    &first_payload(slot as u8, room)[2..]
}

/// The length of a creation's payload.
pub fn created_length(slot: u32, name: &[u8], uri: &[u8]) -> u64
    requires slot { IsSlot slot }
    requires name { length name.now ≤ 64 }
    requires uri { length uri.now ≤ 1024 }
    ensures value { (id : AnyId) → result
        ≡ length (event_text (event.Created
        (record { slot = slot; id = id; name = name.now; uri = uri.now }))) }
    ensures short { result ≤ 2000 }
{
    let slot_length = slot_text(slot, &mut [0; 4]).len() as u64;
    2 + slot_length + 1 + 36 + 1 + name.len() as u64 + 1 + uri.len() as u64
}

/// The length of a renaming's payload.
pub fn renamed_length(slot: u32, name: &[u8]) -> u64
    requires slot { IsSlot slot }
    requires name { length name.now ≤ 64 }
    ensures value { result ≡ length (event_text (event.Renamed slot name.now)) }
    ensures short { result ≤ 2000 }
{
    let slot_length = slot_text(slot, &mut [0; 4]).len() as u64;
    2 + slot_length + 1 + name.len() as u64
}

/// The length of a removal's payload.
pub fn removed_length(slot: u32) -> u64
    requires { IsSlot slot }
    ensures value { result ≡ length (event_text (event.Removed slot)) }
    ensures short { result ≤ 2000 }
{
    2 + slot_text(slot, &mut [0; 4]).len() as u64
}

fn push_source(text: &mut Vec<u8>, source: &SourceInfo) -> Result<(), OutOfMemory>
    requires { IsSlot source.now.slot }
    ensures { OnOk result (text.new.items ≡ text.old.items ++ source_text source.now) }
{
    text.extend_from_slice(slot_text(source.slot, &mut [0; 4]))?;
    text.push(b' ')?;
    text.extend_from_slice(&id_text(source.id))?;
    text.push(b' ')?;
    text.extend_from_slice(source.name.as_bytes())?;
    text.push(b' ')?;
    text.extend_from_slice(source.uri.as_bytes())?;
    Ok(())
}

/// The payload of an event.
pub fn event_text(alloc: Global, event: &Event) -> Result<Vec<u8>, OutOfMemory>
    requires { IsSoundEvent event.now }
    ensures { IfOk result (λ text. text.items ≡ event_text event.now) }
{
    let mut text = Vec::new(alloc);
    match event {
        Event::Created(source) => {
            text.extend_from_slice(b"C ")?;
            push_source(&mut text, source)?;
        }
        Event::Renamed { slot, name } => {
            text.extend_from_slice(b"R ")?;
            text.extend_from_slice(slot_text(*slot, &mut [0; 4]))?;
            text.push(b' ')?;
            text.extend_from_slice(name.as_bytes())?;
        }
        Event::Removed { slot } => {
            text.extend_from_slice(b"D ")?;
            text.extend_from_slice(slot_text(*slot, &mut [0; 4]))?;
        }
    }
    Ok(text)
}
