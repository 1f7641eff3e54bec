//! Finds sources among those that live.
ghost use Rattle.std.specs.Prelude.{◌≡◌, ◌<◌, ◌≤◌, ℕ, length, insert};
ghost use Rattle.std.specs.Prelude.{None, IfSome, IfNone, IfOk, slice_get};
ghost use Rattle.std.specs.List.{AllByRecursion};
ghost use Rattle.registry_core.specs.Sources.{source_named, source_with_id, source_with_uri};
ghost use Rattle.registry_core.specs.Sources.{source_in, HasSlot, put, by_name};

use delta_base::{Id, OutOfMemory};
use log_base::{SourceInfo, Sources};
use std::alloc::Global;

/// The place of the source with a name.
pub fn place_named(living: &[SourceInfo], name: &[u8]) -> Option<usize>
    ensures some { IfSome result (λ place. (place < length living.now)
        × (source_named name.now living.now ≡ slice_get living.now place)) }
    ensures none { IfNone result (source_named name.now living.now ≡ None) }
{
    for (place, source) in living.iter().enumerate() {
        if source.name.as_bytes() == name {
            return Some(place);
        }
    }
    None
}

/// The place of the source with an id.
pub fn place_with_id(living: &[SourceInfo], id: Id) -> Option<usize>
    ensures some { IfSome result (λ place. (place < length living.now)
        × (source_with_id id living.now ≡ slice_get living.now place)) }
    ensures none { IfNone result (source_with_id id living.now ≡ None) }
{
    for (place, source) in living.iter().enumerate() {
        if source.id.0 == id.0 {
            return Some(place);
        }
    }
    None
}

/// The place of the source with a URI that has the least slot.
pub fn place_with_uri(living: &[SourceInfo], uri: &[u8]) -> Option<usize>
    ensures some { IfSome result (λ place. (place < length living.now)
        × (source_with_uri uri.now living.now ≡ slice_get living.now place)) }
    ensures none { IfNone result (source_with_uri uri.now living.now ≡ None) }
{
    for (place, source) in living.iter().enumerate() {
        if source.uri.as_bytes() == uri {
            return Some(place);
        }
    }
    None
}

/// The place of the source in a slot.
pub fn place_in(living: &[SourceInfo], slot: u32) -> Option<usize>
    ensures some { IfSome result (λ place. (place < length living.now)
        × (source_in slot living.now ≡ slice_get living.now place)) }
    ensures none { IfNone result (source_in slot living.now ≡ None) }
{
    for (place, source) in living.iter().enumerate() {
        if source.slot == slot {
            return Some(place);
        }
    }
    None
}

// A copy of the source at a place.
fn copy_at(living: &[SourceInfo], place: Option<usize>) -> Result<Option<SourceInfo>, OutOfMemory>
    requires { IfSome place (λ place. place < length living.now) }
    ensures some { IfOk result (λ found. IfSome place (λ place. found
        ≡ slice_get living.now place)) }
    ensures none { IfOk result (λ found. IfNone place (found ≡ None)) }
    ensures slot { (slots : ℕ) → AllByRecursion (HasSlot slots) living.now
        → IfOk result (λ found. IfSome found (HasSlot slots)) }
{
    match place {
        Some(place) => {
            let source = living[place].copy()?;
            Ok(Some(source))
        }
        None => Ok(None),
    }
}

/// The source with a name.
pub fn find_named(living: &[SourceInfo], name: &[u8]) -> Result<Option<SourceInfo>, OutOfMemory>
    ensures value { IfOk result (λ found. found ≡ source_named name.now living.now) }
    ensures slot { (slots : ℕ) → AllByRecursion (HasSlot slots) living.now
        → IfOk result (λ found. IfSome found (HasSlot slots)) }
{
    let place = place_named(living, name);
    copy_at(living, place)
}

/// The source with an id.
pub fn find_with_id(living: &[SourceInfo], id: Id) -> Result<Option<SourceInfo>, OutOfMemory>
    ensures value { IfOk result (λ found. found ≡ source_with_id id living.now) }
    ensures slot { (slots : ℕ) → AllByRecursion (HasSlot slots) living.now
        → IfOk result (λ found. IfSome found (HasSlot slots)) }
{
    let place = place_with_id(living, id);
    copy_at(living, place)
}

/// The source with a URI; of several the one in the least slot.
pub fn find_with_uri(living: &[SourceInfo], uri: &[u8]) -> Result<Option<SourceInfo>, OutOfMemory>
    ensures value { IfOk result (λ found. found ≡ source_with_uri uri.now living.now) }
    ensures slot { (slots : ℕ) → AllByRecursion (HasSlot slots) living.now
        → IfOk result (λ found. IfSome found (HasSlot slots)) }
{
    let place = place_with_uri(living, uri);
    copy_at(living, place)
}

// Where a source goes: before the first one whose name is behind its own.
fn place_for(listed: &[SourceInfo], source: &SourceInfo) -> usize
    ensures within { result ≤ length listed.now }
    ensures put { insert listed.now result source.now ≡ put listed.now source.now }
{
    for (place, other) in listed.iter().enumerate() {
        if source.name.as_bytes().cmp(other.name.as_bytes()).is_lt() {
            return place;
        }
    }
    listed.len()
}

/// Copies of sources in the order of their names.
pub fn listed(alloc: Global, living: &[SourceInfo]) -> Result<Sources, OutOfMemory>
    ensures value { IfOk result (λ listed. listed.items ≡ by_name living.now) }
    ensures slots { (slots : ℕ) → AllByRecursion (HasSlot slots) living.now
        → IfOk result (λ listed. AllByRecursion (HasSlot slots) listed.items) }
{
    let mut listed = Vec::new(alloc);
    for source in living {
        let place = place_for(&listed, source);
        listed.insert(place, source.copy()?)?;
    }
    Ok(Sources::from_vec(listed))
}
