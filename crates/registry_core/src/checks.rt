//! What stands against a call. Nothing here takes memory, but for the name of the source that has
//! an id.
ghost use Rattle.std.specs.Prelude.{◌≡◌, ◌+◌, ◌≤◌, Some, IfSome, IfNone, IfOk, IfErr, slice_get};
ghost use Rattle.std.specs.List.{AllByRecursion};
ghost use Rattle.log_base.specs.declared.source_info.SourceInfo.{SourceInfo as AnySource};
ghost use Rattle.registry_core.specs.Checks.{IsRefusedCreate, IsRefusedChange};
ghost use Rattle.registry_core.specs.Events.{IsSlot};
ghost use Rattle.registry_core.specs.Replies.{created, renamed_to, removal_answer, of_found};
ghost use Rattle.log_base.specs.declared.limits.TheConstants.{REGISTRY_LIMIT};
ghost use Rattle.registry_core.specs.Sources.{named, source_named};

use crate::answer::{ChangeAnswer, CreateAnswer};
use crate::lookups::{place_named, place_with_id};
use crate::names::{name_fault, uri_fault};
use crate::texts::{created_length, removed_length, renamed_length};
use delta_base::Id;
use log_base::{FullKind, PAYLOAD_FRAME, REGISTRY_LIMIT, SourceInfo};

// The answer that shows the name of the source which has an id.
fn id_taken(source: &SourceInfo) -> CreateAnswer
    ensures { IsRefusedCreate (CreateAnswer.IdTaken source.now.name) result }
{
    match source.name.copy() {
        Ok(name) => CreateAnswer::IdTaken { name },
        Err(_) => CreateAnswer::OutOfMemory,
    }
}

/// What stands against a source, where these live and so many were made. Nothing does where it
/// answers none.
pub fn check_create(
    living: &[SourceInfo],
    slots: u32,
    used: u32,
    bytes: u64,
    name: &[u8],
    uri: &[u8],
    id: Id,
) -> Option<CreateAnswer>
    requires slots { IsSlot slots }
    requires used { used ≤ slots }
    requires bytes { bytes ≤ REGISTRY_LIMIT }
    ensures free { IfNone result (created living.now slots used bytes
        (record { slot = used + 1; id = id; name = name.now; uri = uri.now })
        ≡ CreateAnswer.Made (record { slot = used + 1; id = id; name = name.now; uri = uri.now })) }
    ensures refused { IfSome result (IsRefusedCreate (created living.now slots used bytes
        (record { slot = used + 1; id = id; name = name.now; uri = uri.now }))) }
{
    if let Some(at) = name_fault(name) {
        return Some(CreateAnswer::BadName { at });
    }
    if let Some(at) = uri_fault(uri) {
        return Some(CreateAnswer::BadUri { at });
    }
    if let Some(place) = place_named(living, name) {
        return Some(CreateAnswer::NameTaken {
            id: living[place].id,
        });
    }
    if let Some(place) = place_with_id(living, id) {
        return Some(id_taken(&living[place]));
    }
    if used == slots {
        return Some(CreateAnswer::Full {
            what: FullKind::Slots,
            have: u64::from(used),
            limit: u64::from(slots),
        });
    }
    let longer = bytes + PAYLOAD_FRAME + created_length(used + 1, name, uri);
    if longer > REGISTRY_LIMIT {
        return Some(CreateAnswer::Full {
            what: FullKind::Bytes,
            have: longer,
            limit: REGISTRY_LIMIT,
        });
    }
    None
}

/// The place of the source that gets a name, or what stands against it.
pub fn check_rename(
    living: &[SourceInfo],
    bytes: u64,
    name: &[u8],
    new_name: &[u8],
) -> Result<usize, ChangeAnswer>
    requires slots { AllByRecursion (λ source. IsSlot source.slot) living.now }
    requires bytes { bytes ≤ REGISTRY_LIMIT }
    ensures ok { IfOk result (λ place. (source : AnySource)
        × (slice_get living.now place ≡ Some source)
        × (of_found (renamed_to living.now bytes new_name.now)
        (source_named name.now living.now) ≡ ChangeAnswer.Done (named new_name.now source))) }
    ensures refused { IfErr result (IsRefusedChange (of_found
        (renamed_to living.now bytes new_name.now) (source_named name.now living.now))) }
{
    let Some(place) = place_named(living, name) else {
        return Err(ChangeAnswer::NoSuchName);
    };
    if let Some(at) = name_fault(new_name) {
        return Err(ChangeAnswer::BadName { at });
    }
    if let Some(other) = place_named(living, new_name) {
        return Err(ChangeAnswer::NameTaken {
            id: living[other].id,
        });
    }
    let longer = bytes + PAYLOAD_FRAME + renamed_length(living[place].slot, new_name);
    if longer > REGISTRY_LIMIT {
        return Err(ChangeAnswer::Full {
            what: FullKind::Bytes,
            have: longer,
            limit: REGISTRY_LIMIT,
        });
    }
    Ok(place)
}

/// The place of the source that goes, or what stands against it.
pub fn check_remove(living: &[SourceInfo], bytes: u64, name: &[u8]) -> Result<usize, ChangeAnswer>
    requires slots { AllByRecursion (λ source. IsSlot source.slot) living.now }
    requires bytes { bytes ≤ REGISTRY_LIMIT }
    ensures ok { IfOk result (λ place. (source : AnySource)
        × (slice_get living.now place ≡ Some source)
        × (of_found (removal_answer bytes) (source_named name.now living.now)
        ≡ ChangeAnswer.Done source)) }
    ensures refused { IfErr result (IsRefusedChange (of_found (removal_answer bytes)
        (source_named name.now living.now))) }
{
    let Some(place) = place_named(living, name) else {
        return Err(ChangeAnswer::NoSuchName);
    };
    let longer = bytes + PAYLOAD_FRAME + removed_length(living[place].slot);
    if longer > REGISTRY_LIMIT {
        return Err(ChangeAnswer::Full {
            what: FullKind::Bytes,
            have: longer,
            limit: REGISTRY_LIMIT,
        });
    }
    Ok(place)
}
