//! Calls on a registry over a disk in memory, with their answers in short.
ghost use Rattle.std.specs.Prelude.{◌≡◌, IfOk};
ghost use Rattle.std.specs.List.{AllByRecursion};

use delta_base::{Bytes, Id, Listing, Text};
use disk_model::MemDisk;
use log_base::FullKind;
use log_registry::RegistryState;
use registry_core::{ChangeAnswer, CreateAnswer};
use std::alloc::Global;
use std::process::Abort;
use std::test::Fail;

pub(crate) const ONE_SLOT: &[u8] = b"RDJ2\0\0\0\0\x01\0\0\0\x01\0\0\0\x03S 1\0";

pub(crate) const TWO_SLOTS: &[u8] = b"RDJ2\0\0\0\0\x01\0\0\0\x01\0\0\0\x03S 2\0";

/// An answer, by the slot that it shows or by its place.
#[derive(Clone, Copy, PartialEq, Eq)]
pub(crate) enum Told {
    Made {
        slot: u32,
    },
    NoSuchName,
    BadName {
        at: u64,
    },
    BadUri {
        at: u64,
    },
    NameTaken {
        id: Id,
    },
    IdTaken,
    Full {
        what: FullKind,
        have: u64,
        limit: u64,
    },
    OutOfMemory,
    DiskFault,
}

pub(crate) fn created(answer: CreateAnswer) -> Told {
    let told = match &answer {
        CreateAnswer::Made(source) => Told::Made { slot: source.slot },
        CreateAnswer::BadName { at } => Told::BadName { at: *at },
        CreateAnswer::BadUri { at } => Told::BadUri { at: *at },
        CreateAnswer::NameTaken { id } => Told::NameTaken { id: *id },
        CreateAnswer::IdTaken { name: _ } => Told::IdTaken,
        CreateAnswer::Full { what, have, limit } => Told::Full {
            what: *what,
            have: *have,
            limit: *limit,
        },
        CreateAnswer::OutOfMemory => Told::OutOfMemory,
        CreateAnswer::DiskFault => Told::DiskFault,
    };
    drop(answer);
    told
}

pub(crate) fn changed(answer: ChangeAnswer) -> Told {
    let told = match &answer {
        ChangeAnswer::Done(source) => Told::Made { slot: source.slot },
        ChangeAnswer::NoSuchName => Told::NoSuchName,
        ChangeAnswer::BadName { at } => Told::BadName { at: *at },
        ChangeAnswer::NameTaken { id } => Told::NameTaken { id: *id },
        ChangeAnswer::Full { what, have, limit } => Told::Full {
            what: *what,
            have: *have,
            limit: *limit,
        },
        ChangeAnswer::OutOfMemory => Told::OutOfMemory,
        ChangeAnswer::DiskFault => Told::DiskFault,
    };
    drop(answer);
    told
}

/// The id whose last digits are this number.
pub(crate) fn id_of(number: u128) -> Id {
    Id(0x0000_0000_0000_4000_8000_0000_0000_0000 | number)
}

/// The registry of a file, whose disk fails at the calls of these numbers.
pub(crate) fn open_with(
    alloc: Global,
    file: &[u8],
    failing: &[u64],
) -> Result<RegistryState<MemDisk>, Fail>
    ensures { IfOk result (λ registry. AllByRecursion (λ entry. entry.by ≡ 0) registry.entries) }
{
    let bytes = Bytes::from_slice(alloc, file)?;
    let failing = Listing::from_vec(Vec::from_slice(alloc, failing)?);
    let disk = MemDisk::from_image(alloc, bytes, failing)?;
    match RegistryState::open_on(alloc, disk) {
        Ok(registry) => Ok(registry),
        Err(_) => Err(Fail::from("not opened")),
    }
}

pub(crate) fn create(
    alloc: Global,
    registry: &mut RegistryState<MemDisk>,
    name: &str,
    uri: &str,
    id: u128,
) -> Result<Told, Fail> {
    let name = Text::from_str(alloc, name)?;
    let uri = Text::from_str(alloc, uri)?;
    Ok(created(registry.create(&name, &uri, id_of(id), 1)))
}

pub(crate) fn rename(
    alloc: Global,
    registry: &mut RegistryState<MemDisk>,
    name: &str,
    new_name: &str,
) -> Result<Told, Fail> {
    let name = Text::from_str(alloc, name)?;
    let new_name = Text::from_str(alloc, new_name)?;
    Ok(changed(registry.rename(&name, &new_name, 1)))
}

pub(crate) fn remove(
    alloc: Global,
    registry: &mut RegistryState<MemDisk>,
    name: &str,
) -> Result<Told, Fail> {
    let name = Text::from_str(alloc, name)?;
    Ok(changed(registry.remove(&name, 1)))
}

/// A step of a case of a table.
#[derive(Clone, Copy)]
pub(crate) struct Place {
    /// What the case shows.
    pub(crate) shows: &'static str,
    pub(crate) step: usize,
}

/// What was found at a place is what stands there.
pub(crate) fn is<T: PartialEq>(rt: &impl Abort, at: Place, found: &T, wanted: &T) {
    assert!(rt; found == wanted, "{}: step {}", at.shows, at.step);
}
