//! Files whose payloads are no registry's, each with the least place.
use crate::calls::{Place, is};
use delta_base::{Bytes, Listing};
use disk_model::MemDisk;
use log_registry::{RegistryFault, RegistryState};
use std::alloc::Global;
use std::test::Fail;

const MADE: &[u8] = b"C 1 00000000-0000-4000-8000-000000000001 A http://e/a";

const OTHER_SLOT: &[u8] = b"C 2 00000000-0000-4000-8000-000000000001 A http://e/a";

const UPPER_ID: &[u8] = b"C 1 00000000-0000-4000-8000-00000000000A A http://e/a";

// Puts a payload with this running number behind a file's others.
fn add(file: &mut Vec<u8>, number: u32, payload: &[u8]) -> Result<(), Fail> {
    let Ok(size) = u32::try_from(payload.len()) else {
        return Err(Fail::from("a long payload"));
    };
    file.push(1)?;
    file.extend_from_slice(&number.to_be_bytes())?;
    file.extend_from_slice(&size.to_be_bytes())?;
    file.extend_from_slice(payload)?;
    Ok(())
}

// A file of these payloads.
fn file_of(alloc: Global, payloads: &[&[u8]]) -> Result<Bytes, Fail> {
    let mut file = Vec::from_slice(alloc, b"RDJ2\0\0\0\0")?;
    let mut count = 0u32;
    for payload in payloads {
        count = count.saturating_add(1);
        add(&mut file, count, payload)?;
    }
    file.push(0)?;
    Ok(Bytes::from_vec(file))
}

// The fault of a file of these payloads.
fn fault_of(alloc: Global, payloads: &[&[u8]]) -> Result<Option<RegistryFault>, Fail> {
    let file = file_of(alloc, payloads)?;
    let disk = MemDisk::from_image(alloc, file, Listing::new(alloc))?;
    let opened = RegistryState::open_on(alloc, disk);
    let fault = match &opened {
        Ok(_) => None,
        Err(refusal) => Some(refusal.fault),
    };
    drop(opened);
    Ok(fault)
}

/// Payloads, with the place of the first that breaks them, if one does.
type Row = (&'static [&'static [u8]], Option<u64>);

static ROWS: [Row; 15] = [
    // The first payload tells the slots.
    (&[], Some(0)),
    (&[b"S 0"], Some(0)),
    (&[b"S 17"], Some(0)),
    (&[MADE], Some(0)),
    (&[b"S 2", b"S 2"], Some(1)),
    // An event has its form.
    (&[b"S 2", UPPER_ID], Some(1)),
    (&[b"S 2", MADE, b"R 1  B"], Some(2)),
    (&[b"S 2", MADE, b"D 01"], Some(2)),
    (&[b"S 2", MADE, b""], Some(2)),
    // It is one that a call makes.
    (&[b"S 2", b"R 1 B"], Some(1)),
    (&[b"S 2", OTHER_SLOT], Some(1)),
    (&[b"S 2", MADE, MADE], Some(2)),
    (&[b"S 2", MADE, b"R 1 A"], Some(2)),
    (&[b"S 2", MADE, b"D 1", b"D 1"], Some(3)),
    (&[b"S 2", MADE, b"R 1 B", b"D 1"], None),
];

#[test]
fn the_first_payload_that_is_no_registrys_is_told(rt: HostRuntime) -> Result<(), Fail> {
    let shows = "payloads of a registry";
    for (step, (payloads, place)) in ROWS.iter().enumerate() {
        let found = fault_of(rt.alloc(), payloads)?;
        let wanted = place.map(|place| RegistryFault::BrokenEvent { place });
        is(&rt, Place { shows, step }, &found, &wanted);
    }
    Ok(())
}
