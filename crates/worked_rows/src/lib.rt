//! What worked examples of several layers begin with: the first patches of a chain, calls that are to fail, and disks,
//! connections and journals in memory.
#![tactic(auto)]

ghost use Rattle.std.specs.Prelude.{◌≡◌, ◌<◌, IfOk};

use delta_base::{Bytes, Calls, Listing, MemLink, OutOfMemory};
use disk_model::MemDisk;
use std::alloc::Global;

/// A patch without a previous one, of 104 bytes.
pub const FIRST: &[u8] =
    b"H id <uuid:00000000-0000-4000-8000-000000000001> .\nTX .\nA <http://e/s> <http://e/p> <http://e/o> .\nTC .\n";

/// The patch behind it, of 158 bytes.
pub const SECOND: &[u8] =
    b"H id <uuid:00000000-0000-4000-8000-000000000002> .\nH prev <uuid:00000000-0000-4000-8000-000000000001> .\nTX .\nA <http://e/s> <http://e/p> <http://e/o2> .\nTC .\n";

/// The calls of these numbers.
pub fn calls(alloc: Global, numbers: &[u64]) -> Result<Calls, OutOfMemory>
    ensures { IfOk result (λ calls. calls.items ≡ numbers.now) }
{
    Ok(Listing::from_vec(Vec::from_slice(alloc, numbers)?))
}

/// A disk with these bytes, whose calls of these numbers fail.
pub fn disk_of(alloc: Global, image: &[u8], failing: &[u64]) -> Result<MemDisk, OutOfMemory> {
    let bytes = Bytes::from_slice(alloc, image)?;
    MemDisk::from_image(alloc, bytes, calls(alloc, failing)?)
}

/// A connection that gives a text in pieces, and whose calls of these numbers fail.
pub fn link_of(
    alloc: Global,
    text: &[u8],
    piece: usize,
    failing: &[u64],
) -> Result<MemLink, OutOfMemory>
    requires { 0 < piece }
{
    let content = Bytes::from_slice(alloc, text)?;
    Ok(MemLink::new(alloc, content, piece, calls(alloc, failing)?))
}

// Puts a payload with this running number behind a journal's others.
fn push_payload(journal: &mut Vec<u8>, number: u32, payload: &[u8]) -> Result<(), OutOfMemory> {
    let Ok(length) = u32::try_from(payload.len()) else {
        return Err(OutOfMemory);
    };
    journal.push(1)?;
    journal.extend_from_slice(&number.to_be_bytes())?;
    journal.extend_from_slice(&length.to_be_bytes())?;
    journal.extend_from_slice(payload)?;
    Ok(())
}

/// The bytes of a journal of this number with these payloads.
pub fn journal_of(alloc: Global, number: u32, payloads: &[&[u8]]) -> Result<Vec<u8>, OutOfMemory> {
    let mut journal = Vec::from_slice(alloc, b"RDJ2")?;
    journal.extend_from_slice(&number.to_be_bytes())?;
    let mut count = 0u32;
    for payload in payloads {
        count = count.saturating_add(1);
        push_payload(&mut journal, count, payload)?;
    }
    journal.push(0)?;
    Ok(journal)
}
