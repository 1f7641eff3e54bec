//! Journals whose payloads are patches of the generator.
use delta_base::OutOfMemory;
use std::alloc::Global;
use stream_generator::push_patch;

/// The journal of this number with the generator's first patches, so many.
pub(crate) fn generated(alloc: Global, number: u32, count: u32) -> Result<Vec<u8>, OutOfMemory> {
    let mut bytes = Vec::new(alloc);
    bytes.extend_from_slice(b"RDJ2")?;
    bytes.extend_from_slice(&number.to_be_bytes())?;
    for made in 0..count {
        add_generated(alloc, &mut bytes, made)?;
    }
    bytes.push(0)?;
    Ok(bytes)
}

// Adds the patch of the generator that comes behind so many.
fn add_generated(alloc: Global, bytes: &mut Vec<u8>, made: u32) -> Result<(), OutOfMemory> {
    let mut text = Vec::new(alloc);
    let number = made.saturating_add(1);
    push_patch(&mut text, number)?;
    let length = u32::try_from(text.len()).unwrap_or(u32::MAX);
    bytes.push(1)?;
    bytes.extend_from_slice(&number.to_be_bytes())?;
    bytes.extend_from_slice(&length.to_be_bytes())?;
    bytes.extend_from_slice(&text)?;
    Ok(())
}
