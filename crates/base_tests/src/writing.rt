//! Short texts together, long ones by themselves, and a sink that fails.
use delta_base::{Calls, Failed, Listing, MemSink, Sink};
use sink_writing::{PIECE, Room, write_all};
use std::alloc::{AllocError, Global};
use std::process::Abort;
use std::test::Fail;

fn sink(alloc: Global, failing: &[u64]) -> Result<MemSink, AllocError> {
    let calls: Calls = Listing::from_vec(Vec::from_slice(alloc, failing)?);
    Ok(MemSink::new(alloc, calls))
}

/// Texts that are put into a room; how many bytes go out by themselves, and how many in all; and the
/// first ones.
static ROWS: [(&[&[u8]], usize, usize, &[u8]); 2] = [
    (&[b"ab", b"cd"], 0, 4, b"abcd"),
    // The second text is longer than a room, and drives it out.
    (&[b"ab", &[b'x'; PIECE]], PIECE + 2, PIECE + 2, b"abx"),
];

fn put(room: &mut Room, out: &mut MemSink, texts: &[&[u8]]) -> Result<(), Failed> {
    for text in texts {
        room.put(out, text)?;
    }
    Ok(())
}

/// How many bytes went out by themselves.
fn write(alloc: Global, out: &mut MemSink, texts: &[&[u8]]) -> Result<usize, Fail> {
    let mut room = Room::new(alloc)?;
    let put = put(&mut room, out, texts);
    let count = out.written().len();
    let written = room.write_out(out);
    put?;
    written?;
    Ok(count)
}

fn are_written(
    rt: &impl Abort,
    alloc: Global,
    texts: &[&[u8]],
    (early, count): (usize, usize),
    front: &[u8],
) -> Result<(), Fail> {
    let mut out = sink(alloc, &[])?;
    let found = write(alloc, &mut out, texts);
    let same = out.written().len() == count && out.written().starts_with(front);
    drop(out);
    assert!(rt; found? == early && same, "{count} bytes");
    Ok(())
}

#[test]
fn short_texts_are_written_together_and_long_ones_alone(rt: HostRuntime) -> Result<(), Fail> {
    for (texts, early, count, front) in ROWS {
        are_written(&rt, rt.alloc(), texts, (early, count), front)?;
    }
    let mut out = sink(rt.alloc(), &[0])?;
    let written = write_all(&mut out, b"ab");
    let faults = out.faults();
    drop(out);
    assert!(rt; written.is_err() && faults == 1);
    Ok(())
}
