//! Sources, sinks and links, which fail in mid-stream.
use delta_base::{
    Bytes, Calls, Failed, Link, Listing, MemLink, MemSink, MemSource, Sink, Source, StdLink,
    StdSink, StdSource,
};
use std::alloc::{AllocError, Global};
use std::io::Cursor;
use std::process::Abort;
use std::test::Fail;

fn calls(alloc: Global, numbers: &[u64]) -> Result<Calls, AllocError> {
    Ok(Listing::from_vec(Vec::from_slice(alloc, numbers)?))
}

/// What reads of `abcde` answer in pieces of two, the second of which fails, with their buffers.
static READS: [(Result<usize, Failed>, [u8; 4]); 5] = [
    (Ok(2), *b"ab.."),
    (Err(Failed), *b"...."),
    (Ok(2), *b"cd.."),
    (Ok(1), *b"e..."),
    (Ok(0), *b"...."),
];

fn gives(rt: &impl Abort, source: &mut MemSource) {
    for (place, (answer, bytes)) in READS.iter().enumerate() {
        let mut into = *b"....";
        assert!(rt; source.read(&mut into) == *answer, "at {place}");
        assert!(rt; into == *bytes, "at {place}");
    }
    assert!(rt; source.read(&mut []) == Ok(0));
    assert!(rt; source.faults() == 1);
}

/// What writes answer, the second of which fails.
static WRITES: [(&[u8], Result<usize, Failed>); 3] = [
    (b"ab", Ok(2)),
    (b"cd", Err(Failed)),
    (b"ef", Ok(2)),
];

fn takes(rt: &impl Abort, sink: &mut MemSink) {
    for (place, (bytes, answer)) in WRITES.iter().enumerate() {
        assert!(rt; sink.write(bytes) == *answer, "at {place}");
    }
    assert!(rt; sink.written() == b"abef".as_slice());
    assert!(rt; sink.faults() == 1);
}

#[test]
fn a_source_and_a_sink_fail_in_mid_stream(rt: HostRuntime) -> Result<(), Fail> {
    let content = Bytes::from_slice(rt.alloc(), b"abcde")?;
    let mut source = MemSource::new(content, 2, calls(rt.alloc(), &[1])?);
    gives(&rt, &mut source);
    drop(source);
    let mut sink = MemSink::new(rt.alloc(), calls(rt.alloc(), &[1])?);
    takes(&rt, &mut sink);
    drop(sink);
    Ok(())
}

/// A call of a link, with its answer.
enum Step {
    /// A read, with its buffer.
    Read(Result<usize, Failed>, [u8; 4]),
    Write(&'static [u8], Result<usize, Failed>),
}

/// The calls 1 and 3 fail.
static STEPS: [Step; 7] = [
    Step::Read(Ok(3), *b"abc."),
    Step::Write(b"xy", Err(Failed)),
    Step::Write(b"xy", Ok(2)),
    Step::Read(Err(Failed), *b"...."),
    Step::Read(Ok(2), *b"de.."),
    Step::Write(b"z", Ok(1)),
    Step::Read(Ok(0), *b"...."),
];

fn is_answered(link: &mut MemLink, step: &Step) -> bool {
    match step {
        Step::Read(answer, bytes) => {
            let mut into = *b"....";
            link.read(&mut into) == *answer && into == *bytes
        }
        Step::Write(bytes, answer) => link.write(bytes) == *answer,
    }
}

fn serves(rt: &impl Abort, link: &mut MemLink) {
    for (place, step) in STEPS.iter().enumerate() {
        assert!(rt; is_answered(link, step), "at {place}");
    }
    assert!(rt; link.faults() == 2);
    assert!(rt; link.sent() == b"xyz".as_slice());
}

#[test]
fn a_link_reads_and_writes_with_one_count_of_calls(rt: HostRuntime) -> Result<(), Fail> {
    let content = Bytes::from_slice(rt.alloc(), b"abcde")?;
    let mut link = MemLink::new(rt.alloc(), content, 3, calls(rt.alloc(), &[1, 3])?);
    serves(&rt, &mut link);
    drop(link);
    Ok(())
}

#[test]
fn a_reader_a_writer_and_a_stream_of_std_serve(rt: HostRuntime) -> Result<(), Fail> {
    let mut source = StdSource::new(b"abc".as_slice());
    let mut into = [0; 2];
    assert!(rt; source.read(&mut into) == Ok(2));
    assert!(rt; source.read(&mut into) == Ok(1));
    assert!(rt; source.read(&mut into) == Ok(0));
    assert!(rt; source.faults() == 0);
    let mut room = [0; 2];
    let mut sink = StdSink::new(room.as_mut_slice());
    assert!(rt; sink.write(b"abc") == Ok(2));
    assert!(rt;
        sink.write(b"c") == Err(Failed),
        "a write that takes nothing failed"
    );
    assert!(rt; sink.faults() == 1);
    let mut link = StdLink::new(Cursor::new(Vec::from_slice(rt.alloc(), b"abc")?));
    assert!(rt; link.read(&mut into) == Ok(2));
    assert!(rt; link.write(b"xy") == Ok(2));
    assert!(rt; link.read(&mut into) == Ok(0));
    assert!(rt; link.faults() == 0);
    drop(link);
    Ok(())
}
