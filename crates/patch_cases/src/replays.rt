//! What streams make, read in pieces.
use crate::patches::tell_id;
use case_scripts::{Answer, Words};
use chain_core::ChainFault;
use delta_base::{Bytes, Calls, MemSink, MemSource, OutOfMemory};
use line_log::MadeLines;
use sink_writing::Room;
use std::alloc::Global;
use std::fmt::Write;
use stream_replay::{ReplayFault, Replayed, replay_source, write_lines};

// The calls that fail: the one of this number.
fn calls(alloc: Global, number: Option<u64>) -> Calls {
    let mut calls = Calls::new(alloc);
    if let Some(number) = number {
        let _ = calls.push(number);
    }
    calls
}

// Writes the lines to a sink whose write of this number fails, and then what it has.
fn tell_lines(
    alloc: Global,
    lines: &MadeLines,
    failing: Option<u64>,
    answer: &mut Answer,
) -> Result<(), OutOfMemory> {
    let room = Room::new(alloc)?;
    let mut out = MemSink::new(alloc, calls(alloc, failing));
    let told = write_lines(&mut out, lines, room);
    answer.push(out.written());
    drop(out);
    if told.is_err() {
        answer.push(b"write failed, ");
    }
    Ok(())
}

// Writes what a stream makes.
fn tell_made(alloc: Global, made: &Replayed, failing: Option<u64>, answer: &mut Answer) {
    if tell_lines(alloc, &made.lines, failing, answer).is_err() {
        answer.push(b"out of memory, ");
    }
    let _ = write!(
        answer,
        "patches {} quads {} head ",
        made.patches, made.quads
    );
    tell_id(made.head, answer);
}

// Writes where patches are no chain.
fn tell_break(fault: ChainFault, answer: &mut Answer) {
    match fault {
        ChainFault::Diverged {
            version,
            have,
            found,
        } => {
            let _ = write!(answer, "diverged at version {version}: have ");
            tell_id(have, answer);
            answer.push(b", found ");
            tell_id(found, answer);
        }
        ChainFault::Repeated { id, version } => {
            let _ = write!(answer, "repeated at version {version}: ");
            tell_id(Some(id), answer);
        }
    }
}

fn tell_fault(fault: ReplayFault, answer: &mut Answer) {
    let _ = match fault {
        ReplayFault::Stream { line, at, kind } => {
            write!(answer, "line {line} byte {at}: {}", kind.name())
        }
        ReplayFault::LongPatch { length, limit } => {
            write!(answer, "long patch: {length} of {limit}")
        }
        ReplayFault::Chain(fault) => {
            tell_break(fault, answer);
            Ok(())
        }
        ReplayFault::TooLong => write!(answer, "too long"),
        ReplayFault::Failed => write!(answer, "read failed"),
        ReplayFault::OutOfMemory => write!(answer, "out of memory"),
    };
}

/// How a stream is read: in pieces of at most so many bytes, and which calls fail.
#[derive(Clone, Copy)]
struct Way {
    piece: usize,
    read: Option<u64>,
    write: Option<u64>,
}

// Writes what a stream makes that is read in this way, or its fault.
fn run(alloc: Global, text: &[u8], way: Way, answer: &mut Answer) {
    let Ok(content) = Bytes::from_slice(alloc, text) else {
        return answer.push(b"out of memory");
    };
    let mut input = MemSource::new(content, way.piece.max(1), calls(alloc, way.read));
    let made = replay_source(alloc, &mut input);
    drop(input);
    match made {
        Ok(made) => {
            tell_made(alloc, &made, way.write, answer);
            drop(made);
        }
        Err(fault) => tell_fault(fault, answer),
    }
}

/// `replay TEXT`: the lines that a stream makes and how many patches and quads, or its first fault. In pieces of a byte
/// and of seven it is the same.
pub(crate) fn replay(alloc: Global, text: &[u8], answer: &mut Answer) {
    let mut whole = Answer::new(alloc);
    let way = Way {
        piece: 65_536,
        read: None,
        write: None,
    };
    run(alloc, text, way, &mut whole);
    for piece in [1, 7] {
        let mut cut = Answer::new(alloc);
        run(alloc, text, Way { piece, ..way }, &mut cut);
        if cut.bytes() != whole.bytes() {
            let _ = write!(answer, "otherwise in pieces of {piece}, ");
        }
    }
    answer.push(whole.bytes());
}

/// `once PIECE READ WRITE TEXT ..`: the same, read once in pieces of at most so many bytes, where the read and the write
/// of these numbers fail.
pub(crate) fn once(alloc: Global, words: &Words, answer: &mut Answer) {
    let way = Way {
        piece: words.number(1).unwrap_or(65_536) as usize,
        read: words.number(2),
        write: words.number(3),
    };
    run(alloc, words.bytes_from(4), way, answer);
}
