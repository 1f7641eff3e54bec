//! The replay of an input.
ghost use Rattle.std.specs.Prelude.{◌≤◌, IfOk, IfErr};
ghost use Rattle.stream_replay.specs.Source.{EndsReplay, IsReplayed, ReadsBytes};

use crate::fault::ReplayFault;
use crate::replay::Replayed;
use crate::stream::Streaming;
use delta_base::Source;
use sink_writing::PIECE;
use std::alloc::Global;

/// The most bytes of a stream.
pub const STREAM_LIMIT: usize = 268_435_456;

/// Reads a stream to its end, and answers the dataset that its patches make from the empty one.
///
/// The first fault of the text comes before one of the chain. That the input has more than
/// `STREAM_LIMIT` bytes comes before both, and then at most a piece more is read.
///
/// It reads the input once. Of the input it holds a piece and what stands behind the last row that
/// was read, but for white space and the lines of comments (clause `kept` of `Streaming::feed`). Of
/// the patches it holds the ids and a log of the lines that they add and delete; as long as there
/// is no fault, this has at most twice the bytes of the dataset's lines behind one of the patches,
/// and 20 MiB (clause `memory`). Behind a fault of the chain it holds none of them.
pub fn replay_source<S: Source>(alloc: Global, input: &mut S) -> Result<Replayed, ReplayFault>
    ensures ok { IfOk result (λ replayed.
        ReadsBytes (S.left input.old) (S.left input.new) (IsReplayed replayed)) }
    ensures fault { IfErr result
        (EndsReplay (S.left input.old) (S.left input.new) (S.faults input.old)
        (S.faults input.new)) }
    ensures never_falls { S.faults input.old ≤ S.faults input.new }
{
    let mut stream = Streaming::new(alloc);
    let mut piece = [0u8; PIECE];
    let mut length: usize = 0;
    'reading: while length <= STREAM_LIMIT {
        let count = match input.read(&mut piece) {
            Ok(count) => count,
            Err(_) => return Err(ReplayFault::Failed),
        };
        if count == 0 {
            return stream.finish(alloc);
        }
        stream.feed(alloc, &piece[..count])?;
        length += count;
    }
    Err(ReplayFault::TooLong)
}
