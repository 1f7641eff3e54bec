//! The next reply of a connection.
ghost use Rattle.std.specs.Prelude.{◌≡◌, ◌≤◌, ◌++◌, ℕ, List, IsErrOf};
ghost use Rattle.std.specs.Io.KnownBytes.{Consumes};
ghost use Rattle.delta_base.specs.Outside.{Rose};
ghost use Rattle.http_heads.specs.declared.message.RawReply.{RawReply as Reply};
ghost use Rattle.http_text.specs.Taken.{GaveReplies};
ghost use Rattle.delta_client.specs.Asking.{NextReplyIs};

use crate::fault::AskFault;
use delta_base::Link;
use http_heads::RawReply;
use http_text::ReplyReader;

/// How many bytes are read at once.
const PIECE: usize = 8_192;

/// Reads until a whole reply is there, and takes it. The reader keeps the bytes behind it.
pub(crate) fn next_reply<L: Link>(
    link: &mut L,
    reader: &mut ReplyReader,
) -> Result<RawReply, AskFault>
    ensures next { (given : List ℕ) (taken : List Reply) → GaveReplies given taken reader.old
        → (read : List ℕ) × Consumes (L.left link.old) (L.left link.new) read
        × NextReplyIs (given ++ read) taken (L.left link.new) reader.new result }
    ensures sent { L.sent link.new ≡ L.sent link.old }
    ensures cause { IsErrOf result AskFault.LinkFault
        → Rose (L.faults link.old) (L.faults link.new) }
    ensures never_falls { L.faults link.old ≤ L.faults link.new }
{
    let mut piece = [0; PIECE];
    let mut fed = reader.feed(&[]);
    for _round in 0..u64::MAX {
        match reader.take() {
            Some(reply) => return Ok(reply),
            None => {}
        }
        match fed {
            Ok(()) => {}
            Err(fault) => return Err(AskFault::of_frame(fault)),
        }
        let count = match link.read(&mut piece) {
            Ok(count) => count,
            Err(_) => return Err(AskFault::LinkFault),
        };
        if count == 0 {
            return Err(AskFault::CutShort);
        }
        fed = reader.feed(&piece[..count]);
    }
    Err(AskFault::OutOfMemory)
}
