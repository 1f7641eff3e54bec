//! Replies from a stream of bytes that comes in any pieces.
use crate::reader::{CutShort, MessageReader};
use http_heads::{FrameFault, Kind, Message, RawReply};
use std::alloc::Global;
use std::marker::Model;

/// Takes a stream of replies in pieces. Those with status 100 are passed over.
#[derive(Drop)]
pub struct ReplyReader {
    reader: MessageReader,
}

impl Model for ReplyReader {
    ghost use Rattle.http_text.specs.declared.reader.MessageReader.{MessageReader};

    ghost Value = { MessageReader };

    ghost use Rattle.std.specs.Prelude.{◌≡◌};
    ghost use Rattle.http_text.specs.Readers.{IsReader};
    ghost use Rattle.http_heads.specs.declared.message.Kind.TheVariants as kinds;

    ghost view = { λ r. r.reader };

    ghost invariant = { λ r. (r.reader.kind ≡ kinds.Replies) × IsReader r.reader };
}

impl ReplyReader {
    ghost use Rattle.std.specs.Prelude.{◌≡◌, ◌++◌, ◌∷◌, ℕ, List, [], map, None};
    ghost use Rattle.std.specs.Prelude.{Some, IfErr, IfNone, IfSome, OnErr, OnOk};
    ghost use Rattle.http_messages.specs.Messages.{ReadsMessages, between, inside};
    ghost use Rattle.http_text.specs.Readers.{Decides, fault_of, waiting};
    ghost use Rattle.http_text.specs.Taken.{GaveReplies, reply_messages, taken_after};
    ghost use Rattle.http_heads.specs.declared.framing.FrameFault.{FrameFault as Fault};
    ghost use Rattle.http_heads.specs.declared.message.Kind.TheVariants as kinds;
    ghost use Rattle.http_heads.specs.declared.message.Message.TheVariants as forms;
    ghost use Rattle.http_heads.specs.declared.message.RawReply.{RawReply as Taken};

    /// A reader that was given no bytes.
    pub fn new(alloc: Global) -> ReplyReader
        ensures stands { GaveReplies [] [] result }
        ensures fault { fault_of result ≡ None }
    {
        ReplyReader {
            reader: MessageReader::new(alloc, Kind::Replies),
        }
    }

    /// Takes the next piece. After a fault it answers that fault again.
    pub fn feed(&mut self, piece: &[u8]) -> Result<(), FrameFault>
        // The reader then stands for the bytes so far and this piece.
        ensures stands { (bytes : List ℕ) (taken : List Taken) → GaveReplies bytes taken self.old
            → GaveReplies (bytes ++ piece.now) taken self.new }
        // The replies are then those of all the bytes, and the fault is theirs, however
        // they were cut.
        ensures decides { (bytes : List ℕ) (taken : List Taken) → GaveReplies bytes taken self.old
            → Decides kinds.Replies (bytes ++ piece.now)
            (reply_messages taken ++ waiting self.new) result }
        ensures ok { OnOk result (fault_of self.new ≡ None) }
        ensures fault { IfErr result (λ fault. fault_of self.new ≡ Some fault) }
        // A fault that was met is answered again, want of memory among them.
        ensures again { (met : Fault) → fault_of self.old ≡ Some met
            → (result ≡ Err met) × (fault_of self.new ≡ Some met) }
    {
        self.reader.feed(piece)
    }

    /// The next whole reply.
    pub fn take(&mut self) -> Option<RawReply>
        ensures none { IfNone result (waiting self.old ≡ []) }
        ensures empty { IfNone result (waiting self.new ≡ []) }
        ensures first { IfSome result (λ reply.
            waiting self.old ≡ forms.Reply reply ∷ waiting self.new) }
        ensures rest { (bytes : List ℕ) (taken : List Taken) → GaveReplies bytes taken self.old
            → GaveReplies bytes (taken_after taken result) self.new }
        ensures fault { fault_of self.new ≡ fault_of self.old }
    {
        match self.reader.take() {
            Some(Message::Reply(reply)) => Some(reply),
            Some(Message::Request(_)) => unreachable!(),
            None => None,
        }
    }

    /// Tests that the stream may end here.
    pub fn finish(&self) -> Result<(), CutShort>
        requires { fault_of self.now ≡ None }
        ensures between { OnOk result ((bytes : List ℕ) (taken : List Taken)
            → GaveReplies bytes taken self.now
            → ReadsMessages kinds.Replies bytes
            (reply_messages taken ++ waiting self.now) between) }
        ensures inside { OnErr result ((bytes : List ℕ) (taken : List Taken)
            → GaveReplies bytes taken self.now
            → ReadsMessages kinds.Replies bytes (reply_messages taken ++ waiting self.now) inside) }
    {
        self.reader.finish()
    }
}
