//! Requests from a stream of bytes that comes in any pieces.
use crate::reader::{CutShort, MessageReader};
use http_heads::{FrameFault, Kind, Message, RawRequest};
use std::alloc::Global;
use std::marker::Model;

/// Takes a stream of requests in pieces.
#[derive(Drop)]
pub struct RequestReader {
    reader: MessageReader,
}

impl Model for RequestReader {
    ghost use Rattle.http_text.specs.declared.reader.MessageReader.{MessageReader};

    ghost Value = { MessageReader };

    ghost use Rattle.std.specs.Prelude.{◌≡◌};
    ghost use Rattle.http_text.specs.Readers.{IsReader};
    ghost use Rattle.http_heads.specs.declared.message.Kind.TheVariants as kinds;

    ghost view = { λ r. r.reader };

    ghost invariant = { λ r. (r.reader.kind ≡ kinds.Requests) × IsReader r.reader };
}

impl RequestReader {
    ghost use Rattle.std.specs.Prelude.{◌≡◌, ◌⊎◌, ◌||◌, ◌++◌, ◌∷◌, ℕ, false};
    ghost use Rattle.std.specs.Prelude.{List, [], map, None, Some, IfErr, IfNone};
    ghost use Rattle.std.specs.Prelude.{IfSome, IsTrue, MatchOption, OnErr, OnOk};
    ghost use Rattle.http_messages.specs.Messages.{ReadsMessages, between, inside};
    ghost use Rattle.http_text.specs.Readers.{Decides, fault_of, waiting, was_told};
    ghost use Rattle.http_text.specs.Taken.{AsksAtFront, GaveRequests};
    ghost use Rattle.http_text.specs.Taken.{request_messages, taken_after};
    ghost use Rattle.http_heads.specs.declared.framing.FrameFault.{FrameFault as Fault};
    ghost use Rattle.http_heads.specs.declared.message.Kind.TheVariants as kinds;
    ghost use Rattle.http_heads.specs.declared.framing.FrameFault.TheVariants.{OutOfMemory};
    ghost use Rattle.http_heads.specs.declared.message.Message.TheVariants as forms;
    ghost use Rattle.http_heads.specs.declared.message.RawRequest.{RawRequest as Taken};

    /// A reader that was given no bytes.
    pub fn new(alloc: Global) -> RequestReader
        ensures stands { GaveRequests [] [] result }
        ensures fault { fault_of result ≡ None }
        ensures told { was_told result ≡ false }
    {
        RequestReader {
            reader: MessageReader::new(alloc, Kind::Requests),
        }
    }

    /// Takes the next piece. After a fault it answers that fault again.
    pub fn feed(&mut self, piece: &[u8]) -> Result<(), FrameFault>
        // The reader then stands for the bytes so far and this piece.
        ensures stands { (bytes : List ℕ) (taken : List Taken) → GaveRequests bytes taken self.old
            → GaveRequests (bytes ++ piece.now) taken self.new }
        // The requests are then those of all the bytes, and the fault is theirs, however
        // they were cut.
        ensures decides { (bytes : List ℕ) (taken : List Taken) → GaveRequests bytes taken self.old
            → Decides kinds.Requests (bytes ++ piece.now)
            (request_messages taken ++ waiting self.new) result }
        ensures ok { OnOk result (fault_of self.new ≡ None) }
        ensures fault { IfErr result (λ fault. fault_of self.new ≡ Some fault) }
        // A fault that was met is answered again, want of memory among them.
        ensures again { (met : Fault) → fault_of self.old ≡ Some met
            → (result ≡ Err met) × (fault_of self.new ≡ Some met) }
        ensures told { was_told self.new ≡ was_told self.old }
    {
        self.reader.feed(piece)
    }

    /// The next whole request.
    pub fn take(&mut self) -> Option<RawRequest>
        ensures none { IfNone result (waiting self.old ≡ []) }
        ensures empty { IfNone result (waiting self.new ≡ []) }
        ensures first { IfSome result (λ request.
            waiting self.old ≡ forms.Request request ∷ waiting self.new) }
        ensures rest { (bytes : List ℕ) (taken : List Taken) → GaveRequests bytes taken self.old
            → GaveRequests bytes (taken_after taken result) self.new }
        ensures fault { fault_of self.new ≡ fault_of self.old }
        // Of the next head nothing was told.
        ensures told { MatchOption result (was_told self.new ≡ was_told self.old)
            (λ _. was_told self.new ≡ false) }
    {
        match self.reader.take() {
            Some(Message::Request(request)) => Some(request),
            Some(Message::Reply(_)) => unreachable!(),
            None => None,
        }
    }

    /// Whether the head at the front asks for 100 Continue before its body: that of the next
    /// request, or else of the rest behind the last one. It answers so once for each head, also
    /// where the body behind it has a fault.
    pub fn take_expect(&mut self) -> bool
        ensures stands { (bytes : List ℕ) (taken : List Taken) → GaveRequests bytes taken self.old
            → GaveRequests bytes taken self.new }
        ensures told { was_told self.new ≡ (was_told self.old || result) }
        ensures once { IsTrue result → was_told self.old ≡ false }
        ensures asks { IsTrue result → (bytes : List ℕ) (taken : List Taken)
            → GaveRequests bytes taken self.old → AsksAtFront bytes taken }
        // Where memory ran out before a head was read, nothing more is known of it.
        ensures quiet { result ≡ false → was_told self.old ≡ false
            → (bytes : List ℕ) (taken : List Taken) → GaveRequests bytes taken self.old
            → ((waiting self.old ≡ []) × (fault_of self.old ≡ Some OutOfMemory))
            ⊎ ¬ (AsksAtFront bytes taken) }
        ensures waiting { waiting self.new ≡ waiting self.old }
        ensures fault { fault_of self.new ≡ fault_of self.old }
    {
        self.reader.take_expect()
    }

    /// Tests that the stream may end here.
    pub fn finish(&self) -> Result<(), CutShort>
        requires { fault_of self.now ≡ None }
        ensures between { OnOk result ((bytes : List ℕ) (taken : List Taken)
            → GaveRequests bytes taken self.now
            → ReadsMessages kinds.Requests bytes
            (request_messages taken ++ waiting self.now) between) }
        ensures inside { OnErr result ((bytes : List ℕ) (taken : List Taken)
            → GaveRequests bytes taken self.now
            → ReadsMessages kinds.Requests bytes
            (request_messages taken ++ waiting self.now) inside) }
    {
        self.reader.finish()
    }
}
