//! Messages from a stream of bytes that comes in any pieces.
ghost use Rattle.std.specs.Prelude.{◌≡◌, ◌⊎◌, ◌||◌, ◌+◌, ◌<◌, ◌≤◌, ◌++◌, ◌∷◌, length};
ghost use Rattle.std.specs.Prelude.{take, false, List, ℕ, [], IfErr, IfNone, IfOk, IfSome};
ghost use Rattle.std.specs.Prelude.{IsTrue, MatchOption, OnErr, OnOk, Some, None, Err};
ghost use Rattle.http_text.specs.Readers.{AdvanceIs, BeginsBody, CanGoOn, Decides, EndsHead};
ghost use Rattle.http_text.specs.Readers.{HoldsRest, HoldsMessages, HoldsHead, HoldsStage};
ghost use Rattle.http_text.specs.Readers.{IsHeadOfMessage};
ghost use Rattle.http_text.specs.Readers.{IsReader, ReadsPiece, ReaderStandsFor, asks_first};
ghost use Rattle.http_text.specs.Readers.{fault_of};
ghost use Rattle.http_text.specs.Readers.{stage_expects, stage_fault, waiting, was_told};
ghost use Rattle.http_messages.specs.Messages.{AreMessages, End, ReadsMessages, between};
ghost use Rattle.http_messages.specs.Messages.{faulty, inside};
ghost use Rattle.http_text.specs.Taken.{AsksBehind, taken_after};
ghost use Rattle.http_heads.specs.declared.progress.HeadProgress.{HeadProgress as At};
ghost use Rattle.http_heads.specs.declared.framing.FrameFault.{FrameFault as Fault};
ghost use Rattle.http_heads.specs.declared.framing.FrameFault.TheVariants.{OutOfMemory};
ghost use Rattle.http_heads.specs.declared.message.Kind.{Kind};
ghost use Rattle.http_heads.specs.declared.message.Message.{Message};
ghost use Rattle.http_heads.specs.declared.message.Message.TheVariants as forms;
ghost use Rattle.http_messages.specs.Stages.{HeadStepIs, HoldsPart, IsSomePart, PartStepIs};
ghost use Rattle.http_heads.specs.declared.framing.Framing as framings;

use delta_base::Bytes;
use http_heads::{FrameFault, Framing, HeadProgress, Kind, Message, RawReply, RawRequest};
use http_messages::{
    BodyPart, HeadEnd, LineAt, MOST_HEAD, step_content, step_content_end, step_head, step_line,
    step_sized, step_trailers,
};
use httparse::spans::HeaderSpan;
use std::alloc::Global;
use std::collections::VecDeque;
use std::mem;

/// What broke a stream.
#[derive(Clone, Copy, Debug)]
pub struct Broken {
    pub fault: FrameFault,
    /// The head before the fault is whole and asks for 100 Continue.
    pub expects: bool,
}

/// How far the message has come of which the end has not.
#[derive(Drop)]
pub enum Stage {
    /// A head, which may have so many bytes.
    Head {
        room: usize,
        progress: HeadProgress,
    },
    Body {
        message: Message,
        body: Vec<u8>,
        part: BodyPart,
    },
    Faulty(Broken),
}

/// Takes a stream of messages in pieces.
#[derive(Drop)]
pub struct MessageReader {
    alloc: Global,
    kind: Kind,
    headers: Vec<HeaderSpan>,
    pending: Vec<u8>,
    stage: Stage,
    queue: VecDeque<Message>,
    told: bool,
}

impl Stage {
    /// Whether the head behind which it is asks for 100 Continue.
    fn expects(&self) -> bool
        ensures { result ≡ stage_expects self.now }
    {
        match self {
            Stage::Head { .. } => false,
            Stage::Body { message, .. } => message.expects(),
            Stage::Faulty(broken) => broken.expects,
        }
    }

    /// Adds a piece to a body that goes on behind it, where its bytes have room. The stage stays in
    /// place, so small pieces cost little.
    fn extend_body(&mut self, piece: &[u8]) -> bool
        ensures same { result ≡ false → self.new ≡ self.old }
        ensures good { IsTrue result → stage_fault self.old ≡ None }
        ensures held { IsTrue result
            → (kind : Kind) (pending rest : List ℕ) → HoldsStage kind self.old pending rest
            → HoldsRest kind self.new pending (rest ++ piece.now) }
    {
        match self {
            Stage::Body { body, part, .. } => match part {
                BodyPart::Sized { left } => add_within(body, left, piece),
                BodyPart::Content { left } => add_within(body, left, piece),
                _ => false,
            },
            _ => false,
        }
    }
}

// Adds a piece to bytes of which more are left, where they have room.
fn add_within(bytes: &mut Vec<u8>, left: &mut usize, piece: &[u8]) -> bool
    ensures same { result ≡ false → (bytes.new ≡ bytes.old) × (left.new ≡ left.old) }
    ensures bytes { IsTrue result → bytes.new.items ≡ bytes.old.items ++ piece.now }
    ensures left { IsTrue result → (0 < left.new) × (length piece.now + left.new ≡ left.old) }
{
    if piece.len() >= *left || piece.len() > bytes.capacity() - bytes.len() {
        return false;
    }
    match bytes.extend_from_slice(piece) {
        Ok(()) => {
            *left -= piece.len();
            true
        }
        Err(_) => unreachable!(),
    }
}

// Where no byte of a message has come.
fn at_start() -> Stage
    ensures held { (kind : Kind) → HoldsRest kind result [] [] }
    ensures fault { stage_fault result ≡ None }
{
    Stage::Head {
        room: MOST_HEAD,
        progress: HeadProgress::Blank,
    }
}

// What follows a whole head: its body, or the next message.
fn begin_body(
    alloc: Global,
    queue: &mut VecDeque<Message>,
    message: Message,
    framing: Framing,
) -> Result<Stage, FrameFault>
    ensures { (kind : Kind) (text : List ℕ) → IsHeadOfMessage kind text message framing
        → BeginsBody kind text queue.old.items queue.new.items result }
{
    match framing {
        Framing::Chunked => Ok(Stage::Body {
            message,
            body: Vec::new(alloc),
            part: BodyPart::Line {
                at: LineAt::Unknown,
            },
        }),
        Framing::Sized(size) => {
            if size == 0 {
                queue.push_back(message)?;
                return Ok(at_start());
            }
            // Its bytes are kept where they stay, so none is moved while it comes.
            let left = size as usize;
            Ok(Stage::Body {
                message,
                body: Vec::with_capacity(alloc, left)?,
                part: BodyPart::Sized { left },
            })
        }
    }
}

// Reads on in a body.
fn step_part(
    alloc: Global,
    part: BodyPart,
    body: &mut Vec<u8>,
    pending: &mut Vec<u8>,
    headers: &mut Vec<HeaderSpan>,
    piece: &[u8],
) -> Result<(usize, Option<BodyPart>), FrameFault>
    requires piece { 0 < length piece.now }
    requires held { IsSomePart part body.old.items pending.old.items }
    ensures { (framing : framings.Framing) (behind : List ℕ)
        → HoldsPart part body.old.items pending.old.items framing behind
        → PartStepIs framing behind piece.now body.new.items pending.new.items result }
{
    match part {
        BodyPart::Sized { left } => step_sized(body, left, piece),
        BodyPart::Line { at } => step_line(body.len(), at, pending, piece),
        BodyPart::Content { left } => step_content(body, left, piece),
        BodyPart::ContentEnd => step_content_end(pending, piece),
        BodyPart::Trailers { progress } => step_trailers(alloc, progress, pending, headers, piece),
    }
}

// The message with its body. What is kept of it takes no more room than its bytes.
fn with_body(message: Message, mut body: Vec<u8>) -> Message
    ensures request { (request : RawRequest) → message ≡ forms.Request request
        → result ≡ forms.Request (record request { body = body.items }) }
    ensures reply { (reply : RawReply) → message ≡ forms.Reply reply
        → result ≡ forms.Reply (record reply { body = body.items }) }
{
    body.shrink_to_fit();
    let body = Bytes::from_vec(body);
    match message {
        Message::Request(request) => Message::Request(RawRequest { body, ..request }),
        Message::Reply(reply) => Message::Reply(RawReply { body, ..reply }),
    }
}

// What follows a head's end: more of the head, the next one, or the body.
fn after_head(
    alloc: Global,
    room: usize,
    queue: &mut VecDeque<Message>,
    end: HeadEnd,
) -> Result<Stage, FrameFault>
    ensures { (kind : Kind) (rest old new piece : List ℕ) (used : ℕ) (progress : At)
        → HoldsHead kind rest room progress old
        → HeadStepIs kind room old new piece (Ok (used, end))
        → EndsHead kind (rest ++ take used piece) new queue.old.items queue.new.items result }
{
    match end {
        HeadEnd::Open { progress } => Ok(Stage::Head { room, progress }),
        HeadEnd::Interim { left } => {
            if left == 0 {
                return Err(FrameFault::HeadTooLong);
            }
            Ok(Stage::Head {
                room: left,
                progress: HeadProgress::Blank,
            })
        }
        HeadEnd::Whole { message, framing } => begin_body(alloc, queue, message, framing),
    }
}

// Reads on, and answers how many bytes of the piece belong to this message, and where it then is.
fn advance(
    alloc: Global,
    kind: Kind,
    stage: Stage,
    pending: &mut Vec<u8>,
    headers: &mut Vec<HeaderSpan>,
    queue: &mut VecDeque<Message>,
    piece: &[u8],
) -> Result<(usize, Stage), FrameFault>
    requires piece { 0 < length piece.now }
    requires held { CanGoOn kind stage pending.old.items }
    ensures { (rest : List ℕ) → HoldsRest kind stage pending.old.items rest
        → AdvanceIs kind (stage_expects stage) rest piece.now queue.old.items
        queue.new.items pending.new.items result }
{
    match stage {
        Stage::Faulty(broken) => Err(broken.fault),
        Stage::Head { room, progress } => {
            let (used, end) = step_head(alloc, kind, room, progress, pending, headers, piece)?;
            let stage = after_head(alloc, room, queue, end)?;
            Ok((used, stage))
        }
        Stage::Body {
            message,
            mut body,
            part,
        } => {
            let (used, next) = step_part(alloc, part, &mut body, pending, headers, piece)?;
            match next {
                Some(part) => Ok((
                    used,
                    Stage::Body {
                        message,
                        body,
                        part,
                    },
                )),
                None => {
                    queue.push_back(with_body(message, body))?;
                    Ok((used, at_start()))
                }
            }
        }
    }
}

// Reads a piece to its end, or to a fault.
fn read_piece(
    alloc: Global,
    kind: Kind,
    stage: Stage,
    pending: &mut Vec<u8>,
    headers: &mut Vec<HeaderSpan>,
    queue: &mut VecDeque<Message>,
    piece: &[u8],
) -> Result<Stage, Broken>
    requires held { CanGoOn kind stage pending.old.items }
    ensures held { IfOk result (λ next. CanGoOn kind next pending.new.items) }
    ensures read { (bytes : List ℕ) (taken : List Message)
        → HoldsMessages kind bytes taken queue.old.items stage pending.old.items
        → ReadsPiece kind (bytes ++ piece.now) taken queue.new.items pending.new.items result }
{
    let mut stage = stage;
    let mut left = piece;
    while !left.is_empty() {
        let expects = stage.expects();
        match advance(alloc, kind, stage, pending, headers, queue, left) {
            Ok((used, next)) => {
                stage = next;
                left = &left[used..];
            }
            Err(fault) => return Err(Broken { fault, expects }),
        }
    }
    Ok(stage)
}

/// The stream ends inside a message.
#[derive(Clone, Copy, Debug, PartialEq, Eq)]
pub struct CutShort;

impl MessageReader {
    /// A reader that was given no bytes.
    pub fn new(alloc: Global, kind: Kind) -> MessageReader
        ensures kind { result.kind ≡ kind }
        ensures stands { ReaderStandsFor kind [] [] result }
        ensures fault { fault_of result ≡ None }
        ensures told { was_told result ≡ false }
    {
        MessageReader {
            alloc,
            kind,
            headers: Vec::new(alloc),
            pending: Vec::new(alloc),
            stage: at_start(),
            queue: VecDeque::new(alloc),
            told: false,
        }
    }

    /// Takes the next piece. After a fault it answers that fault again.
    pub fn feed(&mut self, piece: &[u8]) -> Result<(), FrameFault>
        requires { IsReader self.old }
        ensures kind { self.new.kind ≡ self.old.kind }
        ensures reader { IsReader self.new }
        // The reader then stands for the bytes so far and this piece.
        ensures stands { (bytes : List ℕ) (taken : List Message)
            → ReaderStandsFor self.old.kind bytes taken self.old
            → ReaderStandsFor self.old.kind (bytes ++ piece.now) taken self.new }
        // The messages are then those of all the bytes, and the fault is theirs, however
        // they were cut.
        ensures decides { (bytes : List ℕ) (taken : List Message)
            → ReaderStandsFor self.old.kind bytes taken self.old
            → Decides self.old.kind (bytes ++ piece.now) (taken ++ waiting self.new) result }
        ensures ok { OnOk result (fault_of self.new ≡ None) }
        ensures fault { IfErr result (λ fault. fault_of self.new ≡ Some fault) }
        // A fault that was met is answered again, want of memory among them.
        ensures again { (met : Fault) → fault_of self.old ≡ Some met
            → (result ≡ Err met) × (fault_of self.new ≡ Some met) }
        ensures told { was_told self.new ≡ was_told self.old }
    {
        if self.stage.extend_body(piece) {
            return Ok(());
        }
        let stage = mem::replace(
            &mut self.stage,
            Stage::Faulty(Broken {
                fault: FrameFault::OutOfMemory,
                expects: false,
            }),
        );
        if let Stage::Faulty(broken) = stage {
            self.stage = Stage::Faulty(broken);
            return Err(broken.fault);
        }
        match read_piece(
            self.alloc,
            self.kind,
            stage,
            &mut self.pending,
            &mut self.headers,
            &mut self.queue,
            piece,
        ) {
            Ok(stage) => {
                self.stage = stage;
                Ok(())
            }
            Err(broken) => {
                self.stage = Stage::Faulty(broken);
                Err(broken.fault)
            }
        }
    }

    /// The next whole message.
    pub fn take(&mut self) -> Option<Message>
        requires { IsReader self.old }
        ensures kind { self.new.kind ≡ self.old.kind }
        ensures none { IfNone result (waiting self.old ≡ []) }
        ensures empty { IfNone result (waiting self.new ≡ []) }
        ensures first { IfSome result (λ message. waiting self.old ≡ message ∷ waiting self.new) }
        ensures rest { (bytes : List ℕ) (taken : List Message)
            → ReaderStandsFor self.old.kind bytes taken self.old
            → ReaderStandsFor self.old.kind bytes (taken_after taken result) self.new }
        ensures fault { fault_of self.new ≡ fault_of self.old }
        ensures reader { IsReader self.new }
        ensures told { MatchOption result (was_told self.new ≡ was_told self.old)
            (λ _. was_told self.new ≡ false) }
    {
        let next = self.queue.pop_front();
        if next.is_some() {
            self.told = false;
        }
        next
    }

    // Whether the head of the next message asks for 100 Continue.
    fn expects(&self) -> bool
        ensures { result ≡ asks_first (waiting self.now) self.now.stage }
    {
        match self.queue.front() {
            Some(message) => message.expects(),
            None => self.stage.expects(),
        }
    }

    /// Whether the head of the next message, or else that of the rest behind the last one, asks for
    /// 100 Continue before its body. It answers so once for each head.
    pub fn take_expect(&mut self) -> bool
        requires { IsReader self.old }
        ensures kind { self.new.kind ≡ self.old.kind }
        ensures reader { IsReader self.new }
        ensures stands { (bytes : List ℕ) (taken : List Message)
            → ReaderStandsFor self.old.kind bytes taken self.old
            → ReaderStandsFor self.old.kind bytes taken self.new }
        ensures told { was_told self.new ≡ (was_told self.old || result) }
        ensures once { IsTrue result → was_told self.old ≡ false }
        ensures asks { IsTrue result
            → (bytes : List ℕ) (taken : List Message)
            → ReaderStandsFor self.old.kind bytes taken self.old
            → AsksBehind self.old.kind bytes taken }
        ensures quiet { result ≡ false → was_told self.old ≡ false
            → (bytes : List ℕ) (taken : List Message)
            → ReaderStandsFor self.old.kind bytes taken self.old
            → ((waiting self.old ≡ []) × (fault_of self.old ≡ Some OutOfMemory))
            ⊎ ¬ (AsksBehind self.old.kind bytes taken) }
        ensures waiting { waiting self.new ≡ waiting self.old }
        ensures fault { fault_of self.new ≡ fault_of self.old }
    {
        if self.told || !self.expects() {
            return false;
        }
        self.told = true;
        true
    }

    /// Tests that the stream may end here.
    pub fn finish(&self) -> Result<(), CutShort>
        requires { fault_of self.now ≡ None }
        ensures between { OnOk result ((bytes : List ℕ) (taken : List Message)
            → ReaderStandsFor self.now.kind bytes taken self.now
            → ReadsMessages self.now.kind bytes (taken ++ waiting self.now) between) }
        ensures inside { OnErr result ((bytes : List ℕ) (taken : List Message)
            → ReaderStandsFor self.now.kind bytes taken self.now
            → ReadsMessages self.now.kind bytes (taken ++ waiting self.now) inside) }
    {
        match self.stage {
            Stage::Head { room, .. } => {
                // Replies with status 100 may stand before the one that has not come.
                if room != MOST_HEAD {
                    return Err(CutShort);
                }
                if self.pending.is_empty() {
                    return Ok(());
                }
                Err(CutShort)
            }
            _ => Err(CutShort),
        }
    }
}

/// A stream has one reading: its messages and its end are determined by its bytes.
pub fn one_reading()
    ensures { (kind : Kind) (bytes : List ℕ) (xs ys : List Message) (end other : End)
        → ReadsMessages kind bytes xs end
        → ReadsMessages kind bytes ys other → (xs ≡ ys) × (end ≡ other) }
{}

/// Behind the messages taken a stream has one next message at most, however many of its bytes have
/// come. Where it has one, it doesn't end there and isn't at fault.
pub fn one_next_message()
    ensures same { (kind : Kind) (bytes more rest last : List ℕ) (taken : List Message)
        (x y : Message) → AreMessages kind bytes (taken ++ x ∷ []) rest
        → AreMessages kind (bytes ++ more) (taken ++ y ∷ []) last → x ≡ y }
    ensures no_end { (kind : Kind) (bytes last : List ℕ) (taken : List Message) (x : Message)
        (end : End) → AreMessages kind bytes (taken ++ x ∷ []) last
        → ReadsMessages kind bytes taken end → ⊥ }
    ensures no_fault { (kind : Kind) (bytes more last : List ℕ) (taken : List Message)
        (x : Message) (fault : Fault) → AreMessages kind (bytes ++ more) (taken ++ x ∷ []) last
        → ReadsMessages kind bytes taken (faulty fault) → ⊥ }
{}
