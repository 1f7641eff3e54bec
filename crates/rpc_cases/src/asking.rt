//! One call over one connection.
use crate::changes::Changes;
use crate::requests;
use crate::values::{bytes_of, calls, text_at};
use case_scripts::{Answer as Told, Words};
use delta_base::{Link, MemLink, OutOfMemory, Text};
use delta_client::{AskFault, Asked, ask, is_host};
use http_text::ReplyReader;
use rpc_answers::Answer;
use rpc_calls::Call;
use std::alloc::Global;
use std::fmt::Write;

/// How many bytes a connection gives at once where nothing else is said.
pub(crate) const WHOLE: usize = 8_192;

/// The call for the version of the log ABC.
pub(crate) fn version_call(alloc: Global) -> Result<Call, OutOfMemory> {
    let name = Text::from_str(alloc, "ABC")?;
    Ok(Call::Version { name })
}

/// A connection that gives a text in pieces, and whose call of a number fails.
pub(crate) fn link_of(alloc: Global, text: &[u8], piece: usize, number: Option<u64>) -> MemLink {
    let content = bytes_of(alloc, text);
    MemLink::new(alloc, content, piece.max(1), calls(alloc, number))
}

/// Tells why a call has no answer.
pub(crate) fn tell_fault(fault: AskFault, told: &mut Told) {
    match fault {
        AskFault::LinkFault => told.push(b"link fault"),
        AskFault::CutShort => told.push(b"cut short"),
        AskFault::NotUnderstood { at } => {
            let _ = write!(told, "not understood at {at}");
        }
        AskFault::OutOfMemory => told.push(b"out of memory"),
    }
}

/// Tells the version that an answer tells.
pub(crate) fn tell_version(answer: &Answer, told: &mut Told) {
    match answer {
        Answer::Version { version } => {
            let _ = write!(told, "version {version}");
        }
        _ => told.push(b"something else"),
    }
}

fn tell_asked(asked: Result<Asked, AskFault>, told: &mut Told) {
    match asked {
        Ok(asked) => {
            tell_version(&asked.answer, told);
            drop(asked);
        }
        Err(fault) => tell_fault(fault, told),
    }
}

// Asks over a connection.
fn ask_over(alloc: Global, link: &mut MemLink, told: &mut Told) -> Result<(), OutOfMemory> {
    let host = requests::host(alloc)?;
    let call = version_call(alloc)?;
    let mut reader = ReplyReader::new(alloc);
    let asked = ask(alloc, link, &mut reader, &host, &call);
    drop(reader);
    drop(call);
    tell_asked(asked, told);
    Ok(())
}

// Tells what is answered over a connection that gives a text in pieces, and what is sent.
fn tell_ask(alloc: Global, text: &[u8], piece: usize, told: &mut Told) {
    let mut link = link_of(alloc, text, piece, None);
    if ask_over(alloc, &mut link, told).is_err() {
        told.push(b"out of memory");
    }
    told.push(b" to ");
    told.push(link.sent());
    drop(link);
}

/// `ask TEXT`: what is answered over a connection that gives a text, in pieces of whatever size, and to what request.
pub(crate) fn ask_anyhow(alloc: Global, text: &[u8], told: &mut Told) {
    tell_ask(alloc, text, WHOLE, told);
    for size in 1..=text.len() {
        let mut next = Told::new(alloc);
        tell_ask(alloc, text, size, &mut next);
        if next.bytes() != told.bytes() {
            let _ = write!(told, ", something else in pieces of {size}");
            break;
        }
    }
}

/// `fronts TEXT`: for the lengths of a text's fronts from 0 on, what is answered over a connection that gives that
/// front alone, where it is something else than of the front before.
pub(crate) fn fronts(alloc: Global, text: &[u8], told: &mut Told) {
    let mut changes = Changes::new(alloc, b" | ", told);
    for length in 0..=text.len() {
        let mut next = Told::new(alloc);
        tell_ask(alloc, &text[..length], WHOLE, &mut next);
        changes.add(length as u64, next);
    }
}

/// `host TEXT`: whether a text can stand as a host.
pub(crate) fn host(alloc: Global, words: &Words, told: &mut Told) {
    let text = text_at(alloc, words, 1);
    told.push(if is_host(&text) { b"yes" } else { b"no" });
}
