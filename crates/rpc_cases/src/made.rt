//! Answers that are made of words, as whole replies.
ghost use Rattle.std.specs.Option.{option_copied};
ghost use Rattle.http_text.specs.Print.{IsAllow, IsPrintableReply};
ghost use Rattle.rpc_answers.specs.Answers.{NamesItsFault};

use crate::values::{bytes_of, tell_text, text_at, word};
use case_scripts::{Answer as Told, Words};
use delta_base::{Bytes, Id, Listing, OutOfMemory, read_id};
use http_heads::RawReply;
use http_text::{ReplyFront, print_reply};
use log_base::{FullKind, SourceInfo};
use rpc_answers::{Answer, into_reply};
use std::alloc::Global;

// The number at a place, where there is one of 32 bits.
fn number(words: &Words, place: usize) -> Option<u32> {
    u32::try_from(words.number(place)?).ok()
}

fn source(alloc: Global, words: &Words) -> SourceInfo {
    SourceInfo {
        slot: number(words, 2).unwrap_or(0),
        id: read_id(words.bytes(3)).unwrap_or(Id(0)),
        name: text_at(alloc, words, 4),
        uri: text_at(alloc, words, 5),
    }
}

// The answer of a log.
fn log_answer(words: &Words) -> Answer
    ensures { NamesItsFault result }
{
    let version = number(words, 2).unwrap_or(0);
    match word(words, 1) {
        "version" => Answer::Version { version },
        "run" => Answer::Run {
            first: version,
            version: number(words, 3).unwrap_or(0),
        },
        "bad_run" => Answer::BadRun {
            at: u64::from(version),
        },
        "conflict" => Answer::Conflict {
            version,
            head: read_id(words.bytes(3)),
            prev_version: number(words, 4),
        },
        "known" => Answer::Known {
            version,
            same: words.bytes(3) == b"same".as_slice(),
        },
        "full" => Answer::Full {
            what: FullKind::Slots,
            have: u64::from(version),
            limit: words.number(3).unwrap_or(0),
        },
        "bad_method" => Answer::BadMethod,
        "disk_fault" => Answer::DiskFault,
        _ => Answer::OutOfMemory,
    }
}

// The answer of these words.
fn answer(alloc: Global, words: &Words) -> Answer
    ensures { NamesItsFault result }
{
    match word(words, 1) {
        "source" => Answer::Source(source(alloc, words)),
        "sources" => Answer::Sources(Listing::new(alloc)),
        "bad_call" => Answer::BadCall {
            member: text_at(alloc, words, 2),
        },
        "patch" => Answer::Patch {
            text: bytes_of(alloc, words.bytes(2)),
        },
        _ => log_answer(words),
    }
}

// The methods that are allowed beside an answer.
fn allow(words: &Words) -> Option<&'static str>
    ensures { IsAllow (option_copied result) }
{
    match word(words, 1) {
        "bad_method" => Some("POST"),
        _ => None,
    }
}

// The whole text of a reply.
fn text_of(
    alloc: Global,
    reply: &RawReply,
    allow: Option<&'static str>,
) -> Result<Bytes, OutOfMemory>
    requires { IsPrintableReply reply.now (option_copied allow) }
{
    let ReplyFront { text, of_body } = print_reply(alloc, reply, allow)?;
    let mut text = text.into_vec();
    text.extend_from_slice(&reply.body.as_slice()[of_body..])?;
    Ok(Bytes::from_vec(text))
}

/// `reply ANSWER ..`, `last ANSWER ..`: the text of an answer's reply, behind which the connection stays or ends.
pub(crate) fn reply(alloc: Global, words: &Words, close: bool, told: &mut Told) {
    let allow = allow(words);
    match into_reply(alloc, answer(alloc, words), close) {
        Ok(reply) => {
            let text = text_of(alloc, &reply, allow);
            drop(reply);
            tell_text(text, told);
        }
        Err(_) => told.push(b"out of memory"),
    }
}
