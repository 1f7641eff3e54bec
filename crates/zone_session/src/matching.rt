//! The pattern that an object asks for, and what is said of the quads that match.
ghost use Rattle.std.specs.Prelude.{◌≡◌, ◌++◌, ◌∷◌, [], codes, false, None, IfOk, IfErr, OnOk};
ghost use Rattle.std.specs.Fmt.{decimal};
ghost use Rattle.std.specs.List.{concat};
ghost use Rattle.serde_json.specs.View.{view};
ghost use Rattle.http_session.specs.Said.{IsPrintableSaid};
ghost use Rattle.http_text.specs.Print.{IsPrintableReply};
ghost use Rattle.rpc_calls.specs.Outcomes.{TellsMethods};
ghost use Rattle.pattern_words.specs.Words.{IsGraphWord, IsPartWord};
ghost use Rattle.call_replies.specs.Says.{SaysReply};
ghost use Rattle.zone_session.specs.Matching.{ReadsMatch, ReadsWord, shown_body, shown_reply};

use dataset_tx::{GraphPart, Pattern};
use delta_base::{Bytes, OutOfMemory};
use http_heads::RawReply;
use http_session::Said;
use itoa::Buffer;
use line_log::MadeLines;
use pattern_words::{Position, graph_of, part_of};
use rdf_terms::Term;
use rpc_calls::{CallFault, text_of};
use serde_json::Value;
use shared_zone::Shown;
use std::alloc::Global;

/// How many bytes the line of a version may have.
const VERSION_LINE: usize = 21;

// The graph that a member's word stands for.
fn graph_in(alloc: Global, value: &Value) -> Result<GraphPart, CallFault>
    ensures { ReadsWord (view value.now) IsGraphWord (codes "graph") result }
{
    let word = text_of(alloc, value, "graph")?;
    match graph_of(alloc, word.as_str()) {
        Ok(Some(graph)) => Ok(graph),
        Ok(None) => Err(CallFault::BadCall { member: "graph" }),
        Err(_) => Err(CallFault::OutOfMemory),
    }
}

// The part of a position that a member's word stands for.
fn part_in(
    alloc: Global,
    position: Position,
    value: &Value,
    name: &'static str,
) -> Result<Option<Term>, CallFault>
    ensures { ReadsWord (view value.now) (IsPartWord position) name.entry.now result }
{
    let word = text_of(alloc, value, name)?;
    match part_of(alloc, position, word.as_str()) {
        Ok(Some(part)) => Ok(part),
        Ok(None) => Err(CallFault::BadCall { member: name }),
        Err(_) => Err(CallFault::OutOfMemory),
    }
}

/// The pattern that an object asks for, or its first wrong member.
pub(crate) fn read_pattern(alloc: Global, value: &Value) -> Result<Pattern, CallFault>
    ensures reads { ReadsMatch (view value.now) result }
    ensures methods { IfErr result TellsMethods }
{
    let graph = match graph_in(alloc, value) {
        Ok(graph) => graph,
        Err(fault) => return Err(fault),
    };
    let subject = match part_in(alloc, Position::Subject, value, "subject") {
        Ok(subject) => subject,
        Err(fault) => return Err(fault),
    };
    let predicate = match part_in(alloc, Position::Predicate, value, "predicate") {
        Ok(predicate) => predicate,
        Err(fault) => return Err(fault),
    };
    let object = match part_in(alloc, Position::Object, value, "object") {
        Ok(object) => object,
        Err(fault) => return Err(fault),
    };
    Ok(Pattern {
        graph,
        subject,
        predicate,
        object,
    })
}

// How many bytes lines have together; the last number where that is greater.
fn lines_size(lines: &MadeLines) -> usize {
    let mut size: usize = 0;
    for at in 0..lines.len() {
        size = size.saturating_add(lines.line(at).len());
    }
    size
}

// Appends the line of a version.
fn push_version(out: &mut Vec<u8>, version: u32) -> Result<(), OutOfMemory>
    ensures { OnOk result (out.new.items
        ≡ out.old.items ++ (codes "# version " ++ (decimal version ++ 10 ∷ []))) }
{
    let mut buffer = Buffer::new();
    out.extend_from_slice(b"# version ")?;
    out.extend_from_slice(buffer.format(version).as_bytes())?;
    out.push(b'\n')?;
    Ok(())
}

// Appends lines, one after another.
fn push_lines(out: &mut Vec<u8>, lines: &MadeLines) -> Result<(), OutOfMemory>
    ensures { OnOk result (out.new.items ≡ out.old.items ++ concat lines.now) }
{
    for at in 0..lines.len() {
        out.extend_from_slice(lines.line(at))?;
    }
    Ok(())
}

// The version's line, and the lines behind it.
fn body_of(alloc: Global, shown: &Shown) -> Result<Bytes, OutOfMemory>
    ensures { IfOk result (λ body. body ≡ shown_body shown.now) }
{
    let mut text = Vec::new(alloc);
    text.reserve(VERSION_LINE.saturating_add(lines_size(&shown.lines)))?;
    push_version(&mut text, shown.version)?;
    push_lines(&mut text, &shown.lines)?;
    Ok(Bytes::from_vec(text))
}

// The reply with what was shown.
fn reply_of(alloc: Global, shown: Shown) -> Result<RawReply, OutOfMemory>
    ensures reply { IfOk result (λ reply. reply ≡ shown_reply shown false) }
    ensures printable { IfOk result (λ reply. IsPrintableReply reply None) }
{
    let body = body_of(alloc, &shown);
    drop(shown);
    let body = body?;
    let content_type = Bytes::from_slice(alloc, b"application/n-quads")?;
    Ok(RawReply {
        status: 200,
        close: false,
        content_type: Some(content_type),
        body,
    })
}

/// Says what was shown. The lines are copied into the reply, and let go before it is sent: until
/// then it takes their bytes once more.
pub(crate) fn say_shown(alloc: Global, shown: Shown) -> Said
    ensures says { SaysReply (shown_reply shown) result }
    ensures printable { IsPrintableSaid result }
{
    match reply_of(alloc, shown) {
        Ok(reply) => Said::Reply { reply, allow: None },
        Err(_) => Said::OutOfMemory,
    }
}
