//! What is said to the hall over links in memory.
use crate::arguments::number_at;
use crate::framing::{request_of, tell_reply};
use crate::halls::Stage;
use crate::links::link_of;
use case_scripts::{Answer, Words};
use delta_base::{Link, MemLink};
use http_text::SessionEnd;
use std::fmt::Write;
use std::sync::Wait;

/// How many bytes a link gives at once where nothing else is said.
const PIECE: usize = 8_192;

impl<'a, R: Wait> Stage<'a, R> {
    // One of the passes serves this link. There is no end where no hall is open.
    fn serve(&mut self, place: u32, link: &mut MemLink) -> Option<SessionEnd> {
        match &mut self.hall {
            Some(hall) => Some(hall.serve(self.rt, place as usize % 2, link)),
            None => None,
        }
    }

    // One of the passes reads this text in pieces of a size, where a call of the link may fail, and what was said is
    // told.
    fn talk_over(
        &mut self,
        place: u32,
        text: &[u8],
        piece: usize,
        failing: Option<u64>,
        answer: &mut Answer,
    ) {
        let mut link = link_of(self.alloc, text, piece, failing);
        let end = self.serve(place, &mut link);
        tell_talk(end, &link, answer);
        drop(link);
    }

    /// `request PASS LINE [BODY]`: the status and the body of the reply, where the rest of it is as it should be.
    pub(crate) fn request(&mut self, words: &Words, answer: &mut Answer) {
        let text = request_of(self.alloc, words.bytes(2), words.bytes(3));
        let mut link = link_of(self.alloc, text.bytes(), PIECE, None);
        let end = self.serve(number_at(words, 1), &mut link);
        if end != Some(SessionEnd::Closed) {
            tell_end(end, answer);
        }
        tell_reply(self.alloc, link.sent(), answer);
        drop(link);
    }

    /// `talk PASS TEXT`: how the session ended, and what was sent.
    pub(crate) fn talk(&mut self, words: &Words, answer: &mut Answer) {
        self.talk_over(number_at(words, 1), words.bytes(2), PIECE, None, answer);
    }

    /// `break CALL TEXT`: the same, where this call of the link fails, counted from 0.
    pub(crate) fn talk_breaking(&mut self, words: &Words, answer: &mut Answer) {
        self.talk_over(0, words.bytes(2), PIECE, words.number(1), answer);
    }

    // Talks so to a hall that is opened anew: of a text that ends at a place, or of one in pieces of that size.
    fn talk_at(&mut self, text: &[u8], at: u32, is_cut: bool, answer: &mut Answer) {
        if !self.open(answer) {
            return;
        }
        if is_cut {
            self.talk_over(0, front(text, at), PIECE, None, answer);
        } else {
            self.talk_over(0, text, at as usize, None, answer);
        }
    }

    /// `pieces FROM TO TEXT`: the same for each of these sizes of pieces, in a hall that is opened anew. `cuts FROM TO
    /// TEXT`: the same where the text ends at each of these places.
    pub(crate) fn talk_alike(&mut self, words: &Words, is_cut: bool, answer: &mut Answer) {
        let from = number_at(words, 1);
        self.talk_at(words.bytes(3), from, is_cut, answer);
        for at in from..number_at(words, 2) {
            let mut next = Answer::new(self.alloc);
            self.talk_at(words.bytes(3), at.saturating_add(1), is_cut, &mut next);
            if next.bytes() != answer.bytes() {
                let _ = write!(answer, ", other than at {at}: ");
                return answer.push(next.bytes());
            }
        }
    }
}

// So many first bytes.
fn front(text: &[u8], count: u32) -> &[u8] {
    &text[..text.len().min(count as usize)]
}

// Writes how a session ended, where a hall is open.
fn tell_end(end: Option<SessionEnd>, answer: &mut Answer) {
    match end {
        Some(SessionEnd::Closed) => answer.push(b"closed"),
        Some(SessionEnd::Asked) => answer.push(b"asked"),
        Some(SessionEnd::Spent) => answer.push(b"spent"),
        Some(SessionEnd::Refused { status }) => {
            let _ = write!(answer, "refused {status}");
        }
        Some(SessionEnd::CutShort) => answer.push(b"cut short"),
        Some(SessionEnd::LinkFault) => answer.push(b"link fault"),
        Some(SessionEnd::OutOfMemory) => answer.push(b"out of memory"),
        None => answer.push(b"no hall"),
    }
}

// Writes how a session ended, and what was sent over its link.
fn tell_talk(end: Option<SessionEnd>, link: &MemLink, answer: &mut Answer) {
    tell_end(end, answer);
    let faults = link.faults();
    if faults > 1 {
        let _ = write!(answer, ", {faults} calls failed");
    }
    if !link.sent().is_empty() {
        answer.push(b" ");
        answer.push(link.sent());
    }
}
