//! What a run of the tool is given, and what it leaves.
use crate::links::calls;
use case_scripts::{Answer, Words};
use disk_model::MemShelf;
use std::alloc::Global;
use std::fmt::Write;

/// The files of directories, and what the next run is given and the last one sent.
#[derive(Drop)]
pub(crate) struct Tool {
    pub(crate) alloc: Global,
    pub(crate) shelf: MemShelf,
    /// What each connection gives.
    pub(crate) peers: Vec<Vec<u8>>,
    pub(crate) failing: Failing,
    /// What was sent on each connection.
    pub(crate) sent: Vec<Vec<u8>>,
    /// How often a connection was tried for.
    pub(crate) tries: u64,
}

/// What has a call that fails in the next run.
#[derive(Clone, Copy)]
pub(crate) enum Part {
    Input,
    Out,
    Err,
    Connect,
}

/// The calls that fail in the next run, by their numbers from 0.
#[derive(Clone, Copy)]
pub(crate) struct Failing {
    pub(crate) input: Option<u64>,
    pub(crate) out: Option<u64>,
    pub(crate) err: Option<u64>,
    pub(crate) connect: Option<u64>,
}

impl Failing {
    /// No call fails.
    pub(crate) fn none() -> Failing {
        Failing {
            input: None,
            out: None,
            err: None,
            connect: None,
        }
    }
}

impl Tool {
    /// No files, and nothing that is given.
    pub(crate) fn new(alloc: Global) -> Tool {
        Tool {
            alloc,
            shelf: MemShelf::new(alloc, calls(alloc, None)),
            peers: Vec::new(alloc),
            failing: Failing::none(),
            sent: Vec::new(alloc),
            tries: 0,
        }
    }

    pub(crate) fn clear(&mut self) {
        self.shelf = MemShelf::new(self.alloc, calls(self.alloc, None));
        self.peers.clear();
        self.failing = Failing::none();
        self.sent.clear();
    }

    /// `peer TEXT ..`: one connection more, which gives these texts one behind another.
    pub(crate) fn add_peer(&mut self, words: &Words, answer: &mut Answer) {
        let added = match Vec::from_slice(self.alloc, words.bytes_from(1)) {
            Ok(text) => self.peers.push(text).is_ok(),
            Err(_) => false,
        };
        answer.push(if added { b"ok" } else { b"out of memory" });
    }

    /// `fail-input CALL`, `fail-out CALL`, `fail-err CALL`, `fail-connect CALL`: this call of the input, of out, of err
    /// or of the dial fails in the next run.
    pub(crate) fn fail(&mut self, words: &Words, part: Part, answer: &mut Answer) {
        let call = words.number(1);
        match part {
            Part::Input => self.failing.input = call,
            Part::Out => self.failing.out = call,
            Part::Err => self.failing.err = call,
            Part::Connect => self.failing.connect = call,
        }
        answer.push(b"ok");
    }

    /// `fail-disk CALL`: this call of the disk fails from now on, and all files are gone.
    pub(crate) fn fail_disk(&mut self, words: &Words, answer: &mut Answer) {
        self.shelf = MemShelf::new(self.alloc, calls(self.alloc, words.number(1)));
        answer.push(b"ok");
    }

    /// `sent`: what the last run sent on each connection.
    pub(crate) fn tell_sent(&self, answer: &mut Answer) {
        for (place, sent) in self.sent.iter().enumerate() {
            if place > 0 {
                answer.push(b" ");
            }
            answer.push(sent);
        }
    }

    /// `tries`: how often the last run tried for a connection.
    pub(crate) fn tell_tries(&self, answer: &mut Answer) {
        let _ = write!(answer, "{} of {} hung up", self.tries, self.sent.len());
    }
}
