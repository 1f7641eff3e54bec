//! Runs of the tool.
use crate::arguments::strings_of;
use crate::links::{bytes_of, calls, link_of};
use crate::tool::{Failing, Tool};
use case_scripts::{Answer, Words};
use delta_base::{MemLink, MemSink, MemSource, OutOfMemory};
use delta_cli::run_tool;
use delta_client::MemDial;
use std::alloc::Global;
use std::fmt::Write;

/// How many bytes an input and a link give at once.
const PIECE: usize = 60;

/// What a run reads and writes.
#[derive(Drop)]
struct Streams {
    input: MemSource,
    out: MemSink,
    err: MemSink,
}

// The place of `<`, or the one behind all words.
fn end_of_words(words: &Words) -> usize {
    let behind = words.count().saturating_add(1);
    for place in 1..behind {
        if words.bytes(place) == b"<".as_slice() {
            return place;
        }
    }
    behind
}

// Adds links that give these texts.
fn add_links(
    alloc: Global,
    links: &mut Vec<MemLink>,
    peers: &[Vec<u8>],
) -> Result<(), OutOfMemory> {
    for text in peers {
        links.push(link_of(alloc, text, PIECE, None))?;
    }
    Ok(())
}

// A dial whose connections give these texts, of which a call may fail.
fn dial_of(
    alloc: Global,
    peers: &[Vec<u8>],
    failing: Option<u64>,
) -> Result<MemDial<MemLink>, OutOfMemory> {
    let mut links = Vec::new(alloc);
    match add_links(alloc, &mut links, peers) {
        Ok(()) => MemDial::new(alloc, links, calls(alloc, failing)),
        Err(fault) => {
            drop(links);
            Err(fault)
        }
    }
}

// The streams of a run with this input, of which calls may fail.
fn streams_of(alloc: Global, input: &[u8], failing: Failing) -> Streams {
    let input = bytes_of(alloc, input);
    Streams {
        input: MemSource::new(input, PIECE, calls(alloc, failing.input)),
        out: MemSink::new(alloc, calls(alloc, failing.out)),
        err: MemSink::new(alloc, calls(alloc, failing.err)),
    }
}

// Adds what was sent on each connection that was hung up.
fn add_sent(alloc: Global, sent: &mut Vec<Vec<u8>>, links: &[MemLink]) -> Result<(), OutOfMemory> {
    for link in links {
        sent.push(Vec::from_slice(alloc, link.sent())?)?;
    }
    Ok(())
}

// Writes behind a name what was written there, where that is anything.
fn tell_written(name: &[u8], written: &[u8], answer: &mut Answer) {
    if !written.is_empty() {
        answer.push(name);
        answer.push(written);
    }
}

// Writes how many lines there are, and the first of them.
fn tell_count(out: &[u8], answer: &mut Answer) {
    let count = out.iter().filter(|byte| **byte == b'\n').count();
    let _ = write!(answer, " out {count} lines ");
    if let Some(first) = out.split(|byte| *byte == b'\n').next() {
        answer.push(first);
    }
}

// Writes the status of a run, and what it wrote.
fn tell(status: u8, streams: &Streams, is_counted: bool, answer: &mut Answer) {
    let _ = write!(answer, "{status}");
    if is_counted {
        tell_count(streams.out.written(), answer);
    } else {
        tell_written(b" out ", streams.out.written(), answer);
        tell_written(b" err ", streams.err.written(), answer);
    }
}

impl Tool {
    /// `run WORD .. [< INPUT ..]`: the status, and behind `out` and `err` what was written there. `count` tells of out
    /// only how many lines it has, and the first of them.
    pub(crate) fn run(&mut self, words: &Words, is_counted: bool, answer: &mut Answer) {
        let Ok(mut net) = dial_of(self.alloc, &self.peers, self.failing.connect) else {
            return answer.push(b"out of memory");
        };
        self.run_words(words, &mut net, is_counted, answer);
        self.keep_sent(&net, answer);
        drop(net);
    }

    // Runs the command of these words.
    fn run_words(
        &mut self,
        words: &Words,
        net: &mut MemDial<MemLink>,
        is_counted: bool,
        answer: &mut Answer,
    ) {
        let end = end_of_words(words);
        let input = words.bytes_from(end.saturating_add(1));
        match strings_of(self.alloc, words, 1, end) {
            Ok(command) => {
                self.run_command(&command, input, net, is_counted, answer);
                drop(command);
            }
            Err(_) => answer.push(b"out of memory"),
        }
    }

    // Runs a command with this input, and tells what it wrote.
    fn run_command(
        &mut self,
        command: &[String],
        input: &[u8],
        net: &mut MemDial<MemLink>,
        is_counted: bool,
        answer: &mut Answer,
    ) {
        let mut streams = streams_of(self.alloc, input, self.failing);
        let status = self.run_over(command, &mut streams, net);
        tell(status, &streams, is_counted, answer);
        drop(streams);
    }

    // Runs a command over these streams and connections.
    fn run_over(
        &mut self,
        command: &[String],
        streams: &mut Streams,
        net: &mut MemDial<MemLink>,
    ) -> u8 {
        run_tool(
            self.alloc,
            command,
            &mut streams.input,
            &mut streams.out,
            &mut streams.err,
            &mut self.shelf,
            net,
            0,
        )
    }

    // Keeps what was sent on each connection; the next run is given nothing yet.
    fn keep_sent(&mut self, net: &MemDial<MemLink>, answer: &mut Answer) {
        self.peers.clear();
        self.failing = Failing::none();
        self.sent.clear();
        self.tries = net.tries();
        if add_sent(self.alloc, &mut self.sent, net.back()).is_err() {
            answer.push(b" out of memory");
        }
    }
}
