//! Worked examples of requests and replies that come in any pieces, and of sessions: the script on standard input is
//! run, and each line that differs is printed, and how many hold.
#![tactic(auto)]

mod echo;
mod links;
mod pieces;
mod printing;
mod sessions;
mod steps;
mod streams;

use case_scripts::{Answer, Layer, Words, run_script};
use delta_base::OutOfMemory;
use http_text::{ReplyReader, RequestReader};
use std::io;
use std::sync::Wait;

#[derive(Clone, Copy)]
enum Command {
    Requests,
    Replies,
    Steps,
    Print,
    Talk,
    Fronts,
    Breaks,
    Turns,
}

const COMMANDS: [(&str, Command); 8] = [
    ("requests", Command::Requests),
    ("replies", Command::Replies),
    ("steps", Command::Steps),
    ("print", Command::Print),
    ("talk", Command::Talk),
    ("fronts", Command::Fronts),
    ("breaks", Command::Breaks),
    ("turns", Command::Turns),
];

/// The layer of messages and sessions, in which nothing stays open.
#[derive(Drop)]
struct Messages<'a, R> {
    rt: &'a R,
}

impl<'a, R: Wait + AllocGlobal> Messages<'a, R> {
    // What a command answers.
    fn told(&self, words: &Words) -> Result<Vec<u8>, OutOfMemory> {
        let alloc = self.rt.alloc();
        match words.command(&COMMANDS) {
            Some(Command::Requests) => pieces::told::<RequestReader>(alloc, words),
            Some(Command::Replies) => pieces::told::<ReplyReader>(alloc, words),
            Some(Command::Steps) => steps::told(alloc, words),
            Some(Command::Print) => printing::told(alloc, words.bytes(1)),
            Some(Command::Talk) => sessions::talk(self.rt, alloc, words),
            Some(Command::Fronts) => sessions::fronts(self.rt, alloc, words.bytes(1)),
            Some(Command::Breaks) => sessions::breaks(self.rt, alloc, words),
            Some(Command::Turns) => sessions::turns(self.rt, alloc, words),
            None => Ok(Vec::from_slice(alloc, b"no such command")?),
        }
    }
}

impl<'a, R: Wait + AllocGlobal> Layer for Messages<'a, R> {
    fn clear(&mut self) {}

    fn answer(&mut self, words: &Words, answer: &mut Answer) {
        match self.told(words) {
            Ok(told) => answer.push(told.as_slice()),
            Err(_) => answer.push(b"out of memory"),
        }
    }
}

fn main(rt: HostRuntime) -> io::Result<()> {
    let mut layer = Messages { rt: &rt };
    run_script(&rt, &mut layer)
}
