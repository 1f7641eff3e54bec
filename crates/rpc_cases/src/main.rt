//! Worked examples of requests that are calls and of those that are none, of answers as replies, of both read back, and
//! of calls over connections in memory: the script on standard input is run, and each line that differs is printed, and
//! how many hold.
#![tactic(auto)]

mod answers;
mod asking;
mod calls;
mod changes;
mod lines;
mod made;
mod requests;
mod values;

use case_scripts::{Answer, Layer, Words, run_script};
use rpc_calls::Surface;
use std::alloc::Global;
use std::io;

#[derive(Clone, Copy)]
enum Command {
    Call,
    Mirror,
    Sends,
    Answer,
    Reply,
    Last,
    Host,
    Ask,
    Fronts,
    Twice,
    Breaks,
}

const COMMANDS: [(&str, Command); 11] = [
    ("call", Command::Call),
    ("mirror", Command::Mirror),
    ("sends", Command::Sends),
    ("answer", Command::Answer),
    ("reply", Command::Reply),
    ("last", Command::Last),
    ("host", Command::Host),
    ("ask", Command::Ask),
    ("fronts", Command::Fronts),
    ("twice", Command::Twice),
    ("breaks", Command::Breaks),
];

/// The layer of calls and answers, in which nothing stays open.
#[derive(Drop)]
struct Rpc {
    alloc: Global,
}

impl Layer for Rpc {
    fn clear(&mut self) {}

    fn answer(&mut self, words: &Words, answer: &mut Answer) {
        let alloc = self.alloc;
        match words.command(&COMMANDS) {
            Some(Command::Call) => requests::call(alloc, Surface::Hall, words, answer),
            Some(Command::Mirror) => requests::call(alloc, Surface::Mirror, words, answer),
            Some(Command::Sends) => requests::sends(alloc, words, answer),
            Some(Command::Answer) => answers::answer(alloc, words, answer),
            Some(Command::Reply) => made::reply(alloc, words, false, answer),
            Some(Command::Last) => made::reply(alloc, words, true, answer),
            Some(Command::Host) => asking::host(alloc, words, answer),
            Some(Command::Ask) => asking::ask_anyhow(alloc, words.bytes(1), answer),
            Some(Command::Fronts) => asking::fronts(alloc, words.bytes(1), answer),
            Some(Command::Twice) => lines::twice(alloc, words, answer),
            Some(Command::Breaks) => lines::breaks(alloc, words, answer),
            None => answer.push(b"no such command"),
        }
    }
}

fn main(rt: HostRuntime) -> io::Result<()> {
    let mut layer = Rpc { alloc: rt.alloc() };
    run_script(&rt, &mut layer)
}
