//! Worked examples of rows, patches and streams: the script on standard input is run, and each line that answers
//! otherwise is printed, and how many hold.
#![tactic(auto)]

mod generated;
mod patches;
mod pieces;
mod replays;
mod rows;
mod scans;

use case_scripts::{Answer, Layer, Words, run_script};
use std::alloc::Global;
use std::io;

#[derive(Clone, Copy)]
enum Command {
    Space,
    Row,
    Decided,
    Fronts,
    Scan,
    Make,
    Places,
    Written,
    Pieces,
    Feed,
    Patch,
    Stream,
    Replay,
    Once,
    Generated,
    Emitted,
}

const COMMANDS: [(&str, Command); 16] = [
    ("space", Command::Space),
    ("row", Command::Row),
    ("decided", Command::Decided),
    ("fronts", Command::Fronts),
    ("scan", Command::Scan),
    ("make", Command::Make),
    ("places", Command::Places),
    ("written", Command::Written),
    ("pieces", Command::Pieces),
    ("feed", Command::Feed),
    ("patch", Command::Patch),
    ("stream", Command::Stream),
    ("replay", Command::Replay),
    ("once", Command::Once),
    ("generated", Command::Generated),
    ("emitted", Command::Emitted),
];

/// The layer of patches, in which nothing stays open.
#[derive(Drop)]
struct Texts {
    alloc: Global,
}

impl Layer for Texts {
    fn clear(&mut self) {}

    fn answer(&mut self, words: &Words, answer: &mut Answer) {
        let text = words.bytes_from(1);
        match words.command(&COMMANDS) {
            Some(Command::Space) => rows::space(text, answer),
            Some(Command::Row) => rows::row(self.alloc, text, answer),
            Some(Command::Decided) => rows::decided(self.alloc, text, answer),
            Some(Command::Fronts) => rows::fronts(self.alloc, text, answer),
            Some(Command::Scan) => scans::scan(text, answer),
            Some(Command::Make) => scans::make(self.alloc, text, answer),
            Some(Command::Places) => scans::places(self.alloc, words, answer),
            Some(Command::Written) => rows::written(self.alloc, text, answer),
            Some(Command::Pieces) => pieces::pieces(self.alloc, text, answer),
            Some(Command::Feed) => pieces::feed(self.alloc, words, answer),
            Some(Command::Patch) => patches::patch(self.alloc, text, answer),
            Some(Command::Stream) => patches::stream(self.alloc, text, answer),
            Some(Command::Replay) => replays::replay(self.alloc, text, answer),
            Some(Command::Once) => replays::once(self.alloc, words, answer),
            Some(Command::Generated) => generated::generated(self.alloc, words, answer),
            Some(Command::Emitted) => generated::emitted(self.alloc, words, answer),
            None => answer.push(b"no such command"),
        }
    }
}

fn main(rt: HostRuntime) -> io::Result<()> {
    let mut layer = Texts { alloc: rt.alloc() };
    run_script(&rt, &mut layer)
}
