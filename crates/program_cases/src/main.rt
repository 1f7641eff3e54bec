//! Worked examples of the program's two sides. Of a hall and its sessions: replies byte for byte, how sessions end,
//! what faults of links and disks leave, and what is wrong with files. Of the commands: what each writes and with which
//! status it ends, over files and links in memory. The script on standard input is run, and each line that differs is
//! printed, and how many hold.
#![tactic(auto)]

mod arguments;
mod directories;
mod framing;
mod hall_faults;
mod halls;
mod journals;
mod links;
mod opened;
mod positions;
mod running;
mod talking;
mod tool;

use case_scripts::{Answer, Layer, Words, run_script};
use halls::Stage;
use std::alloc::Global;
use std::io;
use std::sync::Wait;
use tool::{Part, Tool};

#[derive(Clone, Copy)]
enum Command {
    Hall,
    Filled,
    HallFail,
    Crash,
    HallFile,
    Pass,
    Request,
    Talk,
    Break,
    Pieces,
    Cuts,
    Run,
    Count,
    Peer,
    Fail(Part),
    FailDisk,
    Sent,
    Tries,
    Put,
    PutGenerated,
    File,
    Positions,
}

const COMMANDS: [(&str, Command); 25] = [
    ("hall", Command::Hall),
    ("filled", Command::Filled),
    ("hall-fail", Command::HallFail),
    ("crash", Command::Crash),
    ("hall-file", Command::HallFile),
    ("pass", Command::Pass),
    ("request", Command::Request),
    ("talk", Command::Talk),
    ("break", Command::Break),
    ("pieces", Command::Pieces),
    ("cuts", Command::Cuts),
    ("run", Command::Run),
    ("count", Command::Count),
    ("peer", Command::Peer),
    ("fail-input", Command::Fail(Part::Input)),
    ("fail-out", Command::Fail(Part::Out)),
    ("fail-err", Command::Fail(Part::Err)),
    ("fail-connect", Command::Fail(Part::Connect)),
    ("fail-disk", Command::FailDisk),
    ("sent", Command::Sent),
    ("tries", Command::Tries),
    ("put", Command::Put),
    ("put-generated", Command::PutGenerated),
    ("file", Command::File),
    ("positions", Command::Positions),
];

/// A hall, and what commands are run over.
#[derive(Drop)]
struct Program<'a, R: Wait> {
    alloc: Global,
    stage: Stage<'a, R>,
    tool: Tool,
}

impl<'a, R: Wait> Layer for Program<'a, R> {
    fn clear(&mut self) {
        self.stage.clear();
        self.tool.clear();
    }

    fn answer(&mut self, words: &Words, answer: &mut Answer) {
        match words.command(&COMMANDS) {
            Some(Command::Hall) => self.stage.open_over(words, answer),
            Some(Command::Filled) => self.stage.open_filled(words, answer),
            Some(Command::HallFail) => self.stage.set_failing(words, answer),
            Some(Command::Crash) => self.stage.crash(words, answer),
            Some(Command::HallFile) => self.stage.tell_file(words, answer),
            Some(Command::Pass) => self.stage.tell_pass(words, answer),
            Some(Command::Request) => self.stage.request(words, answer),
            Some(Command::Talk) => self.stage.talk(words, answer),
            Some(Command::Break) => self.stage.talk_breaking(words, answer),
            Some(Command::Pieces) => self.stage.talk_alike(words, false, answer),
            Some(Command::Cuts) => self.stage.talk_alike(words, true, answer),
            Some(Command::Run) => self.tool.run(words, false, answer),
            Some(Command::Count) => self.tool.run(words, true, answer),
            Some(Command::Peer) => self.tool.add_peer(words, answer),
            Some(Command::Fail(part)) => self.tool.fail(words, part, answer),
            Some(Command::FailDisk) => self.tool.fail_disk(words, answer),
            Some(Command::Sent) => self.tool.tell_sent(answer),
            Some(Command::Tries) => self.tool.tell_tries(answer),
            Some(Command::Put) => self.tool.put(words, answer),
            Some(Command::PutGenerated) => self.tool.put_generated(words, answer),
            Some(Command::File) => self.tool.tell_file(words, answer),
            Some(Command::Positions) => positions::positions(self.alloc, words, answer),
            None => answer.push(b"no such command"),
        }
    }
}

fn main(rt: HostRuntime) -> io::Result<()> {
    let alloc = rt.alloc();
    let mut program = Program {
        alloc,
        stage: Stage::new(&rt, alloc),
        tool: Tool::new(alloc),
    };
    let ran = run_script(&rt, &mut program);
    drop(program);
    ran
}
