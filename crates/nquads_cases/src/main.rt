//! Worked examples of terms, of their text and of documents: the script on standard input is run, and each line that
//! differs is printed, and how many hold.
#![tactic(auto)]

mod documents;
mod making;
mod names;
mod terms;

use case_scripts::{Answer, Layer, Words, run_script};
use std::alloc::Global;
use std::io;

#[derive(Clone, Copy)]
enum Command {
    Term,
    Document,
    Line,
    Scan,
    Iri,
    Label,
    Tag,
    Datatype,
    Quad,
    Character,
    Scheme,
}

const COMMANDS: [(&str, Command); 11] = [
    ("term", Command::Term),
    ("document", Command::Document),
    ("line", Command::Line),
    ("scan", Command::Scan),
    ("iri", Command::Iri),
    ("label", Command::Label),
    ("tag", Command::Tag),
    ("datatype", Command::Datatype),
    ("quad", Command::Quad),
    ("character", Command::Character),
    ("scheme", Command::Scheme),
];

/// The layer of terms and documents, in which nothing stays open.
#[derive(Drop)]
struct Texts {
    alloc: Global,
}

impl Layer for Texts {
    fn clear(&mut self) {}

    fn answer(&mut self, words: &Words, answer: &mut Answer) {
        let text = words.bytes(1);
        match words.command(&COMMANDS) {
            Some(Command::Term) => terms::term(self.alloc, words, answer),
            Some(Command::Document) => documents::document(self.alloc, text, answer),
            Some(Command::Line) => documents::line(self.alloc, text, answer),
            Some(Command::Scan) => documents::scan(words, answer),
            Some(Command::Iri) => making::iri(self.alloc, text, answer),
            Some(Command::Label) => making::label(self.alloc, text, answer),
            Some(Command::Tag) => making::tag(self.alloc, text, answer),
            Some(Command::Datatype) => making::datatype(self.alloc, text, answer),
            Some(Command::Quad) => making::quad(self.alloc, words, answer),
            Some(Command::Character) => names::character(text, answer),
            Some(Command::Scheme) => names::scheme(text, answer),
            None => answer.push(b"no such command"),
        }
    }
}

fn main(rt: HostRuntime) -> io::Result<()> {
    let mut layer = Texts { alloc: rt.alloc() };
    run_script(&rt, &mut layer)
}
