//! The commands, one row each.
use crate::name::Name;

/// What a command is on.
#[derive(Clone, Copy)]
pub enum Group {
    /// Texts that are read or made.
    Texts,
    /// The files of a server.
    Files,
    /// A zone, whose directory is the first position.
    Zone,
    /// A server, whose address is the first position.
    Call,
    /// The files of a server, which are served.
    Serving,
    /// The program itself.
    Own,
}

/// A command. Its texts have parameters for types, since contracts don't see a constant whose type
/// names none and holds a reference.
#[derive(Clone, Copy)]
pub struct CommandRow<Word, Words> {
    pub name: Name,
    /// The word that names the command.
    pub word: Word,
    /// What stands for each word behind it.
    pub positions: Words,
    pub group: Group,
    /// The lines that `--help` prints behind these words. The first one is empty where they begin
    /// below them, though there would be room.
    pub help: Words,
}

/// A row of the program.
pub type StaticRow = CommandRow<&'static str, &'static [&'static str]>;

/// The commands, in the order of their names.
pub const ROWS: &[StaticRow] = &[
    CommandRow {
        name: Name::Replay,
        word: "replay",
        positions: &[],
        group: Group::Texts,
        help: &["read a stream of patches, print the canonical lines of its dataset"],
    },
    CommandRow {
        name: Name::Squash,
        word: "squash",
        positions: &["V", "W"],
        group: Group::Texts,
        help: &["read a stream of patches, print it with those from V to W as one"],
    },
    CommandRow {
        name: Name::Invert,
        word: "invert",
        positions: &["ID"],
        group: Group::Texts,
        help: &["read a stream of patches, print the patch that undoes the last one"],
    },
    CommandRow {
        name: Name::Nquads,
        word: "nquads",
        positions: &[],
        group: Group::Texts,
        help: &["read an N-Quads document, print its canonical lines"],
    },
    CommandRow {
        name: Name::Gen,
        word: "gen",
        positions: &["N"],
        group: Group::Texts,
        help: &["make N patches by rule and replay them, print the counts"],
    },
    CommandRow {
        name: Name::Emit,
        word: "emit",
        positions: &["N"],
        group: Group::Texts,
        help: &["print N patches made by rule"],
    },
    CommandRow {
        name: Name::Init,
        word: "init",
        positions: &["DIR", "SLOTS"],
        group: Group::Files,
        help: &["make the files of a registry and of SLOTS logs in a directory"],
    },
    CommandRow {
        name: Name::Check,
        word: "check",
        positions: &["DIR"],
        group: Group::Files,
        help: &["open the files of a directory, print a line for each"],
    },
    CommandRow {
        name: Name::Upgrade,
        word: "upgrade",
        positions: &["DIR"],
        group: Group::Files,
        help: &["bring the files of a directory to the new form, print how many had the old"],
    },
    CommandRow {
        name: Name::Zone,
        word: "zone",
        positions: &["DIR"],
        group: Group::Zone,
        help: &["make the file of a zone in a directory"],
    },
    CommandRow {
        name: Name::Dump,
        word: "dump",
        positions: &["DIR"],
        group: Group::Zone,
        help: &["print the canonical lines of a zone's dataset"],
    },
    CommandRow {
        name: Name::Prefixes,
        word: "prefixes",
        positions: &["DIR"],
        group: Group::Zone,
        help: &["print the rows that set the prefixes of a zone's dataset"],
    },
    CommandRow {
        name: Name::Match,
        word: "match",
        positions: &["DIR", "G", "S", "P", "O"],
        group: Group::Zone,
        help: &[
            "print the lines that match a graph, subject, predicate and object; * is",
            "free, and `default` as G the default graph",
        ],
    },
    CommandRow {
        name: Name::Sync,
        word: "sync",
        positions: &["DIR", "ADDR", "NAME"],
        group: Group::Zone,
        help: &["have a zone catch up with a log of the server at an address"],
    },
    CommandRow {
        name: Name::Checkpoint,
        word: "checkpoint",
        positions: &["DIR"],
        group: Group::Zone,
        help: &["put what a zone has into its other file, from which it opens then"],
    },
    CommandRow {
        name: Name::UpgradeZone,
        word: "upgrade_zone",
        positions: &["DIR"],
        group: Group::Zone,
        help: &["bring the files of a zone to the new form, print how many had the old"],
    },
    CommandRow {
        name: Name::Serve,
        word: "serve",
        positions: &["DIR", "ADDR", "WORKERS"],
        group: Group::Serving,
        help: &["serve the files of a directory over HTTP, with 1 to 16 workers"],
    },
    CommandRow {
        name: Name::Ping,
        word: "ping",
        positions: &["ADDR"],
        group: Group::Call,
        help: &["ask the server at an address whether it answers, print its answer"],
    },
    CommandRow {
        name: Name::List,
        word: "list",
        positions: &["ADDR"],
        group: Group::Call,
        help: &["ask for the sources, print them"],
    },
    CommandRow {
        name: Name::Create,
        word: "create",
        positions: &["ADDR", "NAME", "URI"],
        group: Group::Call,
        help: &["have a source made, print it"],
    },
    CommandRow {
        name: Name::Rename,
        word: "rename",
        positions: &["ADDR", "NAME", "NEW"],
        group: Group::Call,
        help: &["have a source renamed, print it"],
    },
    CommandRow {
        name: Name::Remove,
        word: "remove",
        positions: &["ADDR", "NAME"],
        group: Group::Call,
        help: &["have a source removed, print it"],
    },
    CommandRow {
        name: Name::Describe,
        word: "describe",
        positions: &["ADDR", "NAME"],
        group: Group::Call,
        help: &["ask for a source and its log, print both"],
    },
    CommandRow {
        name: Name::LogVersion,
        word: "version",
        positions: &["ADDR", "NAME"],
        group: Group::Call,
        help: &["", "ask for the version of a log, print it"],
    },
    CommandRow {
        name: Name::Append,
        word: "append",
        positions: &["ADDR", "NAME"],
        group: Group::Call,
        help: &["read a patch, have it appended to a log, print the log's version"],
    },
    CommandRow {
        name: Name::AppendRun,
        word: "append_run",
        positions: &["ADDR", "NAME"],
        group: Group::Call,
        help: &["read patches, have all or none appended to a log, print their versions"],
    },
    CommandRow {
        name: Name::Fetch,
        word: "fetch",
        positions: &["ADDR", "NAME", "WHICH"],
        group: Group::Call,
        help: &["ask for a patch by its version or id, print it"],
    },
    CommandRow {
        name: Name::Help,
        word: "--help",
        positions: &[],
        group: Group::Own,
        help: &["print this"],
    },
    CommandRow {
        name: Name::Version,
        word: "--version",
        positions: &[],
        group: Group::Own,
        help: &["print the version"],
    },
];
