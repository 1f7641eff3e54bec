//! The names of the commands.
ghost use Rattle.std.specs.Prelude.{◌≡◌, ◌++◌, ◌<◌, true, length, map, OnOk};
ghost use Rattle.command_tables.specs.Names.{IsNamed, asks_server, first_name, is_of_zone};
ghost use Rattle.command_tables.specs.Names.{name_text, group_of, positions_of, usage_text};
ghost use Rattle.command_tables.specs.Positions.{all_differ};

use crate::rows::{Group, ROWS, StaticRow};
use delta_base::OutOfMemory;

/// A command, by the word that names it.
#[derive(Clone, Copy, Debug, PartialEq, Eq)]
pub enum Name {
    Replay,
    /// One patch stands in the place of some of a stream.
    Squash,
    /// The patch that undoes the last one of a stream.
    Invert,
    Nquads,
    Gen,
    Emit,
    Init,
    Check,
    /// The files of a registry and its logs are brought to the new form.
    Upgrade,
    Zone,
    Dump,
    Prefixes,
    Match,
    /// A zone catches up with a log of a server.
    Sync,
    /// A zone opens from what it has then, without the patches that made it.
    Checkpoint,
    /// The files of a zone are brought to the new form.
    UpgradeZone,
    /// The command of the server, which this tool doesn't run.
    Serve,
    Ping,
    List,
    Create,
    Rename,
    Remove,
    Describe,
    /// The version of a log.
    LogVersion,
    Append,
    AppendRun,
    Fetch,
    Help,
    Version,
}

impl Name {
    /// The command that a word names.
    pub fn find(word: &str) -> Option<Name>
        ensures found { IsNamed word.now result }
        ensures only { (name : Name) → word.now ≡ name_text name → result ≡ Some name }
    {
        first_name(ROWS, word)
    }

    fn row(self) -> StaticRow
        ensures word { result.word.now ≡ name_text self }
        ensures positions { map (λ text. text.now) result.positions.now ≡ positions_of self }
        ensures group { result.group ≡ group_of self }
    {
        ROWS[self as usize]
    }

    /// Whether the command asks a server at the address of its first position.
    pub fn asks_server(self) -> bool
        ensures { result ≡ asks_server self }
    {
        matches!(self.row().group, Group::Call)
    }

    /// Whether the command is on a zone, whose directory is its first position.
    pub fn is_of_zone(self) -> bool
        ensures { result ≡ is_of_zone self }
    {
        matches!(self.row().group, Group::Zone)
    }

    /// What stands for each word behind the name.
    pub fn positions(self) -> &'static [&'static str]
        ensures positions { map (λ s. s.now) result.now ≡ positions_of self }
        ensures apart { all_differ (positions_of self) ≡ true }
        ensures few { length (positions_of self) < 1000 }
    {
        self.row().positions
    }

    /// Puts the command's words behind a text.
    pub fn push_usage(self, text: &mut Vec<u8>) -> Result<(), OutOfMemory>
        ensures { OnOk result (text.new.items ≡ text.old.items ++ usage_text self) }
    {
        let row = self.row();
        text.extend_from_slice(row.word.as_bytes())?;
        for position in row.positions {
            text.push(b' ')?;
            text.extend_from_slice(position.as_bytes())?;
        }
        Ok(())
    }
}

// The name of the first row with that word.
fn first_name(rows: &[StaticRow], word: &str) -> Option<Name>
    ensures { result ≡ first_name word.now (map (λ row. (row.word.now, row.name)) rows.now) }
{
    for row in rows {
        if row.word == word {
            return Some(row.name);
        }
    }
    None
}
