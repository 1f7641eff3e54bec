//! What the words ask for.
ghost use Rattle.std.specs.Prelude.{◌≡◌, ℕ, false, IfOk, IfErr, OnOk};
ghost use Rattle.command_tables.specs.Channels.{words_of};
ghost use Rattle.command_tables.specs.Positions.{FitPositions};
ghost use Rattle.command_tables.specs.Names.{BeginsWith, FitsName, HasFirst};
ghost use Rattle.command_tables.specs.Names.{asks_server, is_of_zone, positions_of};
ghost use Rattle.command_tables.specs.declared.name.Name.TheVariants as names;
ghost use Rattle.delta_cli.specs.Commands.{Asks, IsOfTool, RefusesWords};

use crate::append::Appended;
use crate::calls::{make_asking, text_at};
use crate::zone_words::make_of_zone;
use command_tables::{Name, Refusal, WordsFault, number_in, read_words};
use delta_base::{Id, Text, read_id};
use rpc_calls::Call;
use std::alloc::Global;
use zone_commands::Reading;

/// A command with what its words say.
#[derive(Drop)]
pub enum Command {
    Replay,
    /// The input's stream, with the net patch of those from one version to another in their place.
    Squash {
        from: u32,
        to: u32,
    },
    /// The patch of an id that undoes the last one of the input's stream.
    Invert {
        id: Id,
    },
    Nquads,
    /// So many patches of the generator, replayed.
    Gen {
        patches: u32,
    },
    /// So many patches of the generator, written.
    Emit {
        patches: u32,
    },
    Init {
        dir: Text,
        slots: u8,
    },
    Check {
        dir: Text,
    },
    /// The files of a directory's registry and logs, which are to have the new form.
    Upgrade {
        dir: Text,
    },
    /// The first file of a directory's zone, which is to be made.
    Zone {
        dir: Text,
    },
    /// What is read of a directory's zone.
    Read {
        dir: Text,
        reading: Reading,
    },
    /// The zone of a directory, which is to catch up with a log of the server at an address.
    Sync {
        dir: Text,
        address: Text,
        name: Text,
    },
    /// The zone of a directory, which is to open from what it has then.
    Checkpoint {
        dir: Text,
    },
    /// The files of a directory's zone, which are to have the new form.
    UpgradeZone {
        dir: Text,
    },
    /// A call to the server at an address.
    Ask {
        address: Text,
        call: Call,
    },
    /// A source of the server at an address, and its log.
    Describe {
        address: Text,
        name: Text,
    },
    /// The input, for a log of the server at an address.
    Append {
        what: Appended,
        address: Text,
        name: Text,
    },
    Help,
    Version,
}

/// The most patches of the generator, and the last version that is squashed.
const MOST_PATCHES: u32 = 65_536;

/// The most slots of a directory.
const MOST_SLOTS: u32 = 16;

/// The command that the words ask for.
pub fn read_command(alloc: Global, words: &[String], dice: u128) -> Result<Command, Refusal>
    ensures asks { IfOk result (Asks (words_of words.now) dice) }
    ensures refused { IfErr result (RefusesWords (words_of words.now)) }
{
    match words {
        [first, ..] => read_named(alloc, first.as_str(), words, dice),
        [] => Err(Refusal::UnknownCommand),
    }
}

// The command that the words ask for, of which this is the first.
fn read_named(alloc: Global, first: &str, words: &[String], dice: u128) -> Result<Command, Refusal>
    requires { HasFirst (words_of words.now) first.now }
    ensures asks { IfOk result (Asks (words_of words.now) dice) }
    ensures refused { IfErr result (RefusesWords (words_of words.now)) }
{
    match Name::find(first) {
        Some(Name::Serve) => Err(Refusal::UnknownCommand),
        Some(name) => read_positions(alloc, name, words, dice),
        None => Err(Refusal::UnknownCommand),
    }
}

// The command of this name.
fn read_positions(
    alloc: Global,
    name: Name,
    words: &[String],
    dice: u128,
) -> Result<Command, Refusal>
    requires begins { BeginsWith (words_of words.now) name }
    requires of_tool { IsOfTool name }
    ensures asks { IfOk result (Asks (words_of words.now) dice) }
    ensures refused { IfErr result (RefusesWords (words_of words.now)) }
{
    match test_positions(alloc, name, words) {
        Ok(()) if name.asks_server() => make_asking(alloc, name, words, dice),
        Ok(()) if name.is_of_zone() => make_of_zone(alloc, name, words),
        Ok(()) => make(alloc, name, words),
        Err(WordsFault::Usage) => Err(Refusal::Usage(name)),
        Err(WordsFault::OutOfMemory) => Err(Refusal::OutOfMemory),
    }
}

// Whether the words are one for each of the command's positions.
fn test_positions(alloc: Global, name: Name, words: &[String]) -> Result<(), WordsFault>
    requires { BeginsWith (words_of words.now) name }
    ensures fit { OnOk result (FitPositions (positions_of name) (words_of words.now)) }
    ensures usage { result ≡ Err WordsFault.Usage
        → ¬ (FitPositions (positions_of name) (words_of words.now)) }
{
    match read_words(alloc, name.positions(), words) {
        Ok(_values) => Ok(()),
        Err(fault) => Err(fault),
    }
}

// The command of this name, which asks no server and is on no zone, and whose words are one for
// each of its positions.
fn make(alloc: Global, name: Name, words: &[String]) -> Result<Command, Refusal>
    requires fits { FitsName (words_of words.now) name }
    requires of_tool { IsOfTool name }
    requires alone { asks_server name ≡ false }
    requires no_zone { is_of_zone name ≡ false }
    ensures asks { IfOk result (λ command. (dice : ℕ) → Asks (words_of words.now) dice command) }
    ensures refused { IfErr result (RefusesWords (words_of words.now)) }
{
    match (name, words) {
        (Name::Replay, _) => Ok(Command::Replay),
        (Name::Squash, _) => make_squash(alloc, words),
        (Name::Invert, _) => make_invert(alloc, words),
        (Name::Nquads, _) => Ok(Command::Nquads),
        (Name::Help, _) => Ok(Command::Help),
        (Name::Version, _) => Ok(Command::Version),
        (Name::Gen, [_, patches]) => match number_in(alloc, 0, MOST_PATCHES, patches.as_str())? {
            Some(patches) => Ok(Command::Gen { patches }),
            None => Err(Refusal::Usage(name)),
        },
        (Name::Emit, [_, patches]) => match number_in(alloc, 0, MOST_PATCHES, patches.as_str())? {
            Some(patches) => Ok(Command::Emit { patches }),
            None => Err(Refusal::Usage(name)),
        },
        (Name::Init, [_, dir, slots]) => match number_in(alloc, 1, MOST_SLOTS, slots.as_str())? {
            Some(slots) => Ok(Command::Init {
                dir: Text::from_str(alloc, dir.as_str())?,
                slots: slots as u8,
            }),
            None => Err(Refusal::Usage(name)),
        },
        (Name::Check, [_, dir]) => Ok(Command::Check {
            dir: Text::from_str(alloc, dir.as_str())?,
        }),
        (Name::Upgrade, [_, dir]) => Ok(Command::Upgrade {
            dir: Text::from_str(alloc, dir.as_str())?,
        }),
        _ => unreachable!(),
    }
}

// The squash of the versions that the words behind the name are.
fn make_squash(alloc: Global, words: &[String]) -> Result<Command, Refusal>
    requires { FitsName (words_of words.now) names.Squash }
    ensures asks { IfOk result (λ command. (dice : ℕ) → Asks (words_of words.now) dice command) }
    ensures refused { IfErr result (RefusesWords (words_of words.now)) }
{
    let first = text_at(alloc, words, 1)?;
    let last = text_at(alloc, words, 2)?;
    let Some(from) = number_in(alloc, 1, MOST_PATCHES, first.as_str())? else {
        return Err(Refusal::Usage(Name::Squash));
    };
    match number_in(alloc, from, MOST_PATCHES, last.as_str())? {
        Some(to) => Ok(Command::Squash { from, to }),
        None => Err(Refusal::Usage(Name::Squash)),
    }
}

// The inverse of the id that the word behind the name is.
fn make_invert(alloc: Global, words: &[String]) -> Result<Command, Refusal>
    requires { FitsName (words_of words.now) names.Invert }
    ensures asks { IfOk result (λ command. (dice : ℕ) → Asks (words_of words.now) dice command) }
    ensures refused { IfErr result (RefusesWords (words_of words.now)) }
{
    let id = text_at(alloc, words, 1)?;
    match read_id(id.as_bytes()) {
        Some(id) => Ok(Command::Invert { id }),
        None => Err(Refusal::Usage(Name::Invert)),
    }
}
