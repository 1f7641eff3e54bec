//! What the words ask of a zone.
ghost use Rattle.std.specs.Prelude.{◌≡◌, [], ℕ, get_or, true, IfOk, IfErr};
ghost use Rattle.pattern_words.specs.Words.{Finds, IsPatternOf};
ghost use Rattle.command_tables.specs.Channels.{words_of};
ghost use Rattle.command_tables.specs.Names.{FitsName, is_of_zone};
ghost use Rattle.delta_cli.specs.Commands.{Asks, RefusesWords};
ghost use Rattle.command_tables.specs.declared.name.Name.TheVariants as names;

use crate::calls::text_at;
use crate::command::Command;
use command_tables::{Name, Refusal, is_address};
use dataset_tx::Pattern;
use delta_base::{OutOfMemory, Text};
use pattern_words::read_pattern;
use std::alloc::Global;
use zone_commands::Reading;

/// The command of this name, which is on a zone, and whose words are one for each of its positions.
pub fn make_of_zone(alloc: Global, name: Name, words: &[String]) -> Result<Command, Refusal>
    requires fits { FitsName (words_of words.now) name }
    requires of_zone { is_of_zone name ≡ true }
    ensures asks { IfOk result (λ command. (dice : ℕ) → Asks (words_of words.now) dice command) }
    ensures refused { IfErr result (RefusesWords (words_of words.now)) }
{
    let dir = text_at(alloc, words, 1)?;
    match name {
        Name::Zone => Ok(Command::Zone { dir }),
        Name::Checkpoint => Ok(Command::Checkpoint { dir }),
        Name::UpgradeZone => Ok(Command::UpgradeZone { dir }),
        Name::Dump => Ok(Command::Read {
            dir,
            reading: Reading::Dump,
        }),
        Name::Prefixes => Ok(Command::Read {
            dir,
            reading: Reading::Prefixes,
        }),
        Name::Sync => make_sync(alloc, dir, words),
        Name::Match => match pattern_in(alloc, words) {
            Ok(Some(pattern)) => Ok(Command::Read {
                dir,
                reading: Reading::Match(pattern),
            }),
            Ok(None) => Err(Refusal::Usage(name)),
            Err(OutOfMemory) => Err(Refusal::OutOfMemory),
        },
        _ => unreachable!(),
    }
}

// The command by which the zone of a directory catches up: behind the directory stand an address
// and a name.
fn make_sync(alloc: Global, dir: Text, words: &[String]) -> Result<Command, Refusal>
    requires fits { FitsName (words_of words.now) names.Sync }
    requires dir { dir ≡ get_or (words_of words.now) 1 [] }
    ensures asks { IfOk result (λ command. (dice : ℕ) → Asks (words_of words.now) dice command) }
    ensures refused { IfErr result (RefusesWords (words_of words.now)) }
{
    let address = text_at(alloc, words, 2)?;
    if !is_address(address.as_str()) {
        return Err(Refusal::Usage(Name::Sync));
    }
    let name = text_at(alloc, words, 3)?;
    Ok(Command::Sync { dir, address, name })
}

// The pattern that the words behind the directory stand for.
fn pattern_in(alloc: Global, words: &[String]) -> Result<Option<Pattern>, OutOfMemory>
    requires { FitsName (words_of words.now) names.Match }
    ensures { IfOk result (Finds (IsPatternOf
        (get_or (words_of words.now) 2 []) (get_or (words_of words.now) 3 [])
        (get_or (words_of words.now) 4 []) (get_or (words_of words.now) 5 []))) }
{
    read_pattern(
        alloc,
        words[2].as_str(),
        words[3].as_str(),
        words[4].as_str(),
        words[5].as_str(),
    )
}
