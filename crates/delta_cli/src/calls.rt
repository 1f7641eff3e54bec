//! What the words ask of a server.
ghost use Rattle.std.specs.Prelude.{◌≡◌, ◌<◌, [], ℕ, get_or, length, true, IfOk, IfErr};
ghost use Rattle.rpc_calls.specs.Routes.{version_asked};
ghost use Rattle.command_tables.specs.Channels.{words_of};
ghost use Rattle.command_tables.specs.Names.{FitsName};
ghost use Rattle.delta_cli.specs.Commands.{Asks, AsksFor, IsOfCall};
ghost use Rattle.command_tables.specs.Names.{asks_server};
ghost use Rattle.delta_cli.specs.Commands.{RefusesWords};
ghost use Rattle.command_tables.specs.declared.name.Name.TheVariants as names;

use crate::append::Appended;
use crate::command::Command;
use command_tables::{Name, Refusal, is_address};
use delta_base::{OutOfMemory, Text, random_id, read_id};
use http_heads::{are_digits, digits_value};
use rpc_calls::Call;
use std::alloc::Global;

/// The command of this name, which asks a server, and whose words are one for each
/// of its positions.
pub fn make_asking(
    alloc: Global,
    name: Name,
    words: &[String],
    dice: u128,
) -> Result<Command, Refusal>
    requires fits { FitsName (words_of words.now) name }
    requires asks_server { asks_server name ≡ true }
    ensures asks { IfOk result (Asks (words_of words.now) dice) }
    ensures refused { IfErr result (RefusesWords (words_of words.now)) }
{
    let address = text_at(alloc, words, 1)?;
    if !is_address(address.as_str()) {
        return Err(Refusal::Usage(name));
    }
    match name {
        Name::Describe => Ok(Command::Describe {
            address,
            name: text_at(alloc, words, 2)?,
        }),
        Name::Append => Ok(Command::Append {
            what: Appended::Patch,
            address,
            name: text_at(alloc, words, 2)?,
        }),
        Name::AppendRun => Ok(Command::Append {
            what: Appended::Run,
            address,
            name: text_at(alloc, words, 2)?,
        }),
        _ => match make_call(alloc, name, words, dice) {
            Ok(call) => Ok(Command::Ask { address, call }),
            Err(refusal) => Err(refusal),
        },
    }
}

/// The word at a place.
pub fn text_at(alloc: Global, words: &[String], place: usize) -> Result<Text, OutOfMemory>
    requires { place < length words.now }
    ensures { IfOk result (λ text. text ≡ get_or (words_of words.now) place []) }
{
    Text::from_str(alloc, words[place].as_str())
}

// The call of this name.
fn make_call(alloc: Global, name: Name, words: &[String], dice: u128) -> Result<Call, Refusal>
    requires fits { FitsName (words_of words.now) name }
    requires of_call { IsOfCall name }
    ensures call { IfOk result
        (AsksFor (words_of words.now) dice (get_or (words_of words.now) 1 [])) }
    ensures refused { IfErr result (RefusesWords (words_of words.now)) }
{
    match name {
        Name::Ping => Ok(Call::Ping),
        Name::List => Ok(Call::List),
        Name::Create => Ok(Call::Create {
            name: text_at(alloc, words, 2)?,
            uri: text_at(alloc, words, 3)?,
            id: Some(random_id(dice)),
        }),
        Name::Rename => Ok(Call::Rename {
            name: text_at(alloc, words, 2)?,
            new_name: text_at(alloc, words, 3)?,
        }),
        Name::Remove => Ok(Call::Remove {
            name: text_at(alloc, words, 2)?,
        }),
        Name::LogVersion => Ok(Call::Version {
            name: text_at(alloc, words, 2)?,
        }),
        Name::Fetch => make_fetch(alloc, words),
        _ => unreachable!(),
    }
}

// The fetch of a patch: by a version, or by an id.
fn make_fetch(alloc: Global, words: &[String]) -> Result<Call, Refusal>
    requires fits { FitsName (words_of words.now) names.Fetch }
    ensures call { IfOk result (λ call. (dice : ℕ)
        → AsksFor (words_of words.now) dice (get_or (words_of words.now) 1 []) call) }
    ensures refused { IfErr result (RefusesWords (words_of words.now)) }
{
    let name = text_at(alloc, words, 2)?;
    let which = text_at(alloc, words, 3)?;
    match version_of(which.as_bytes()) {
        Some(version) => Ok(Call::FetchVersion { name, version }),
        None => match read_id(which.as_bytes()) {
            Some(id) => Ok(Call::FetchId { name, id }),
            None => Err(Refusal::Usage(Name::Fetch)),
        },
    }
}

// The number that 1 to 10 digits have.
fn version_of(text: &[u8]) -> Option<u64>
    ensures { result ≡ version_asked text.now }
{
    if text.is_empty() || text.len() > 10 || !are_digits(text) {
        return None;
    }
    Some(digits_value(text))
}
