//! What the words ask for.
ghost use Rattle.std.specs.Prelude.{◌≡◌, ℕ, List, IfOk, IfErr, OnOk};
ghost use Rattle.command_tables.specs.Positions.{FitPositions};
ghost use Rattle.command_tables.specs.Channels.{words_of};
ghost use Rattle.command_tables.specs.Names.{BeginsWith, FitsName, positions_of};
ghost use Rattle.delta_server.specs.Words.{AsksToServe, RefusesToServe};

use command_tables::{Name, Refusal, WordsFault, is_address, number_in, read_words};
use delta_base::Text;
use std::alloc::Global;

/// A directory whose files are to be served, by so many workers.
#[derive(Debug, Drop)]
pub struct Serve {
    pub dir: Text,
    pub workers: u32,
}

/// The most workers.
pub const MOST_WORKERS: u32 = 16;

/// What the words ask for.
pub fn read_serve(alloc: Global, words: &[String]) -> Result<Serve, Refusal>
    ensures asks { IfOk result (λ serve. (address : List ℕ)
        × AsksToServe (words_of words.now) serve.dir address serve.workers) }
    ensures refused { IfErr result (RefusesToServe (words_of words.now)) }
{
    let [first, ..] = words else {
        return Err(Refusal::UnknownCommand);
    };
    if first.as_str() == "serve" {
        read_positions(alloc, words)
    } else {
        Err(Refusal::UnknownCommand)
    }
}

// What the words ask for, of which the first names the command.
fn read_positions(alloc: Global, words: &[String]) -> Result<Serve, Refusal>
    requires { BeginsWith (words_of words.now) Name.Serve }
    ensures asks { IfOk result (λ serve. (address : List ℕ)
        × AsksToServe (words_of words.now) serve.dir address serve.workers) }
    ensures refused { IfErr result (RefusesToServe (words_of words.now)) }
{
    match test_positions(alloc, words) {
        Ok(()) => make(alloc, words),
        Err(WordsFault::Usage) => Err(Refusal::Usage(Name::Serve)),
        Err(WordsFault::OutOfMemory) => Err(Refusal::OutOfMemory),
    }
}

// Whether the words are one for each of the command's positions.
fn test_positions(alloc: Global, words: &[String]) -> Result<(), WordsFault>
    requires { BeginsWith (words_of words.now) Name.Serve }
    ensures fit { OnOk result (FitPositions (positions_of Name.Serve) (words_of words.now)) }
    ensures usage { result ≡ Err WordsFault.Usage
        → ¬ (FitPositions (positions_of Name.Serve) (words_of words.now)) }
{
    match read_words(alloc, Name::Serve.positions(), words) {
        Ok(_values) => Ok(()),
        Err(fault) => Err(fault),
    }
}

// What the words ask for, which are one for each of the command's positions.
fn make(alloc: Global, words: &[String]) -> Result<Serve, Refusal>
    requires { FitsName (words_of words.now) Name.Serve }
    ensures asks { IfOk result (λ serve. (address : List ℕ)
        × AsksToServe (words_of words.now) serve.dir address serve.workers) }
    ensures refused { IfErr result (RefusesToServe (words_of words.now)) }
{
    let [_, dir, address, workers] = words else {
        unreachable!()
    };
    if !is_address(address.as_str()) {
        return Err(Refusal::Usage(Name::Serve));
    }
    match number_in(alloc, 1, MOST_WORKERS, workers.as_str())? {
        Some(workers) => Ok(Serve {
            dir: Text::from_str(alloc, dir.as_str())?,
            workers,
        }),
        None => Err(Refusal::Usage(Name::Serve)),
    }
}
