//! The words behind a command, read by `clap` as positions of one simple command: each position
//! holds one word, and all are required.
ghost use Rattle.std.specs.Prelude.{◌≡◌, ◌≢◌, ◌↔◌, IsTrue, ◌+◌, ◌<◌, true, Some, is_some};
ghost use Rattle.std.specs.Prelude.{IfOk, OnOk, map, drop, length, All, string_bytes};
ghost use Rattle.clap.specs.Words.{app_of, found_of, first_value};
ghost use Rattle.command_tables.specs.Positions.{ArePlain, FitPositions, IsPlainWord};
ghost use Rattle.command_tables.specs.Positions.{all_differ, positions_app};

use clap::error::ErrorKind;
use clap::{Arg, ArgMatches, Command, Error};
use std::alloc::{AllocError, Global};

// The command with these positions.
fn positions_command<'a>(
    alloc: Global,
    name: &'a str,
    names: &'a [&'a str],
) -> Result<Command<'a>, AllocError>
    ensures { IfOk result (λ c.
        app_of c ≡ positions_app name.entry.now (map (λ s. s.now) names.entry.now)) }
{
    let mut command = Command::new(alloc, name).disable_help_flag(true);
    for id in names {
        command = command.arg(Arg::new(alloc, id).required(true))?;
    }
    Ok(command)
}

// The value of each name.
fn values_of<'a>(
    alloc: Global,
    names: &[&str],
    matches: &ArgMatches<'a>,
) -> Result<Vec<&'a str>, AllocError>
    requires { All
        (λ name. is_some (first_value (found_of matches.now) name.now) ≡ true) names.now }
    ensures { IfOk result (λ v. map (λ word. Some word.now) v.items
        ≡ map (λ name. first_value (found_of matches.now) name.now) names.now) }
{
    let mut values = Vec::new(alloc);
    for name in names {
        match matches.get_str(name) {
            Some(word) => values.push(word)?,
            None => unreachable!(),
        }
    }
    Ok(values)
}

/// Why words were not taken.
#[derive(Clone, Copy, Debug, PartialEq, Eq, Drop)]
pub enum WordsFault {
    Usage,
    OutOfMemory,
}

// The matches of words, one for each of the names behind the command's own.
fn parse_positions<'a>(
    alloc: Global,
    names: &'a [&'a str],
    words: &'a [String],
) -> Result<ArgMatches<'a>, WordsFault>
    requires apart { all_differ (map (λ s. s.now) names.now) ≡ true }
    requires few { length names.now < 1000 }
    requires command { 0 < length words.now }
    requires plain { ArePlain (drop 1 (map string_bytes words.now)) }
    ensures values { IfOk result (λ m.
        map (λ name. first_value (found_of m) name.now) names.entry.now
        ≡ map (λ word. Some word) (drop 1 (map string_bytes words.entry.now))) }
    ensures count { OnOk result (length words.entry.now ≡ length names.entry.now + 1) }
    ensures usage { result ≡ Err WordsFault.Usage
        → length words.entry.now ≢ length names.entry.now + 1 }
{
    let Ok(command) = positions_command(alloc, words[0].as_str(), names) else {
        return Err(WordsFault::OutOfMemory);
    };
    match command.try_get_matches_from(words) {
        Ok(matches) => Ok(matches),
        Err(error) => match error.kind() {
            ErrorKind::OutOfMemory => Err(WordsFault::OutOfMemory),
            _ => Err(WordsFault::Usage),
        },
    }
}

/// The words behind a command, one for each of the names.
pub fn read_positions<'a>(
    alloc: Global,
    names: &'a [&'a str],
    words: &'a [String],
) -> Result<Vec<&'a str>, WordsFault>
    requires apart { all_differ (map (λ s. s.now) names.now) ≡ true }
    requires few { length names.now < 1000 }
    requires command { 0 < length words.now }
    requires plain { ArePlain (drop 1 (map string_bytes words.now)) }
    ensures words { IfOk result (λ v.
        map (λ s. s.now) v.items ≡ drop 1 (map string_bytes words.entry.now)) }
    ensures count { OnOk result (length words.entry.now ≡ length names.entry.now + 1) }
    ensures usage { result ≡ Err WordsFault.Usage
        → length words.entry.now ≢ length names.entry.now + 1 }
{
    let matches = parse_positions(alloc, names, words)?;
    match values_of(alloc, names, &matches) {
        Ok(values) => Ok(values),
        Err(_) => Err(WordsFault::OutOfMemory),
    }
}

// Whether the word does not begin with `-`.
fn is_plain(word: &str) -> bool
    ensures { IsTrue result ↔ IsPlainWord word.now }
{
    !matches!(word.as_bytes(), [b'-', ..])
}

// Whether none begins with `-`.
fn are_plain(words: &[String]) -> bool
    ensures { IsTrue result ↔ All (λ word. IsPlainWord (string_bytes word)) words.now }
{
    words.iter().all(|word| is_plain(word.as_str()))
}

/// The words behind a command, one for each of the names. A word that begins with `-` is refused.
pub fn read_words<'a>(
    alloc: Global,
    names: &'a [&'a str],
    words: &'a [String],
) -> Result<Vec<&'a str>, WordsFault>
    requires apart { all_differ (map (λ s. s.now) names.now) ≡ true }
    requires few { length names.now < 1000 }
    requires command { 0 < length words.now }
    ensures words { IfOk result (λ v.
        map (λ s. s.now) v.items ≡ drop 1 (map string_bytes words.entry.now)) }
    ensures fit { OnOk result
        (FitPositions (map (λ s. s.now) names.entry.now) (map string_bytes words.entry.now)) }
    ensures usage { result ≡ Err WordsFault.Usage
        → ¬ (FitPositions (map (λ s. s.now) names.entry.now) (map string_bytes words.entry.now)) }
{
    if are_plain(&words[1..]) {
        read_positions(alloc, names, words)
    } else {
        Err(WordsFault::Usage)
    }
}
