//! Feeds standard input to a reader of rows in pieces of one size, to measure what
//! small pieces cost.
//!
//! `stream_bench SIZE` prints how many rows it read.
#![tactic(auto)]

mod counting;

use counting::count_rows;
use std::env::Args;
use std::io::Read;
use std::process::ExitCode;
use std::{env, io};

/// The word behind the program's name, if it is the only one.
fn only_word(args: Args) -> Option<String> {
    let mut words = args.skip(1);
    let word = words.next()?;
    if words.next().is_some() {
        None
    } else {
        Some(word)
    }
}

fn main(rt: HostRuntime) -> io::Result<ExitCode> {
    let Some(word) = only_word(env::args(&rt)?) else {
        eprintln!(rt; "usage: stream_bench SIZE")?;
        return Ok(ExitCode::from(2));
    };
    let Ok(size) = word.parse::<u32>() else {
        eprintln!(rt; "stream_bench: not a number: {word}")?;
        return Ok(ExitCode::from(2));
    };
    drop(word);
    let mut text = Vec::new(rt.alloc());
    rt.stdin().read_to_end(&mut text)?;
    let counted = count_rows(rt.alloc(), &text, size);
    drop(text);
    match counted {
        Ok(rows) => {
            println!(rt; "rows {rows}")?;
            Ok(ExitCode::SUCCESS)
        }
        Err(fault) => {
            eprintln!(rt; "stream_bench: {fault:?}")?;
            Ok(ExitCode::from(4))
        }
    }
}
