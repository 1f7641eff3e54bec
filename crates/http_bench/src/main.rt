//! Feeds standard input to a reader of requests in pieces of one size, to measure what
//! small pieces cost.
//!
//! `http_bench SIZE` prints how many requests it took, and how many bytes their bodies have.
#![tactic(auto)]

ghost use Rattle.std.specs.Prelude.{◌<◌};

use http_heads::FrameFault;
use http_text::RequestReader;
use std::alloc::Global;
use std::env::Args;
use std::io::Read;
use std::process::ExitCode;
use std::{env, io};

/// What was taken of a reader.
#[derive(Clone, Copy)]
struct Tally {
    requests: usize,
    bytes: usize,
}

/// Takes a request that is ready, and counts it.
fn take_one(reader: &mut RequestReader, tally: Tally) -> Option<Tally> {
    let request = reader.take()?;
    let length = request.body.len();
    drop(request);
    Some(Tally {
        requests: tally.requests.saturating_add(1),
        bytes: tally.bytes.saturating_add(length),
    })
}

/// Feeds a text in pieces, and takes at most as many requests as it has bytes.
fn feed_all(reader: &mut RequestReader, text: &[u8], size: usize) -> Result<Tally, FrameFault>
    requires { 0 < size }
{
    let mut tally = Tally {
        requests: 0,
        bytes: 0,
    };
    for piece in text.chunks(size) {
        reader.feed(piece)?;
        for _ in 0..piece.len() {
            match take_one(reader, tally) {
                Some(next) => tally = next,
                None => break,
            }
        }
    }
    Ok(tally)
}

/// What a text has that is fed in pieces of `size` bytes, or of one byte where that is 0.
fn count_requests(alloc: Global, text: &[u8], size: u32) -> Result<Tally, FrameFault> {
    let mut reader = RequestReader::new(alloc);
    let counted = feed_all(&mut reader, text, size.max(1) as usize);
    drop(reader);
    counted
}

/// The word behind the program's name, if it is the only one.
fn only_word(args: Args) -> Option<String> {
    let mut words = args.skip(1);
    let word = words.next()?;
    if words.next().is_some() {
        None
    } else {
        Some(word)
    }
}

fn main(rt: HostRuntime) -> io::Result<ExitCode> {
    let Some(word) = only_word(env::args(&rt)?) else {
        eprintln!(rt; "usage: http_bench SIZE")?;
        return Ok(ExitCode::from(2));
    };
    let Ok(size) = word.parse::<u32>() else {
        eprintln!(rt; "http_bench: not a number: {word}")?;
        return Ok(ExitCode::from(2));
    };
    drop(word);
    let mut text = Vec::new(rt.alloc());
    rt.stdin().read_to_end(&mut text)?;
    let counted = count_requests(rt.alloc(), &text, size);
    drop(text);
    match counted {
        Ok(tally) => {
            println!(rt; "requests {} bytes {}", tally.requests, tally.bytes)?;
            Ok(ExitCode::SUCCESS)
        }
        Err(fault) => {
            eprintln!(rt; "http_bench: {fault:?}")?;
            Ok(ExitCode::from(4))
        }
    }
}
