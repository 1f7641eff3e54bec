//! Inserts keys made by rule into an index, matches patterns of them and removes them, to
//! measure how fast.
//!
//! `dataset_bench N` prints for each of the three how many keys it met and how many
//! microseconds it took.
#![tactic(auto)]

mod keys;
mod work;

use quad_index::QuadIndex;
use std::marker::Brand;
use std::process::ExitCode;
use std::sync::ledger::Blank;
use std::time::Instant;
use std::{env, io};
use work::{insert_keys, match_keys, remove_keys};

fn main(rt: HostRuntime) -> io::Result<ExitCode> {
    let alloc = rt.alloc();
    let mut words = Vec::new(alloc);
    for word in env::args(&rt)?.skip(1) {
        words.push(word)?;
    }
    let [count] = words.as_slice() else {
        eprintln!(rt; "usage: dataset_bench N")?;
        return Ok(ExitCode::from(2));
    };
    let Ok(count) = count.parse::<u32>() else {
        eprintln!(rt; "dataset_bench: not a number: {count}")?;
        return Ok(ExitCode::from(2));
    };
    let mut index = QuadIndex::new(alloc);
    let start = Instant::now(&rt)?;
    let Ok(inserted) = insert_keys(&mut index, count) else {
        return Ok(ExitCode::from(4));
    };
    println!(rt;
        "insert {inserted} micros {}",
        start.elapsed(&rt)?.as_micros()
    )?;
    let start = Instant::now(&rt)?;
    let Ok(matched) = match_keys::<Brand>(&mut index, count, Blank::new(1)) else {
        return Ok(ExitCode::from(4));
    };
    println!(rt;
        "match {matched} micros {}",
        start.elapsed(&rt)?.as_micros()
    )?;
    let start = Instant::now(&rt)?;
    let removed = remove_keys(&mut index, count);
    println!(rt;
        "remove {removed} micros {}",
        start.elapsed(&rt)?.as_micros()
    )?;
    Ok(ExitCode::SUCCESS)
}
