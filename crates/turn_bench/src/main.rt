//! Hands a turn from thread to thread, to measure how many times a second.
//!
//! `turn_bench STAYS` prints a line for each number of threads.
#![tactic(auto)]

mod numbers;
mod race;
#[cfg(test)]
mod tests;

use race::race;
use std::process::ExitCode;
use std::time::Instant;
use std::{env, io};

/// The numbers of threads, each with a pass of its own.
const THREADS: [u32; 4] = [1, 2, 4, 16];

fn main(rt: HostRuntime) -> io::Result<ExitCode> {
    let alloc = rt.alloc();
    let mut words = Vec::new(alloc);
    for word in env::args(&rt)?.skip(1) {
        words.push(word)?;
    }
    let stays = match words.as_slice() {
        [word] => word.parse::<u32>().unwrap_or(0),
        _ => 0,
    };
    if stays == 0 || stays > 1_000_000 {
        eprintln!(rt; "usage: turn_bench STAYS")?;
        return Ok(ExitCode::from(2));
    }
    for threads in THREADS {
        let begin = Instant::now(&rt)?;
        let Ok(numbers) = race(&rt, alloc, threads, stays / threads) else {
            eprintln!(rt; "turn_bench: out of memory")?;
            return Ok(ExitCode::from(8));
        };
        let micros = begin.elapsed(&rt)?.as_micros();
        println!(rt;
            "threads {threads} stays {} microseconds {micros}",
            numbers.len()
        )?;
    }
    Ok(ExitCode::SUCCESS)
}
