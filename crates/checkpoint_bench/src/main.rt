//! Reads standard input as a checkpoint, to measure how fast.
//!
//! `checkpoint_bench` prints how many ids it read.
#![tactic(auto)]

use checkpoint_reading::read_checkpoint;
use std::io;
use std::io::Read;
use std::process::ExitCode;

fn main(rt: HostRuntime) -> io::Result<ExitCode> {
    let mut text = Vec::new(rt.alloc());
    rt.stdin().read_to_end(&mut text)?;
    let read = read_checkpoint(rt.alloc(), text.as_slice());
    drop(text);
    match read {
        Ok(read) => {
            let ids = read.ids.len();
            drop(read);
            println!(rt; "ids {ids}")?;
            Ok(ExitCode::SUCCESS)
        }
        Err(fault) => {
            eprintln!(rt; "checkpoint_bench: {fault:?}")?;
            Ok(ExitCode::from(3))
        }
    }
}
