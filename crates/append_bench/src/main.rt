//! Appends payloads of 200 bytes to a journal in a new file, to measure how many a second.
//!
//! `append_bench DIR N` takes the first number of `DIR` that has no bytes, and prints `appended N`.
#![tactic(auto)]

mod filling;

use delta_base::Text;
use disk_model::HostShelf;
use filling::{FillFault, fill_new_file};
use std::process::ExitCode;
use std::{env, io};

fn main(rt: HostRuntime) -> io::Result<ExitCode> {
    let alloc = rt.alloc();
    let mut words = Vec::new(alloc);
    for word in env::args(&rt)?.skip(1) {
        words.push(word)?;
    }
    let [dir, count] = words.as_slice() else {
        eprintln!(rt; "usage: append_bench DIR N")?;
        return Ok(ExitCode::from(2));
    };
    let Ok(count) = count.parse::<u32>() else {
        eprintln!(rt; "append_bench: not a number: {count}")?;
        return Ok(ExitCode::from(2));
    };
    let dir = Text::from_string(String::from_str(alloc, dir.as_str())?);
    let mut shelf = HostShelf::new(&rt, alloc);
    match fill_new_file(alloc, &mut shelf, &dir, count) {
        Ok(()) => {
            println!(rt; "appended {count}")?;
            Ok(ExitCode::SUCCESS)
        }
        Err(fault) => {
            eprintln!(rt; "append_bench: {fault:?}")?;
            Ok(ExitCode::from(5))
        }
    }
}
