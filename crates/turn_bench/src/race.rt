//! Threads that take the turn, each with a pass of its own.
ghost use Rattle.std.specs.Prelude.{◌≡◌, ◌<◌, ◌≤◌, ◌+◌, ◌*◌, ◌^◌, [], All, IfOk, length, vec_len};
ghost use Rattle.turn_bench.specs.After.{IsIdle, IsAfter, AreAfter, AreOfRace};

use crate::numbers::Numbers;
use delta_base::OutOfMemory;
use std::alloc::Global;
use std::sync::Wait;
use std::thread;
use std::thread::Threads;
use turn_cell::{Pass, Turn};

/// The numbers that so many threads add, each in so many stays, one number a stay.
pub fn race<R: Threads + Wait + Sync>(
    rt: &R,
    alloc: Global,
    threads: u32,
    stays: u32,
) -> Result<Numbers, OutOfMemory>
    requires { (0 < threads) × (threads ≤ 16) }
    ensures { IfOk result (AreOfRace threads stays) }
{
    let room = threads as usize * stays as usize;
    let numbers = Numbers::with_room(alloc, room)?;
    let (turn, mut passes) = Turn::new(alloc, numbers, threads)?;
    stay_each(rt, &turn, &mut passes, stays);
    Ok(turn.close(passes))
}

// Each pass has so many stays, on a thread where one can be made.
fn stay_each<R: Threads + Wait + Sync>(
    rt: &R,
    turn: &Turn<Numbers>,
    passes: &mut [Pass<Numbers>],
    stays: u32,
)
    requires { All (IsIdle turn.now.cell) passes.old }
    ensures { AreAfter stays passes.old passes.new }
{
    thread::for_each_mut(
        rt,
        passes,
        16,
        &|_place: usize, pass: &mut Pass<Numbers>|
            requires { IsIdle turn.now.cell pass.old }
            ensures { IsAfter stays pass.old pass.new }
        { stay_often(rt, turn, pass, stays) },
    );
}

// So many stays, in each of which the pass adds a number.
fn stay_often<R: Wait>(rt: &R, turn: &Turn<Numbers>, pass: &mut Pass<Numbers>, stays: u32)
    requires { IsIdle turn.now.cell pass.old }
    ensures { IsAfter stays pass.old pass.new }
{
    for number in 0..stays {
        stay(rt, turn, pass, u64::from(number));
    }
}

// One stay, in which the pass adds a number.
fn stay<R: Wait>(rt: &R, turn: &Turn<Numbers>, pass: &mut Pass<Numbers>, number: u64)
    requires { IsIdle turn.now.cell pass.old }
    ensures { IsAfter 1 pass.old pass.new }
{
    let by = pass.number();
    let mut held = turn.enter(rt, pass);
    held.value_mut().add(number, by);
    turn.give_back(pass, held, true);
}
