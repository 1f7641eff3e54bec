//! Two passes of one twin.
ghost use Rattle.std.specs.Prelude.{◌≡◌, ◌<◌, ◌≤◌, ◌^◌, [], IfOk, vec_capacity};
ghost use Rattle.turn_cell.specs.Knowing.{pass_number};
ghost use Rattle.twin_tests.specs.Numbers.{IsIdle};

use crate::numbers::{Numbers, Tally};
use std::alloc::Global;
use std::sync::Wait;
use std::test::Fail;
use std::thread::{Threads, join};
use twin_cell::{Twin, TwinPass};

type Pair = Twin<Tally, Numbers>;

type PairPass = TwinPass<Tally, Numbers>;

// Two passes, and the room that they came in.
#[derive(Drop)]
struct Passes {
    one: PairPass,
    two: PairPass,
    room: Vec<PairPass>,
}

// A tally and its numbers, of which there are none yet, that two passes share.
fn share(alloc: Global) -> Result<(Pair, Passes), Fail>
    ensures one { IfOk result (λ r. IsIdle r.0 r.1.one × (pass_number r.1.one ≡ 1)) }
    ensures two { IfOk result (λ r. IsIdle r.0 r.1.two × (pass_number r.1.two ≡ 2)) }
    ensures room { IfOk result (λ r.
        (r.0.seats ≡ 2) × (r.1.room.items ≡ []) × (2 ≤ vec_capacity r.1.room)) }
{
    let tally = Tally {
        total: 0,
        faults: 0,
    };
    let Ok((twin, mut room)) = Twin::new(alloc, tally, Numbers::new(alloc), 2) else {
        return Err(Fail::from("no memory"));
    };
    let Some(two) = room.pop() else {
        return Err(Fail::from("no pass 2"));
    };
    let Some(one) = room.pop() else {
        return Err(Fail::from("no pass 1"));
    };
    Ok((twin, Passes { one, two, room }))
}

// Gives both passes back.
fn close(twin: Pair, passes: Passes) -> (Tally, Numbers)
    requires one { IsIdle twin passes.one × (pass_number passes.one ≡ 1) }
    requires two { IsIdle twin passes.two × (pass_number passes.two ≡ 2) }
    requires room { (twin.seats ≡ 2) × (passes.room.items ≡ [])
        × (2 ≤ vec_capacity passes.room) }
{
    let Passes { one, two, mut room } = passes;
    room.push_reserved(one);
    room.push_reserved(two);
    twin.close(room)
}

// Brings a number: the room is reserved in a first stay at the list, and is there still in the
// second one, whoever was there in between. Answers whether there was memory.
fn bring<R: Wait>(rt: &R, twin: &Pair, pass: &mut PairPass, number: u64) -> bool
    requires { IsIdle twin.now pass.old }
    ensures { IsIdle twin.now pass.new × (pass_number pass.new ≡ pass_number pass.old) }
{
    let mut work = twin.enter_work(rt, pass);
    let mut list = twin.enter_list(rt, pass);
    if list.value_mut().reserve().is_err() {
        twin.leave_list(pass, list, 0);
        twin.leave_work_as_found(pass, work);
        return false;
    }
    twin.leave_list(pass, list, 1);
    let mut list = twin.enter_list(rt, pass);
    let by = pass.number();
    list.value_mut().push(number, by);
    work.value_mut().total += 1;
    twin.publish(pass, &work, list);
    twin.leave_work(pass, work);
    true
}

// The last number that a pass finds in the turn of the list.
fn last<R: Wait>(rt: &R, twin: &Pair, pass: &mut PairPass) -> Option<u64>
    requires { IsIdle twin.now pass.old }
    ensures { IsIdle twin.now pass.new × (pass_number pass.new ≡ pass_number pass.old) }
{
    let list = twin.enter_list(rt, pass);
    let last = list.value().entries.last().map(|e| e.content);
    twin.leave_list(pass, list, 0);
    last
}

#[test]
fn what_one_pass_publishes_the_other_sees(rt: HostRuntime) -> Result<(), Fail> {
    let (twin, mut passes) = share(rt.alloc())?;
    assert!(rt; bring(&rt, &twin, &mut passes.one, 7));
    assert!(rt; twin.count(&mut passes.two) == 1);
    assert!(rt; last(&rt, &twin, &mut passes.two) == Some(7));
    assert!(rt; bring(&rt, &twin, &mut passes.two, 8));
    assert!(rt; last(&rt, &twin, &mut passes.one) == Some(8));
    let (tally, numbers) = close(twin, passes);
    assert!(rt; tally.total == 2 && tally.faults == 0);
    assert!(rt; numbers.entries.iter().map(|e| e.by).eq([1, 2]));
    Ok(())
}

// A thread looks at the list while the first pass has the work, and is done before that pass leaves
// it. Answers what the thread found.
fn look_beside<R: Threads + Wait + Sync>(
    rt: &R,
    twin: &Pair,
    passes: Passes,
) -> (Passes, Option<u64>)
    requires one { IsIdle twin.now passes.one }
    requires two { IsIdle twin.now passes.two }
    ensures one { IsIdle twin.now result.0.one
        × (pass_number result.0.one ≡ pass_number passes.one) }
    ensures two { IsIdle twin.now result.0.two
        × (pass_number result.0.two ≡ pass_number passes.two) }
    ensures room { result.0.room ≡ passes.room }
{
    let Passes { mut one, two, room } = passes;
    let work = twin.enter_work(rt, &mut one);
    let ((two, found), ()) = join(
        rt,
        || -> (PairPass, Option<u64>)
            requires { IsIdle twin.now two }
            ensures { IsIdle twin.entry.now result.0 × (pass_number result.0 ≡ pass_number two) }
        {
            let mut two = two;
            let found = last(rt, twin, &mut two);
            (two, found)
        },
        || {},
    );
    twin.leave_work_as_found(&mut one, work);
    (Passes { one, two, room }, found)
}

#[test]
fn a_thread_has_the_list_while_another_pass_has_the_work(rt: HostRuntime) -> Result<(), Fail> {
    let (twin, mut passes) = share(rt.alloc())?;
    assert!(rt; bring(&rt, &twin, &mut passes.one, 7));
    let (passes, found) = look_beside(&rt, &twin, passes);
    assert!(rt; found == Some(7));
    let (tally, numbers) = close(twin, passes);
    assert!(rt; tally.total == 1 && numbers.entries.len() == 1);
    Ok(())
}
