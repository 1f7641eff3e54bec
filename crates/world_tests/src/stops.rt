//! Stops at each call of a log's device.
ghost use Rattle.std.specs.Prelude.{◌<◌};

use crate::events::{Step, next, next_two, run};
use chain_core::Fate;
use log_base::Phase;
use std::alloc::Global;
use std::test::Fail;
use world_core::{LogPart, World};

// How many patches the log has, if it is up.
fn version_of(world: &World) -> Option<u32> {
    match &world.log {
        LogPart::Up(log) => Some(log.chain().version()),
        LogPart::Down(_) => None,
    }
}

// So many patches are accepted, then this happens, and the log is opened again: how many it
// has then.
fn found_behind(alloc: Global, accepted: u32, step: Step) -> Result<Option<u32>, Fail>
    requires { accepted < 10 }
{
    let mut steps = [Step::Open; 12];
    for number in 1..=accepted {
        steps[number as usize] = next(number, Fate::Done);
    }
    steps[accepted as usize + 1] = step;
    let world = run(alloc, &steps)?;
    let found = version_of(&world);
    drop(world);
    Ok(found)
}

// Where the log stops, how its gate stands then, and whether it has what was appended.
const STOPS: [(Phase, bool, bool); 5] = [
    (Phase::Body, false, false),
    (Phase::Body, true, false),
    (Phase::Gate, false, false),
    (Phase::Gate, true, true),
    (Phase::Settling, true, true),
];

// Whether each stop behind so many accepted patches leaves them, and of a run behind them all or
// nothing.
fn are_left(alloc: Global, accepted: u32) -> Result<bool, Fail>
    requires { accepted < 10 }
{
    for (phase, opened, has) in STOPS {
        let fate = Fate::Stops { phase, opened };
        let one = found_behind(alloc, accepted, next(accepted + 1, fate))?;
        let two = found_behind(alloc, accepted, next_two(accepted + 1, fate))?;
        let found = if has {
            (accepted + 1, accepted + 2)
        } else {
            (accepted, accepted)
        };
        if one != Some(found.0) || two != Some(found.1) {
            return Ok(false);
        }
    }
    Ok(true)
}

#[test]
fn each_stop_leaves_what_was_acknowledged(rt: HostRuntime) -> Result<(), Fail> {
    for accepted in 0..10u32 {
        assert!(rt; are_left(rt.alloc(), accepted)?, "behind {accepted}");
    }
    Ok(())
}
