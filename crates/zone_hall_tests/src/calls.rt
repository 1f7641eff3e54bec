//! Calls of one pass of a zone.
ghost use Rattle.std.specs.Prelude.{◌≡◌};
ghost use Rattle.turn_cell.specs.Knowing.{pass_number};
ghost use Rattle.turn_cell.specs.Sharing.{IsPassOf};
ghost use Rattle.zone_hall_tests.specs.Halls.{zone_in_memory};

use crate::peers::{Reply, dial_of, host, short};
use dataset_tx::{GraphPart, Pattern};
use delta_base::Text;
use delta_client::Dial;
use disk_model::MemDisk;
use line_log::MadeLines;
use patch_meaning::check_patch;
use shared_zone::{Shown, Stayed, ZoneHall, ZonePass};
use std::alloc::Global;
use std::sync::Wait;
use std::test::Fail;
use zone_follower::follow;

/// What a stay with the patch of a text comes to, fetched as that of a version.
pub(crate) fn taken<R: Wait>(
    rt: &R,
    alloc: Global,
    hall: &ZoneHall<MemDisk>,
    pass: &mut ZonePass<MemDisk>,
    fetched: (&[u8], u32),
) -> Result<Stayed, Fail>
    requires { IsPassOf zone_in_memory hall.now pass.old }
    ensures of { IsPassOf zone_in_memory hall.now pass.new }
    ensures number { pass_number pass.new ≡ pass_number pass.old }
{
    let (text, version) = fetched;
    let patch = check_patch(alloc, text)?;
    let stayed = hall.take(rt, pass, &patch, version);
    drop(patch);
    Ok(stayed)
}

/// How the zone ends catching up with the log ABC over a dial.
pub(crate) fn followed<R: Wait, N: Dial>(
    rt: &R,
    alloc: Global,
    hall: &ZoneHall<MemDisk>,
    pass: &mut ZonePass<MemDisk>,
    net: &mut N,
) -> Result<(&'static str, u32), Fail>
    requires { IsPassOf zone_in_memory hall.now pass.old }
    ensures of { IsPassOf zone_in_memory hall.now pass.new }
    ensures number { pass_number pass.new ≡ pass_number pass.old }
{
    let host = host(alloc)?;
    let name = Text::from_str(alloc, "ABC")?;
    let end = follow(rt, alloc, hall, pass, net, &host, &name);
    let told = short(&end);
    drop(end);
    Ok(told)
}

/// The same over a connection that gives these replies, and whose calls of these numbers fail.
pub(crate) fn followed_over<R: Wait>(
    rt: &R,
    alloc: Global,
    hall: &ZoneHall<MemDisk>,
    pass: &mut ZonePass<MemDisk>,
    link: (&[Reply], &[u64]),
) -> Result<(&'static str, u32), Fail>
    requires { IsPassOf zone_in_memory hall.now pass.old }
    ensures of { IsPassOf zone_in_memory hall.now pass.new }
    ensures number { pass_number pass.new ≡ pass_number pass.old }
{
    let (replies, failing) = link;
    let mut net = dial_of(alloc, &[replies], failing)?;
    let told = followed(rt, alloc, hall, pass, &mut net);
    drop(net);
    told
}

// Whether lines that were made are these.
fn are(found: &MadeLines, lines: &[&str]) -> bool {
    let mut same = found.len() == lines.len();
    for at in 0..found.len() {
        same = same
            && lines
                .get(at)
                .is_some_and(|line| found.line(at) == line.as_bytes());
    }
    same
}

/// Whether the zone has this version and these lines.
pub(crate) fn reads<R: Wait>(
    rt: &R,
    hall: &ZoneHall<MemDisk>,
    pass: &mut ZonePass<MemDisk>,
    wanted: (u32, &[&str]),
) -> Result<bool, Fail>
    requires { IsPassOf zone_in_memory hall.now pass.old }
    ensures of { IsPassOf zone_in_memory hall.now pass.new }
    ensures number { pass_number pass.new ≡ pass_number pass.old }
{
    let all = Pattern {
        graph: GraphPart::Any,
        subject: None,
        predicate: None,
        object: None,
    };
    let shown = hall.read(rt, pass, &all);
    drop(all);
    let Shown {
        version: found,
        lines: made,
    } = shown?;
    let (version, lines) = wanted;
    let same = found == version && are(&made, lines);
    drop(made);
    Ok(same)
}
