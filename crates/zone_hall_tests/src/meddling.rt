//! A zone that another pass has take patches while this one catches up.
ghost use Rattle.std.specs.Prelude.{◌≡◌};

use crate::calls::followed;
use crate::halls::{Passes, new_zone, share};
use crate::peers::{Reply, dial_of};
use delta_base::{MemLink, Text};
use delta_client::{Dial, DialFault, MemDial};
use disk_model::MemDisk;
use log_base::LOG_PATCHES;
use paired_zone::PairedZone;
use patch_meaning::{Checked, check_patch};
use shared_zone::{ZoneHall, ZonePass};
use std::alloc::Global;
use std::marker::Model;
use std::process::Abort;
use std::sync::Wait;
use std::test::Fail;
use worked_rows::{FIRST, SECOND};

/// A dial that has another pass take two patches before it makes its second connection.
#[derive(Drop)]
struct MeddlingDial<'a, R: Wait> {
    rt: &'a R,
    net: MemDial<MemLink>,
    hall: &'a ZoneHall<MemDisk>,
    pass: ZonePass<MemDisk>,
    first: Checked,
    second: Checked,
}

impl<'a, R: Wait> Model for MeddlingDial<'a, R> {
    ghost use Rattle.delta_base.specs.declared.link.MemLink.{MemLink};
    ghost use Rattle.delta_client.specs.Memory.{DialState};
    ghost use Rattle.turn_cell.specs.Sharing.{IsPassOf};
    ghost use Rattle.zone_hall_tests.specs.Halls.{zone_in_memory};

    ghost Value = { DialState MemLink };

    ghost view = { λ d. d.net };

    ghost invariant = { λ d. IsPassOf zone_in_memory d.hall.now d.pass };
}

impl<'a, R: Wait> Dial for MeddlingDial<'a, R> {
    ghost use Rattle.std.specs.Prelude.{◌-◌, length};

    type L = MemLink;

    ghost tells = { Unit {0} };

    ghost to_come = { λ d. d.to_come };

    ghost addresses = { λ d. d.addresses };

    ghost back = { λ d. d.back };

    ghost held = { λ d. d.room - length d.to_come };

    ghost tries = { λ d. d.calls };

    ghost faults = { λ d. d.faults };

    fn faults(&self) -> u64 {
        self.net.faults()
    }

    fn connect(&mut self, address: &Text) -> Result<MemLink, DialFault> {
        if self.net.tries() == 1 {
            self.hall.take(self.rt, &mut self.pass, &self.first, 1);
            self.hall.take(self.rt, &mut self.pass, &self.second, 2);
        }
        self.net.connect(address)
    }

    fn hang_up(&mut self, link: MemLink) {
        self.net.hang_up(link)
    }
}

/// What is answered on two connections, how pass 2 ends, and what it asked on the second one.
struct Row {
    shows: &'static str,
    links: &'static [&'static [Reply]],
    end: (&'static str, u32),
    asked: &'static [u8],
}

const FETCH1: &[u8] = b"GET /ABC/1 HTTP/1.1\r\nHost: e:80\r\n\r\n";

const FETCH13: &[u8] =
    b"GET /ABC/1 HTTP/1.1\r\nHost: e:80\r\n\r\nGET /ABC/3 HTTP/1.1\r\nHost: e:80\r\n\r\n";

static ROWS: [Row; 2] = [
    Row {
        shows: "the zone has all when the first patch was fetched",
        links: &[&[Reply::LastLog(2)], &[Reply::Patch(1)]],
        end: ("CaughtUp", 2),
        asked: FETCH1,
    },
    Row {
        shows: "the next fetch is behind the version that was found",
        links: &[&[Reply::LastLog(3)], &[Reply::Patch(1), Reply::Patch(3)]],
        end: ("CaughtUp", 3),
        asked: FETCH13,
    },
];

/// Two patches and the dial over which the zone catches up.
#[derive(Drop)]
struct Script {
    net: MemDial<MemLink>,
    first: Checked,
    second: Checked,
}

fn script_of(alloc: Global, row: &Row) -> Result<Script, Fail> {
    let first = check_patch(alloc, FIRST)?;
    let second = check_patch(alloc, SECOND)?;
    let net = dial_of(alloc, row.links, &[])?;
    Ok(Script { net, first, second })
}

// What was sent on the second connection.
fn is_asked(net: &MemDial<MemLink>, asked: &[u8]) -> bool {
    net.back().get(1).is_some_and(|link| link.sent() == asked)
}

// How pass 2 ends, its version then, and whether it asked for these patches.
fn ends_behind<R: Wait>(
    rt: &R,
    alloc: Global,
    zone: PairedZone<MemDisk>,
    script: Script,
    row: &Row,
) -> Result<((&'static str, u32), u32, bool), Fail> {
    let Script { net, first, second } = script;
    let (hall, passes) = share(alloc, zone)?;
    let Passes {
        one: pass,
        mut two,
        room,
    } = passes;
    let mut dial = MeddlingDial {
        rt,
        net,
        hall: &hall,
        pass,
        first,
        second,
    };
    let told = followed(rt, alloc, &hall, &mut two, &mut dial);
    let asked = is_asked(&dial.net, row.asked);
    drop(dial);
    let version = hall.version(&mut two);
    drop(room);
    drop(two);
    drop(hall);
    Ok((told?, version, asked))
}

#[test]
fn a_version_that_was_taken_meanwhile_is_left(rt: HostRuntime) -> Result<(), Fail> {
    let alloc = rt.alloc();
    for row in &ROWS {
        let script = script_of(alloc, row)?;
        let Some(zone) = new_zone(alloc, &[], LOG_PATCHES)? else {
            return Err(Fail::from("not opened"));
        };
        let (end, version, asked) = ends_behind(&rt, alloc, zone, script, row)?;
        assert!(rt; end == row.end, "{}: {}", row.shows, end.0);
        assert!(rt; version == end.1 && asked, "{}", row.shows);
    }
    Ok(())
}
