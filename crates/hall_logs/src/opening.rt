//! The logs of files.
ghost use Rattle.std.specs.Prelude.{
  ◌≡◌,
  ◌≢◌,
  ◌<◌,
  ◌≤◌,
  ◌+◌,
  ◌++◌,
  [],
  length,
  map,
  reverse,
  IfOk,
  IfErr,
  OnOk,
  OnErr,
  vec_len,
  vec_capacity,
};
ghost use Rattle.turn_cell.specs.Turns.{AllOf};
ghost use Rattle.hall_logs.specs.Files.{AreOpened, AreRefusedAt, AreSameDisks};
ghost use Rattle.hall_logs.specs.Rooms.{HasRoom};
ghost use Rattle.hall_logs.specs.Slots.{AreAllHallPasses, AreNew, EachHasItsSeats};

use crate::logs::HallLogs;
use crate::pass::{LogsPass, MOST_LOGS};
use crate::refusal::LogsRefusal;
use crate::rooms::{Lists, Rooms};
use delta_base::OutOfMemory;
use disk_model::Disk;
use log_base::LogLimits;
use patch_log::{LogFault, LogRefusal, LogState};
use shared_log::SharedLog;
use std::alloc::Global;

/// The first file that couldn't be opened, and why.
#[derive(Clone, Copy, Debug)]
struct Stop {
    file: u32,
    fault: LogFault,
}

// Closes the logs and puts their disks back in front of the others, which stand in reverse.
fn put_back<D: Disk>(opened: &mut Vec<LogState<D>>, disks: &mut Vec<D>)
    requires { vec_len opened.old + vec_len disks.old ≤ vec_capacity disks.old }
    ensures disks { disks.new.items
        ≡ map (λ log. log.disk) opened.old.items ++ reverse disks.old.items }
    ensures none { opened.new.items ≡ [] }
    ensures room { vec_capacity disks.new ≡ vec_capacity disks.old }
{
    while let Some(log) = opened.pop() {
        disks.push_reserved(log.close());
    }
    disks.reverse();
}

// Opens the files in their order, whose numbers go up from 1.
fn open_files<D: Disk>(
    alloc: Global,
    disks: &mut Vec<D>,
    limits: LogLimits,
    opened: &mut Vec<LogState<D>>,
) -> Result<(), Stop>
    requires room { (opened.old.items ≡ []) × (vec_len disks.old ≤ vec_capacity opened.old) }
    requires few { vec_len disks.old ≤ 16 }
    ensures ok { OnOk result (AreOpened D.Disk limits 1 disks.old.items opened.new.items
        × (disks.new.items ≡ [])) }
    ensures refused { IfErr result (λ stop. AreRefusedAt D.Disk limits 1
        disks.old.items stop.file stop.fault disks.new.items) }
    ensures none { OnErr result (opened.new.items ≡ []) }
    ensures room { vec_capacity disks.new ≡ vec_capacity disks.old }
{
    disks.reverse();
    let mut file = 0;
    while let Some(disk) = disks.pop() {
        file += 1;
        match LogState::open_on(alloc, disk, file, limits) {
            Ok(log) => {
                let _chain = log.chain();
                opened.push_reserved(log);
            }
            Err(LogRefusal { disk, fault }) => {
                disks.push_reserved(disk);
                put_back(opened, disks);
                return Err(Stop { file, fault });
            }
        }
    }
    Ok(())
}

// So many passes without a part.
fn empty_passes<D: Disk>(alloc: Global, seats: u32) -> Result<Vec<LogsPass<D>>, OutOfMemory>
    ensures { IfOk result (λ passes. (vec_len passes ≡ seats)
        × AllOf (λ parts. parts ≡ []) passes.items) }
{
    let mut passes = Vec::with_capacity(alloc, seats as usize)?;
    for _ in 0..seats {
        passes.push_reserved(LogsPass::empty(alloc)?);
    }
    Ok(passes)
}

/// Memory for logs and passes.
struct Memory<D: Disk> {
    passes: Vec<LogsPass<D>>,
    lists: Lists<D>,
    logs: Vec<SharedLog<D>>,
    opened: Vec<LogState<D>>,
}

fn make_room<D: Disk>(alloc: Global, files: usize, seats: u32) -> Result<Memory<D>, OutOfMemory>
    ensures passes { IfOk result (λ room. (vec_len room.passes ≡ seats)
        × AllOf (λ parts. parts ≡ []) room.passes.items) }
    ensures lists { IfOk result (λ room.
        (room.lists.count ≡ 0) × (room.lists.width ≡ seats)) }
    ensures logs { IfOk result (λ room. (room.logs.items ≡ []) × (16 ≤ vec_capacity room.logs)) }
    ensures opened { IfOk result (λ room.
        (room.opened.items ≡ []) × (files ≤ vec_capacity room.opened)) }
{
    let passes = empty_passes(alloc, seats)?;
    let lists = Lists::empty(alloc, seats)?;
    let logs = Vec::with_capacity(alloc, MOST_LOGS)?;
    match Vec::with_capacity(alloc, files) {
        Ok(opened) => Ok(Memory {
            passes,
            lists,
            logs,
            opened,
        }),
        Err(_) => {
            logs.destroy_empty();
            Err(OutOfMemory)
        }
    }
}

impl<D: Disk> HallLogs<D> {
    /// Opens the logs of files, whose numbers go up from 1, and shares them among passes, whose
    /// numbers go up from 1. A refusal hands all disks back.
    pub fn open_on(
        alloc: Global,
        disks: Vec<D>,
        limits: LogLimits,
        seats: u32,
    ) -> Result<(HallLogs<D>, Vec<LogsPass<D>>, Rooms<D>), LogsRefusal<D>>
        requires files { (0 < vec_len disks) × (vec_len disks ≤ 16) }
        requires seats { (0 < seats) × (seats ≤ 16) }
        ensures logs { IfOk result (λ r. AreOpened D.Disk limits 1 disks.items
            (map (λ log. log.origin) r.0.logs)) }
        ensures seats { IfOk result (λ r. r.0.seats ≡ seats) }
        ensures each { IfOk result (λ r. EachHasItsSeats r.0) }
        ensures passes { IfOk result (λ r. AreAllHallPasses D.Disk r.0.logs seats r.1.items) }
        ensures new { IfOk result (λ r. AreNew D.Disk r.0.logs 1 r.1.items) }
        ensures rooms { IfOk result (λ r. HasRoom r.0 r.2 × (r.2.disks ≡ vec_capacity disks)) }

        // The disks come back in their order, in the same list.
        ensures refused { IfErr result (λ refusal. refusal.fault ≢ LogFault.OutOfMemory
            → AreRefusedAt D.Disk limits 1 disks.items
            refusal.file refusal.fault refusal.disks.items) }
        ensures want { IfErr result (λ refusal. refusal.fault ≡ LogFault.OutOfMemory
            → AreSameDisks D.Disk disks.items refusal.disks.items) }
        ensures room { IfErr result (λ refusal.
            vec_capacity refusal.disks ≡ vec_capacity disks) }
    {
        let mut disks = disks;
        let Ok(
            Memory {
                passes,
                lists,
                logs,
                mut opened,
            },
        ) = make_room(alloc, disks.len(), seats)
        else {
            return Err(LogsRefusal {
                disks,
                file: 1,
                fault: LogFault::OutOfMemory,
            });
        };
        match open_files(alloc, &mut disks, limits, &mut opened) {
            Ok(()) => {
                opened.reverse();
                let rooms = Rooms { lists, disks };
                HallLogs { logs, seats }.share(alloc, opened, passes, rooms)
            }
            Err(Stop { file, fault }) => {
                logs.destroy_empty();
                opened.destroy_empty();
                Err(LogsRefusal { disks, file, fault })
            }
        }
    }
}
