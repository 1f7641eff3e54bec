//! Room for what comes back when logs are closed.
ghost use Rattle.std.specs.Prelude.{◌≡◌, ◌<◌, ◌≤◌, ◌+◌, [], IfOk, vec_capacity};

use crate::pass::MOST_LOGS;
use delta_base::OutOfMemory;
use disk_model::Disk;
use shared_log::LogPass;
use std::alloc::Global;
use std::marker::Model;

/// Lists with room for the passes of one log each.
#[derive(Drop)]
pub(crate) struct Lists<D: Disk> {
    lists: Vec<Vec<LogPass<D>>>,
    width: u32,
}

impl<D: Disk> Model for Lists<D> {
    ghost use Rattle.std.specs.Prelude.{◌≡◌, ◌≤◌, [], length, vec_capacity};
    ghost use Rattle.turn_cell.specs.Turns.{AllOf};
    ghost use Rattle.hall_logs.specs.Rooms.{ListRooms};

    ghost Value = { ListRooms };

    ghost view = { λ r. record { count = length r.lists.items; width = r.width } };

    ghost invariant = { λ r.
        AllOf (λ list. (list.items ≡ []) × (r.width ≤ vec_capacity list)) r.lists.items
        × (16 ≤ vec_capacity r.lists) };
}

/// Room for the passes of each log and for the disks of all. It stays with whoever closes the logs,
/// since a place for a pass can't be shared among threads.
#[derive(Drop)]
pub struct Rooms<D: Disk> {
    pub(crate) lists: Lists<D>,
    pub(crate) disks: Vec<D>,
}

impl<D: Disk> Model for Rooms<D> {
    ghost use Rattle.std.specs.Prelude.{◌≡◌, [], vec_capacity};
    ghost use Rattle.hall_logs.specs.Rooms.{Room};

    ghost Value = { Room };

    ghost view = { λ r. record { lists = r.lists; disks = vec_capacity r.disks } };

    ghost invariant = { λ r. r.disks.items ≡ [] };
}

impl<D: Disk> Lists<D> {
    // No list, with a place for that of each log.
    pub(crate) fn empty(alloc: Global, width: u32) -> Result<Lists<D>, OutOfMemory>
        ensures { IfOk result (λ lists. (lists.count ≡ 0) × (lists.width ≡ width)) }
    {
        Ok(Lists {
            lists: Vec::with_capacity(alloc, MOST_LOGS)?,
            width,
        })
    }

    pub(crate) fn put(&mut self, list: Vec<LogPass<D>>)
        requires few { self.old.count < 16 }
        requires room { (list.items ≡ []) × (self.old.width ≤ vec_capacity list) }
        ensures { (self.new.count ≡ self.old.count + 1) × (self.new.width ≡ self.old.width) }
    {
        self.lists.push_reserved(list);
    }

    pub(crate) fn take(&mut self) -> Vec<LogPass<D>>
        requires { 0 < self.old.count }
        ensures room { (result.items ≡ []) × (self.old.width ≤ vec_capacity result) }
        ensures left { (self.new.count + 1 ≡ self.old.count) × (self.new.width ≡ self.old.width) }
    {
        let Some(list) = self.lists.pop() else {
            unreachable!()
        };
        list
    }
}
