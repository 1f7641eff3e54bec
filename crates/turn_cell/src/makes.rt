//! A turn is made of a value, and gives it back at the end.
ghost use Rattle.std.specs.Prelude.{◌≡◌, ℕ, ◌+◌, ◌<◌, ◌≤◌, ◌++◌, ◌∷◌, [], Some, None};
ghost use Rattle.std.specs.Prelude.{IfOk, IfErr, slice_get, vec_len, vec_capacity};
ghost use Rattle.turn_cell.specs.declared.view.Role.TheVariants.{Pass as IsPass};
ghost use Rattle.turn_cell.specs.Turns.{AllOf, seat_of, first_seat};
ghost use Rattle.turn_cell.specs.Sights.{IsNew, AreOf, Gathers};

use crate::chained::Chained;
use crate::door::Door;
use crate::plays::{Deal, TakeIn};
use crate::rule::Making;
use crate::steps::{Cell, Place};
use crate::turn::{Pass, Turn};
use atomic_table::{Refused, Table};
use delta_base::Back;
use std::alloc::Global;
use std::snapshot::Snapshot;

// Makes the passes, the first of the seat that the making gave.
fn deal<V: Chained>(cell: &Cell<V>, first: Place<V>, passes: &mut Vec<Pass<V>>, seats: u32)
    requires cell { (first.table_id ≡ cell.now.table_id) × (cell.now.table_id.words ≡ 4)
        × (cell.now.key.seats ≡ seats) × (0 < seats) }
    requires first { (first.me.1 ≡ [])
        × ((opening : _) × (f : _) × (first.me.0 ≡ seat_of IsPass 1 2 opening (Some f))) }
    requires room { (passes.old.items ≡ []) × (seats ≤ vec_capacity passes.old) }
    ensures made { vec_len passes.new ≡ seats }
    ensures room { vec_capacity passes.new ≡ vec_capacity passes.old }
    ensures new { (k : ℕ) (p : _) → slice_get passes.new.items k ≡ Some p
        → (f : _) × (first.me.0.fixed ≡ Some f)
        × IsNew cell.now.table_id first.me.0.seen f (k + 1) p }
{
    let mut last = first;
    for number in 1..seats {
        let next = cell.split_seat::<Deal>(&mut last);
        passes.push_reserved(Pass {
            number,
            own_faults: 0,
            seat: last,
        });
        last = next;
    }
    passes.push_reserved(Pass {
        number: seats,
        own_faults: 0,
        seat: last,
    });
}

// Takes all passes in.
pub(crate) fn gather<V: Chained>(cell: &Cell<V>, mut passes: Vec<Pass<V>>) -> Place<V>
    requires cell { (cell.now.table_id.words ≡ 4) × AreOf cell.now.table_id passes.items }
    requires some { 0 < vec_len passes }
    ensures same { (result.table_id ≡ cell.now.table_id) × (result.me.1 ≡ []) }
    ensures role { result.me.0.role ≡ IsPass }
    ensures gathered { Gathers passes.items result.me.0 }
{
    let Some(last) = passes.pop() else {
        unreachable!()
    };
    let mut seat = last.into_seat();
    while let Some(other) = passes.pop() {
        cell.join_seat::<TakeIn>(&mut seat, other.into_seat());
    }
    passes.destroy_empty();
    seat
}

// The cell with its first seat, or the value back.
fn lay<V: Chained>(alloc: Global, value: V, seats: u32) -> Result<(Turn<V>, Place<V>), Back<V>>
    requires seats { (0 < seats) × (seats ≤ 16) }
    requires entries { AllOf (λ e. e.by ≡ 0) (V.entries value) }
    requires test { V.fits (V.fixed value) (V.entries value) }
    ensures cell { IfOk result (λ r. (r.0.origin ≡ value) × (r.0.seats ≡ seats)
        × (r.1.table_id ≡ r.0.cell)) }
    ensures seat { IfOk result (λ r.
        r.1.me ≡ (first_seat (V.entries value) (V.fixed value), [])) }
    ensures back { IfErr result (λ b. b.item ≡ value) }
{
    let Ok(mut slots) = Vec::with_capacity(alloc, 1) else {
        return Err(Back { item: value });
    };
    let count = value.count();
    let faults = value.faults();
    let making = Making {
        value: Snapshot::of(&value),
        seats,
    };
    slots.push_reserved(Some(value));
    match Table::new(alloc, &[0, 0, count, faults], slots, &making) {
        Ok((table, seat)) => {
            let door = Door::new();
            Ok((Turn { table, door }, seat))
        }
        Err(Refused { mut slots }) => {
            let Some(slot) = slots.pop() else {
                unreachable!()
            };
            slots.destroy_empty();
            let Some(item) = slot else { unreachable!() };
            Err(Back { item })
        }
    }
}

impl<V: Chained> Turn<V> {
    /// A turn of the value, and its passes, which have the numbers from 1 on.
    pub fn new(alloc: Global, value: V, seats: u32) -> Result<(Turn<V>, Vec<Pass<V>>), Back<V>>
        requires seats { (0 < seats) × (seats ≤ 16) }
        requires entries { AllOf (λ e. e.by ≡ 0) (V.entries value) }
        requires test { V.fits (V.fixed value) (V.entries value) }
        ensures turn { IfOk result (λ r. (r.0.origin ≡ value) × (r.0.seats ≡ seats)) }
        ensures passes { IfOk result (λ r.
            (vec_len r.1 ≡ seats) × (vec_capacity r.1 ≡ seats)) }
        ensures new { IfOk result (λ r. (k : ℕ) (p : _) → slice_get r.1.items k ≡ Some p
            → IsNew r.0.cell (V.entries value) (V.fixed value) (k + 1) p) }
        ensures back { IfErr result (λ b. b.item ≡ value) }
    {
        let Ok(mut passes) = Vec::with_capacity(alloc, seats as usize) else {
            return Err(Back { item: value });
        };
        match lay(alloc, value, seats) {
            Ok((turn, first)) => {
                deal(&turn.table.shared, first, &mut passes, seats);
                Ok((turn, passes))
            }
            Err(back) => {
                passes.destroy_empty();
                Err(back)
            }
        }
    }
}
