//! Waiting for the turn.
ghost use Rattle.std.specs.Prelude.{◌≡◌, ℕ, ◌%◌, ◌^◌, ◌≤◌, ◌∷◌, [], Some, None};
ghost use Rattle.turn_cell.specs.declared.view.Role.TheVariants.{Pass};
ghost use Rattle.turn_cell.specs.declared.view.Stage.TheVariants.{Waiting, Inside};
ghost use Rattle.turn_cell.specs.Turns.{StandsForPublished};
ghost use Rattle.turn_cell.specs.Steps.{at_stage, IsSeatOf, StaysAt};

use crate::chained::Chained;
use crate::steps::{Cell, Place, look};
use std::hint::spin_loop;
use std::sync::Wait;

// Waits until the ticket is served, and takes the value out of the slot. Behind the door that is so
// at the first look.
pub(crate) fn wait<V: Chained, R: Wait>(
    rt: &R,
    cell: &Cell<V>,
    seat: &mut Place<V>,
    ticket: u64,
) -> V
    requires cell { IsSeatOf cell.now seat.old }
    requires waits { (seat.old.me.0.role ≡ Pass) × (seat.old.me.1 ≡ [])
        × ((t : ℕ) × (seat.old.me.0.stage ≡ Waiting t) × (t % 2 ^ 64 ≡ ticket)) }
    ensures same { StaysAt seat.old seat.new }
    ensures taken { (t : ℕ) × (y : _) × (f : _) × (seat.old.me.0.fixed ≡ Some f)
        × StandsForPublished V.entries V.fault_count V.doubt V.fixed f y (Some result)
        × (seat.new.me ≡ (at_stage seat.old.me.0 (Inside t y), (0, None) ∷ [])) }
{
    for _ in rt.forever() {
        let found = look(cell, seat);
        if found == ticket {
            let Some(value) = cell.exchange(seat, 0, None) else {
                unreachable!()
            };
            return value;
        }
        spin_loop();
    }
    unreachable!()
}
