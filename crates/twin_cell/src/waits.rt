//! Waiting for a turn.
ghost use Rattle.std.specs.Prelude.{◌≡◌, ℕ, ◌%◌, ◌^◌, ◌≤◌, ◌∷◌, [], Some};
ghost use Rattle.turn_cell.specs.declared.view.Role.TheVariants.{Pass};
ghost use Rattle.turn_cell.specs.declared.view.Stage.TheVariants.{Waiting, Inside};
ghost use Rattle.turn_cell.specs.Steps.{StaysAt};
ghost use Rattle.twin_cell.specs.declared.parts.Kept.TheVariants.{Work as IsWork};
ghost use Rattle.twin_cell.specs.declared.parts.Kept.TheVariants.{Items as IsItems};
ghost use Rattle.twin_cell.specs.declared.parts.Kept.TheVariants.{Nothing as IsNothing};
ghost use Rattle.twin_cell.specs.Twins.{IsWorkOf, IsListOf, IsBacked};
ghost use Rattle.twin_cell.specs.Steps.{IsTwinSeat, Agrees, at_list, in_work};

use crate::parts::{Backed, Kept, Listed};
use crate::steps::{Cell, Place, look, look_list};
use std::hint::spin_loop;
use std::sync::Wait;

// Waits until the ticket of the work is served, and takes the work out of its slot.
pub(crate) fn wait_work<T: Wait, W: Backed<R>, R: Listed>(
    rt: &T,
    cell: &Cell<W, R>,
    seat: &mut Place<W, R>,
    ticket: u64,
) -> W
    requires cell { IsTwinSeat cell.now seat.old }
    requires waits { (seat.old.me.0.role ≡ Pass)
        × ((t : ℕ) × (seat.old.me.0.stage ≡ Waiting t) × (t % 2 ^ 64 ≡ ticket)) }
    ensures same { StaysAt seat.old seat.new }
    ensures taken { (t : ℕ) × (y : _) × (f : _) × (seat.old.me.0.fixed ≡ Some f)
        × IsWorkOf {R = R} W.stands W.fault_count W.doubt W.fixed f y (IsWork result)
        × (seat.new.me ≡ (in_work seat.old.me.0 t y, (0, IsNothing) ∷ seat.old.me.1)) }
{
    for _ in rt.forever() {
        let found = look(cell, seat);
        if found == ticket {
            return cell.exchange(seat, 0, Kept::Nothing).into_work();
        }
        spin_loop();
    }
    unreachable!()
}

// Waits until the ticket of the list is served, and takes the list out of its slot.
pub(crate) fn wait_list<T: Wait, W: Backed<R>, R: Listed>(
    rt: &T,
    cell: &Cell<W, R>,
    seat: &mut Place<W, R>,
    ticket: u64,
) -> R
    requires cell { IsTwinSeat cell.now seat.old }
    requires waits { (seat.old.me.0.role ≡ Pass)
        × ((t : ℕ) × (seat.old.me.0.list ≡ Waiting t) × (t % 2 ^ 64 ≡ ticket)) }
    ensures same { StaysAt seat.old seat.new }
    ensures taken { (t : ℕ) × (o : _) × IsListOf {W = W} R.entries R.spare o (IsItems result)
        × Agrees seat.old.me.0.stage seat.old.me.0.spare o
        × (seat.new.me
        ≡ (at_list seat.old.me.0 (Inside t o), (1, IsNothing) ∷ seat.old.me.1))
        × IsBacked W.stands W.fixed seat.old.me.0.fixed o.entries }
{
    for _ in rt.forever() {
        let found = look_list(cell, seat);
        if found == ticket {
            return cell.exchange(seat, 1, Kept::Nothing).into_list();
        }
        spin_loop();
    }
    unreachable!()
}
