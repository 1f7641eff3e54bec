//! The ends of a stay.
ghost use Rattle.std.specs.Prelude.{◌≡◌, ℕ, ◌≤◌, ◌⊎◌, ◌∷◌, [], Some};
ghost use Rattle.atomic_table.specs.Table.{rest, turned};
ghost use Rattle.turn_cell.specs.declared.view.Role.TheVariants.{Pass};
ghost use Rattle.turn_cell.specs.declared.view.Stage.TheVariants.{Inside, Outside};
ghost use Rattle.turn_cell.specs.Turns.{Adds, own_count, places_by};
ghost use Rattle.turn_cell.specs.Steps.{at_stage, StaysAt};
ghost use Rattle.turn_cell.specs.Sights.{IsGrownBy};
ghost use Rattle.twin_cell.specs.declared.parts.Kept.TheVariants.{Nothing as IsNothing};
ghost use Rattle.twin_cell.specs.declared.parts.Kept.TheVariants.{Work as IsWork};
ghost use Rattle.twin_cell.specs.Twins.{IsWorkOf, IsBacked};
ghost use Rattle.twin_cell.specs.Steps.{IsTwinSeat};

use crate::parts::{Backed, Kept, Listed};
use crate::steps::{Cell, Place, hand_on, hand_on_list, publish, report};
use turn_cell::Door;

// Puts the list into its slot and hands its turn on.
pub(crate) fn give_list<W: Backed<R>, R: Listed>(
    cell: &Cell<W, R>,
    door: &Door,
    seat: &mut Place<W, R>,
    list: R,
)
    requires cell { IsTwinSeat cell.now seat.old }
    requires turn { (u : ℕ) × (o : _) × (seat.old.me.0.list ≡ Inside u o)
        × (seat.old.me.1 ≡ (1, IsNothing) ∷ rest seat.old.me.1) × (seat.old.me.0.role ≡ Pass)
        × (R.entries list ≡ o.entries)
        × ((o.spare ≤ R.spare list) ⊎ ((t : ℕ) × (y : _) × (seat.old.me.0.stage ≡ Inside t y))) }
    ensures same { StaysAt seat.old seat.new }
    ensures outside { seat.new.me
        ≡ (record seat.old.me.0 { list = Outside; spare = R.spare list }, rest seat.old.me.1) }
{
    cell.exchange(seat, 1, Kept::Items(list)).into_nothing();
    hand_on_list(cell, door, seat);
}

// Puts the list into its slot, publishes it and hands its turn on. The pass has the work too, which
// stands for it.
pub(crate) fn tell<W: Backed<R>, R: Listed>(
    cell: &Cell<W, R>,
    door: &Door,
    seat: &mut Place<W, R>,
    list: R,
)
    requires cell { IsTwinSeat cell.now seat.old }
    requires turn { (t : ℕ) × (u : ℕ) × (y : _) × (o : _) × (seat.old.me.0.stage ≡ Inside t y)
        × (seat.old.me.0.list ≡ Inside u o)
        × (seat.old.me.1 ≡ (1, IsNothing) ∷ rest seat.old.me.1) × (seat.old.me.0.role ≡ Pass)
        × IsGrownBy seat.old.me.0.number y.entries (R.entries list) × R.fits (R.entries list)
        × IsBacked W.stands W.fixed seat.old.me.0.fixed (R.entries list) }
    ensures same { StaysAt seat.old seat.new }
    ensures told { (t : ℕ) (y : _) → seat.old.me.0.stage ≡ Inside t y
        → seat.new.me ≡ (
          record seat.old.me.0 {
            seen = R.entries list;
            mine = places_by seat.old.me.0.number (R.entries list);
            stage = Inside t (record y { entries = R.entries list });
            list = Outside;
            spare = R.spare list;
          },
          rest seat.old.me.1,
        ) }
{
    let count = list.count();
    cell.exchange(seat, 1, Kept::Items(list)).into_nothing();
    publish(cell, seat, count);
    hand_on_list(cell, door, seat);
}

// Puts the work into its slot, publishes its faults and hands its turn on. Takes the pass's own
// faults and returns them as they are then.
pub(crate) fn give_work<W: Backed<R>, R: Listed>(
    cell: &Cell<W, R>,
    door: &Door,
    seat: &mut Place<W, R>,
    work: W,
    own: u64,
) -> u64
    requires cell { IsTwinSeat cell.now seat.old }
    requires own { own ≡ seat.old.me.0.own_faults }
    requires turn { (t : ℕ) × (y : _) × (seat.old.me.0.stage ≡ Inside t y)
        × (turned seat.old.me.1 ≡ (0, IsNothing) ∷ rest (turned seat.old.me.1))
        × (seat.old.me.0.role ≡ Pass) × (seat.old.me.0.fixed ≡ Some (W.fixed work))
        × W.stands work y.entries × (y.faults ≤ W.fault_count work) }
    ensures same { StaysAt seat.old seat.new }
    ensures own { result ≡ seat.new.me.0.own_faults }
    ensures left { (t : ℕ) (y : _) → seat.old.me.0.stage ≡ Inside t y
        → (failed : _) × Adds y.doubt (W.doubt work) seat.old.me.0.failed failed
        × (seat.new.me ≡ (
          record seat.old.me.0 {
            own_faults = own_count seat.old.me.0.own_faults y.faults (W.fault_count work);
            failed = failed;
            stage = Outside;
          },
          rest (turned seat.old.me.1),
        )) }
{
    let faults = work.faults();
    seat.turn();
    cell.exchange(seat, 0, Kept::Work(work)).into_nothing();
    let was = report(cell, seat, faults);
    hand_on(cell, door, seat);
    if faults == u64::MAX {
        faults
    } else {
        own + (faults - was)
    }
}

// Puts a work that stands for what is published into its slot, and hands its turn on.
pub(crate) fn put_work<W: Backed<R>, R: Listed>(
    cell: &Cell<W, R>,
    door: &Door,
    seat: &mut Place<W, R>,
    work: W,
)
    requires cell { IsTwinSeat cell.now seat.old }
    requires turn { (t : ℕ) × (y : _) × (f : _) × (seat.old.me.0.stage ≡ Inside t y)
        × (turned seat.old.me.1 ≡ (0, IsNothing) ∷ rest (turned seat.old.me.1))
        × (seat.old.me.0.role ≡ Pass) × (seat.old.me.0.fixed ≡ Some f)
        × IsWorkOf {R = R} W.stands W.fault_count W.doubt W.fixed f y (IsWork work) }
    ensures same { StaysAt seat.old seat.new }
    ensures outside { seat.new.me
        ≡ (at_stage seat.old.me.0 Outside, rest (turned seat.old.me.1)) }
{
    seat.turn();
    cell.exchange(seat, 0, Kept::Work(work)).into_nothing();
    hand_on(cell, door, seat);
}
