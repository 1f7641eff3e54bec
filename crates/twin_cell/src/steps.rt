//! The atomic steps of a twin, each in a function of its own.
ghost use Rattle.std.specs.Prelude.{◌≡◌, ℕ, ◌+◌, ◌≤◌, ◌<◌, ◌∷◌, [], ◌⊎◌};
ghost use Rattle.std.specs.Prelude.{Some, length};
ghost use mathlib.Core.Option.{none};
ghost use Rattle.atomic_table.specs.Table.{step, rest};
ghost use Rattle.turn_cell.specs.declared.view.Role.TheVariants.{Pass};
ghost use Rattle.turn_cell.specs.declared.view.Stage.TheVariants.{Outside, Waiting, Inside};
ghost use Rattle.turn_cell.specs.Steps.{at_stage, StaysAt};
ghost use Rattle.turn_cell.specs.Sights.{IsGrownBy};
ghost use Rattle.twin_cell.specs.declared.parts.Kept.TheVariants.{Work as IsWork};
ghost use Rattle.twin_cell.specs.declared.parts.Kept.TheVariants.{Items as IsItems};
ghost use Rattle.twin_cell.specs.Twins.{IsWorkOf, IsBacked};
ghost use Rattle.twin_cell.specs.Steps.{IsTwinSeat, DrawsWork, DrawsList, LooksWork, LooksList};
ghost use Rattle.twin_cell.specs.Steps.{CountsList, PublishesList, ReportsWork};
ghost use Rattle.twin_cell.specs.Steps.{HandsOnWork, HandsOnList};

use crate::parts::{Backed, Kept, Listed};
use crate::plays::{Count, Draw, DrawList, HandOn, HandOnList, Look, LookList, Publish, Report};
use crate::rule::{Making, TwinRule};
use atomic_table::{Seat, Shared};
use turn_cell::{Door, View};

pub(crate) type TwinView<W, R> = View<
    <R as Listed>::Content,
    <W as Backed<R>>::Doubt,
    <W as Backed<R>>::Fixed,
>;

pub(crate) type Cell<W, R> = Shared<
    Kept<W, R>,
    View<<R as Listed>::Content, <W as Backed<R>>::Doubt, <W as Backed<R>>::Fixed>,
    Making<W, R>,
    TwinRule<W, R>,
>;

pub(crate) type Place<W, R> = Seat<
    Kept<W, R>,
    View<<R as Listed>::Content, <W as Backed<R>>::Doubt, <W as Backed<R>>::Fixed>,
>;

pub(crate) const TICKET: usize = 0;

pub(crate) const SERVING: usize = 1;

pub(crate) const LIST_TICKET: usize = 2;

pub(crate) const LIST_SERVING: usize = 3;

pub(crate) const COUNT: usize = 4;

pub(crate) const FAULTS: usize = 5;

// Draws the next ticket of the work.
pub(crate) fn draw<W: Backed<R>, R: Listed>(cell: &Cell<W, R>, seat: &mut Place<W, R>) -> u64
    requires cell { IsTwinSeat cell.now seat.old }
    requires outside { (seat.old.me.0.role ≡ Pass) × (seat.old.me.0.stage ≡ Outside) }
    ensures same { StaysAt seat.old seat.new }
    ensures drawn { DrawsWork (step cell.now.table_id.slots 0 1 0 none)
        seat.old.me result seat.new.me }
{
    cell.fetch_add::<Draw>(seat, TICKET, 1)
}

// Draws the next ticket of the list.
pub(crate) fn draw_list<W: Backed<R>, R: Listed>(cell: &Cell<W, R>, seat: &mut Place<W, R>) -> u64
    requires cell { IsTwinSeat cell.now seat.old }
    requires outside { (seat.old.me.0.role ≡ Pass) × (seat.old.me.0.list ≡ Outside) }
    ensures same { StaysAt seat.old seat.new }
    ensures drawn { DrawsList (step cell.now.table_id.slots 2 1 0 none)
        seat.old.me result seat.new.me }
{
    cell.fetch_add::<DrawList>(seat, LIST_TICKET, 1)
}

// Looks whether the ticket of the work is served.
pub(crate) fn look<W: Backed<R>, R: Listed>(cell: &Cell<W, R>, seat: &mut Place<W, R>) -> u64
    requires cell { IsTwinSeat cell.now seat.old }
    requires waits { (seat.old.me.0.role ≡ Pass) × ((t : ℕ) × (seat.old.me.0.stage ≡ Waiting t)) }
    ensures same { StaysAt seat.old seat.new }
    ensures looked { LooksWork W.stands W.fault_count W.doubt W.fixed
        (step cell.now.table_id.slots 1 0 0 none) seat.old.me result seat.new.me }
{
    cell.load::<Look>(seat, SERVING)
}

// Looks whether the ticket of the list is served.
pub(crate) fn look_list<W: Backed<R>, R: Listed>(cell: &Cell<W, R>, seat: &mut Place<W, R>) -> u64
    requires cell { IsTwinSeat cell.now seat.old }
    requires waits { (seat.old.me.0.role ≡ Pass) × ((t : ℕ) × (seat.old.me.0.list ≡ Waiting t)) }
    ensures same { StaysAt seat.old seat.new }
    ensures looked { LooksList W.stands W.fixed R.entries R.spare
        (step cell.now.table_id.slots 3 0 0 none) seat.old.me result seat.new.me }
{
    cell.load::<LookList>(seat, LIST_SERVING)
}

// Sees the history.
pub(crate) fn see<W: Backed<R>, R: Listed>(cell: &Cell<W, R>, seat: &mut Place<W, R>) -> u64
    requires cell { IsTwinSeat cell.now seat.old }
    requires pass { seat.old.me.0.role ≡ Pass }
    ensures same { StaysAt seat.old seat.new }
    ensures seen { CountsList R.fits (step cell.now.table_id.slots 4 0 0 none)
        seat.old.me result seat.new.me }
{
    cell.load::<Count>(seat, COUNT)
}

// Publishes the entries of the list in its slot, for which a work stands. The seat has both turns.
pub(crate) fn publish<W: Backed<R>, R: Listed>(
    cell: &Cell<W, R>,
    seat: &mut Place<W, R>,
    count: u64,
)
    requires cell { IsTwinSeat cell.now seat.old }
    requires grown { (l : R) × (seat.old.me.1 ≡ (1, IsItems l) ∷ rest seat.old.me.1)
        × (seat.old.me.0.role ≡ Pass)
        × ((t : ℕ) × (u : ℕ) × (y : _) × (o : _) × (seat.old.me.0.stage ≡ Inside t y)
        × (seat.old.me.0.list ≡ Inside u o)
        × IsGrownBy seat.old.me.0.number y.entries (R.entries l) × R.fits (R.entries l))
        × (count ≡ length (R.entries l))
        × IsBacked W.stands W.fixed seat.old.me.0.fixed (R.entries l) }
    ensures same { StaysAt seat.old seat.new }
    ensures published { (found : ℕ) × PublishesList R.entries R.spare
        (step cell.now.table_id.slots 4 count 0 none) seat.old.me found seat.new.me }
{
    let _was = cell.swap::<Publish>(seat, COUNT, count);
}

// Publishes the faults and the doubt of the work in its slot, and returns the faults as they were.
pub(crate) fn report<W: Backed<R>, R: Listed>(
    cell: &Cell<W, R>,
    seat: &mut Place<W, R>,
    faults: u64,
) -> u64
    requires cell { IsTwinSeat cell.now seat.old }
    requires more { (w : W) × (seat.old.me.1 ≡ (0, IsWork w) ∷ rest seat.old.me.1)
        × (seat.old.me.0.role ≡ Pass)
        × ((t : ℕ) × (y : _) × (seat.old.me.0.stage ≡ Inside t y) × (y.faults ≤ W.fault_count w))
        × (faults ≡ W.fault_count w) }
    ensures same { StaysAt seat.old seat.new }
    ensures reported { ReportsWork W.stands W.fault_count W.doubt W.fixed
        (step cell.now.table_id.slots 5 faults 0 none) seat.old.me result seat.new.me }
{
    cell.swap::<Report>(seat, FAULTS, faults)
}

// Gives the slot of the work back, hands its turn on, and opens its door.
pub(crate) fn hand_on<W: Backed<R>, R: Listed>(
    cell: &Cell<W, R>,
    door: &Door,
    seat: &mut Place<W, R>,
)
    requires cell { IsTwinSeat cell.now seat.old }
    requires stands { (w : W) × (seat.old.me.1 ≡ (0, IsWork w) ∷ rest seat.old.me.1)
        × (seat.old.me.0.role ≡ Pass)
        × ((t : ℕ) × (y : _) × (f : _) × (seat.old.me.0.stage ≡ Inside t y)
        × (seat.old.me.0.fixed ≡ Some f)
        × IsWorkOf {R = R} W.stands W.fault_count W.doubt W.fixed f y (IsWork w)) }
    ensures same { StaysAt seat.old seat.new }
    ensures outside { seat.new.me ≡ (at_stage seat.old.me.0 Outside, rest seat.old.me.1) }
{
    let _served = cell.fetch_add::<HandOn>(seat, SERVING, 1);
    door.open();
}

// Gives the slot of the list back, hands its turn on, and opens its door.
pub(crate) fn hand_on_list<W: Backed<R>, R: Listed>(
    cell: &Cell<W, R>,
    door: &Door,
    seat: &mut Place<W, R>,
)
    requires cell { IsTwinSeat cell.now seat.old }
    requires stands { (l : R) × (seat.old.me.1 ≡ (1, IsItems l) ∷ rest seat.old.me.1)
        × (seat.old.me.0.role ≡ Pass)
        × ((u : ℕ) × (o : _) × (seat.old.me.0.list ≡ Inside u o) × (R.entries l ≡ o.entries)
        × ((o.spare ≤ R.spare l)
        ⊎ ((t : ℕ) × (y : _) × (seat.old.me.0.stage ≡ Inside t y)))) }
    ensures same { StaysAt seat.old seat.new }
    ensures outside { HandsOnList R.entries R.spare
        (step cell.now.table_id.slots 3 1 0 none) seat.old.me 0 seat.new.me }
{
    let _served = cell.fetch_add::<HandOnList>(seat, LIST_SERVING, 1);
    door.open();
}
