//! The cell and its passes.
ghost use Rattle.std.specs.Prelude.{◌≡◌, ℕ, ◌+◌, ◌≤◌, ◌<◌, [], Some, length};
ghost use mathlib.Core.List.{IsPrefix};
ghost use Rattle.turn_cell.specs.declared.view.Role.TheVariants.{Pass as IsPass};
ghost use Rattle.turn_cell.specs.declared.view.Stage.TheVariants.{Outside};
ghost use Rattle.turn_cell.specs.Turns.{AllOf, own_count, Adds, Knew, Continues};
ghost use Rattle.turn_cell.specs.Sights.{IsOutside, IsGrownBy, AreAllPasses, ComesFrom};
ghost use Rattle.turn_cell.specs.Knowing.{IsSame, IsQuiet, KnowsItsOwn, pass_number, seen_of};
ghost use Rattle.turn_cell.specs.Knowing.{mine_of, failed_of, own_faults_of, looks_of, turns_of};
ghost use Rattle.twin_cell.specs.Sights.{HasWork, spare_of, LeavesSpare, IsWorkFrom, IsListFrom};
ghost use Rattle.twin_cell.specs.Sights.{IsWorkAsFound};
ghost use Rattle.twin_cell.specs.Twins.{IsBacked};

use crate::ends::{give_list, give_work, put_work, tell};
use crate::makes::gather;
use crate::parts::{Backed, Kept, Listed};
use crate::rule::{Making, TwinRule};
use crate::steps::{Place, draw, draw_list, see};
use crate::waits::{wait_list, wait_work};
use atomic_table::{Seat, Table};
use std::alloc::Global;
use std::marker::Model;
use std::snapshot::Snapshot;
use std::sync::Wait;
use turn_cell::{Door, View};

/// What a pass knows of one cell.
pub struct TwinPass<W: Backed<R>, R: Listed> {
    pub(crate) number: u32,
    pub(crate) own_faults: u64,
    pub(crate) seat: Seat<Kept<W, R>, View<R::Content, W::Doubt, W::Fixed>>,
}

impl<W: Backed<R>, R: Listed> Model for TwinPass<W, R> {
    ghost use Rattle.std.specs.Prelude.{◌≡◌, []};
    ghost use Rattle.turn_cell.specs.declared.view.Role.TheVariants.{Pass as IsPass};
    ghost use Rattle.turn_cell.specs.Sights.{Sight};
    ghost use Rattle.turn_cell.specs.Steps.{InTurn};
    ghost use Rattle.twin_cell.specs.Sights.{CarriesBoth};
    ghost use Rattle.twin_cell.specs.Steps.{InList};

    ghost Value = { Sight R.Content W.Doubt W.Fixed };

    ghost view = { λ p. record { cell = p.seat.table_id; place = p.seat.id; view = p.seat.me.0 } };

    ghost invariant = { λ p. (p.number ≡ p.seat.me.0.number)
        × (p.own_faults ≡ p.seat.me.0.own_faults) × (p.seat.me.0.role ≡ IsPass)
        × (p.seat.me.0.past ≡ []) × CarriesBoth p.seat.me.0.stage p.seat.me.0.list p.seat.me.1
        × InTurn p.seat.me.0.stage p.seat.me.0.seen × InList p.seat.me.0.list p.seat.me.0.seen };
}

/// A work and a list that threads take in two turns.
pub struct Twin<W: Backed<R>, R: Listed> {
    pub(crate) table: Table<
        Kept<W, R>,
        View<R::Content, W::Doubt, W::Fixed>,
        Making<W, R>,
        TwinRule<W, R>,
        Global,
    >,
    pub(crate) work_door: Door,
    pub(crate) list_door: Door,
}

impl<W: Backed<R>, R: Listed> Model for Twin<W, R> {
    ghost use Rattle.std.specs.Prelude.{◌≡◌, ◌<◌, ◌≤◌};
    ghost use Rattle.twin_cell.specs.Sights.{MadeTwin};

    ghost Value = { MadeTwin W R };

    ghost view = { λ t. record {
      cell = t.table.shared.table_id;
      work = t.table.shared.key.work.value;
      list = t.table.shared.key.list.value;
      seats = t.table.shared.key.seats;
    } };

    ghost invariant = { λ t. (t.table.shared.table_id.words ≡ 6)
        × (t.table.shared.table_id.slots ≡ 2) × (0 < t.table.shared.key.seats)
        × (t.table.shared.key.seats ≤ 16) };
}

/// The work, while a pass has its turn. It ends in `leave_work`.
pub struct HeldWork<W: Backed<R>, R: Listed> {
    pub(crate) value: W,
    pub(crate) was: Snapshot<W>,
    pub(crate) entered: Snapshot<TwinPass<W, R>>,
}

impl<W: Backed<R>, R: Listed> Model for HeldWork<W, R> {
    ghost use Rattle.turn_cell.specs.Sights.{Taken};

    ghost Value = { Taken R.Content W.Doubt W.Fixed W };

    ghost view = { λ h. record { entered = h.entered.value; was = h.was.value; value = h.value } };
}

/// The list, while a pass has its turn. It ends in `leave_list` or `publish`.
pub struct HeldList<W: Backed<R>, R: Listed> {
    pub(crate) value: R,
    pub(crate) was: Snapshot<R>,
    pub(crate) entered: Snapshot<TwinPass<W, R>>,
}

impl<W: Backed<R>, R: Listed> Model for HeldList<W, R> {
    ghost use Rattle.turn_cell.specs.Sights.{Taken};

    ghost Value = { Taken R.Content W.Doubt W.Fixed R };

    ghost view = { λ h. record { entered = h.entered.value; was = h.was.value; value = h.value } };
}

/// A pass that is let go leaves its view in the cell, which then can't be closed.
impl<W: Backed<R>, R: Listed> Drop for TwinPass<W, R> {
    fn drop(self) {
        let Self {
            number: _,
            own_faults: _,
            seat: _,
        } = self;
    }
}

impl<W: Backed<R> + Drop, R: Listed + Drop> Drop for Twin<W, R> {
    fn drop(self) {
        let Self {
            table: _,
            work_door: _,
            list_door: _,
        } = self;
    }
}

impl<W: Backed<R>, R: Listed> TwinPass<W, R> {
    pub fn number(&self) -> u32
        ensures { result ≡ pass_number self.now }
    {
        self.number
    }

    pub fn own_faults(&self) -> u64
        ensures { result ≡ own_faults_of self.now }
    {
        self.own_faults
    }

    pub(crate) fn into_seat(self) -> Place<W, R>
        ensures same { (result.table_id ≡ self.cell) × (result.me.0 ≡ self.view) }
        ensures role { (result.me.0.role ≡ IsPass) × (result.me.0.past ≡ []) }
        ensures bare { IsOutside self → result.me.1 ≡ [] }
    {
        let Self {
            number: _,
            own_faults: _,
            seat,
        } = self;
        seat
    }
}

impl<W: Backed<R>, R: Listed> Twin<W, R> {
    /// The length of the history. It waits for nobody.
    pub fn count(&self, pass: &mut TwinPass<W, R>) -> u64
        requires { pass.old.cell ≡ self.now.cell }
        ensures same { IsSame pass.old pass.new × (pass.new.view.stage ≡ pass.old.view.stage)
            × (pass.new.view.list ≡ pass.old.view.list) }
        ensures spare { spare_of pass.new ≡ spare_of pass.old }
        ensures quiet { IsQuiet pass.old pass.new }
        ensures count { result ≡ length (seen_of pass.new) }
        ensures later { IsPrefix (seen_of pass.old) (seen_of pass.new) }
        ensures own { KnowsItsOwn pass.new }
        ensures looks { looks_of pass.new ≡ looks_of pass.old + 1 }
        ensures test { R.fits (seen_of pass.new) }
    {
        see(&self.table.shared, &mut pass.seat)
    }

    /// Waits for the turn of the work, which the pass has until it leaves it.
    pub fn enter_work<T: Wait>(&self, rt: &T, pass: &mut TwinPass<W, R>) -> HeldWork<W, R>
        requires cell { pass.old.cell ≡ self.now.cell }
        requires outside { IsOutside pass.old }
        ensures same { IsSame pass.old pass.new × (pass.new.view.list ≡ Outside) }
        ensures quiet { IsQuiet pass.old pass.new }
        ensures from { IsWorkFrom W.fault_count W.doubt W.fixed pass.new result }
        ensures value { result.value ≡ result.was }
        ensures stands { W.stands result.value (seen_of pass.new) }
        ensures later { IsPrefix (seen_of pass.old) (seen_of pass.new) }
        ensures own { KnowsItsOwn pass.new }
        ensures looks { looks_of pass.new ≡ looks_of pass.old + 1 }
        ensures spare { spare_of pass.new ≡ 0 }
        ensures test { R.fits (seen_of pass.new) }
    {
        let cell = &self.table.shared;
        self.work_door.go_in(rt);
        let ticket = draw(cell, &mut pass.seat);
        let value = wait_work(rt, cell, &mut pass.seat, ticket);
        see(cell, &mut pass.seat);
        let was = Snapshot::of(&value);
        HeldWork {
            value,
            was,
            entered: Snapshot::of(pass),
        }
    }

    /// Waits for the turn of the list, which the pass has until it leaves it or publishes. What it
    /// finds was published, so a work of the making's fixed part stands for it.
    pub fn enter_list<T: Wait>(&self, rt: &T, pass: &mut TwinPass<W, R>) -> HeldList<W, R>
        requires cell { pass.old.cell ≡ self.now.cell }
        requires outside { pass.old.view.list ≡ Outside }
        ensures same { IsSame pass.old pass.new × (pass.new.view.stage ≡ pass.old.view.stage) }
        ensures quiet { IsQuiet pass.old pass.new }
        ensures from { IsListFrom R.entries R.spare pass.new result }
        ensures value { result.value ≡ result.was }
        ensures entries { R.entries result.value ≡ seen_of pass.new }
        ensures backed { IsBacked W.stands W.fixed pass.old.view.fixed (seen_of pass.new) }
        ensures later { IsPrefix (seen_of pass.old) (seen_of pass.new) }
        ensures with_work { HasWork pass.old → seen_of pass.new ≡ seen_of pass.old }
        ensures spare { HasWork pass.old → spare_of pass.old ≤ R.spare result.value }
        ensures promise { spare_of pass.new ≡ spare_of pass.old }
        ensures own { KnowsItsOwn pass.new }
        ensures looks { looks_of pass.new ≡ looks_of pass.old + 1 }
        ensures test { R.fits (seen_of pass.new) }
    {
        let cell = &self.table.shared;
        self.list_door.go_in(rt);
        let ticket = draw_list(cell, &mut pass.seat);
        let value = wait_list(rt, cell, &mut pass.seat, ticket);
        see(cell, &mut pass.seat);
        let was = Snapshot::of(&value);
        HeldList {
            value,
            was,
            entered: Snapshot::of(pass),
        }
    }

    /// Hands the turn of the list on over a list with the same entries. While the pass has the
    /// work, the list has at least the spare that it needs.
    pub fn leave_list(&self, pass: &mut TwinPass<W, R>, held: HeldList<W, R>, need: u64)
        requires cell { pass.old.cell ≡ self.now.cell }
        requires from { IsListFrom R.entries R.spare pass.old held }
        requires entries { R.entries held.value ≡ R.entries held.was }
        requires spare { LeavesSpare pass.old need (R.spare held.was) (R.spare held.value) }
        ensures same { IsSame pass.old pass.new × (pass.new.view.stage ≡ pass.old.view.stage)
            × (pass.new.view.list ≡ Outside) }
        ensures quiet { IsQuiet pass.old pass.new }
        ensures seen { seen_of pass.new ≡ seen_of pass.old }
        ensures looks { looks_of pass.new ≡ looks_of pass.old }
        ensures spare { spare_of pass.new ≡ R.spare held.value }
        ensures need { need ≤ spare_of pass.new }
    {
        let _need = need;
        let HeldList {
            value,
            was: _,
            entered: _,
        } = held;
        give_list(&self.table.shared, &self.list_door, &mut pass.seat, value);
    }

    /// Publishes the list's entries, for which the work stands, and hands the turn of the list on.
    pub fn publish(&self, pass: &mut TwinPass<W, R>, work: &HeldWork<W, R>, held: HeldList<W, R>)
        requires cell { pass.old.cell ≡ self.now.cell }
        requires of_work { IsWorkFrom W.fault_count W.doubt W.fixed pass.old work.now }
        requires from { IsListFrom R.entries R.spare pass.old held }
        requires grown { IsGrownBy (pass_number pass.old) (seen_of pass.old)
            (R.entries held.value) }
        requires test { R.fits (R.entries held.value) }
        requires stands { W.stands work.now.value (R.entries held.value) }
        requires fixed { W.fixed work.now.value ≡ W.fixed work.now.was }
        requires faults { W.fault_count work.now.was ≤ W.fault_count work.now.value }
        ensures same { IsSame pass.old pass.new × (pass.new.view.list ≡ Outside) }
        ensures of_work { IsWorkFrom W.fault_count W.doubt W.fixed pass.new work.now }
        ensures entries { seen_of pass.new ≡ R.entries held.value }
        ensures own { KnowsItsOwn pass.new }
        ensures looks { looks_of pass.new ≡ looks_of pass.old }
        ensures faults { own_faults_of pass.new ≡ own_faults_of pass.old }
        ensures failed { failed_of pass.new ≡ failed_of pass.old }
        ensures spare { spare_of pass.new ≡ R.spare held.value }
    {
        let HeldList {
            value,
            was: _,
            entered: _,
        } = held;
        let _work = work;
        tell(&self.table.shared, &self.list_door, &mut pass.seat, value);
    }

    /// Publishes the work's faults and doubt, and hands its turn on.
    pub fn leave_work(&self, pass: &mut TwinPass<W, R>, held: HeldWork<W, R>)
        requires cell { pass.old.cell ≡ self.now.cell }
        requires from { IsWorkFrom W.fault_count W.doubt W.fixed pass.old held }
        requires stands { W.stands held.value (seen_of pass.old) }
        requires fixed { W.fixed held.value ≡ W.fixed held.was }
        requires faults { W.fault_count held.was ≤ W.fault_count held.value }
        ensures same { IsSame pass.old pass.new × (pass.new.view.stage ≡ Outside)
            × (pass.new.view.list ≡ pass.old.view.list) }
        ensures looks { looks_of pass.new ≡ looks_of pass.old }
        ensures seen { (seen_of pass.new ≡ seen_of pass.old)
            × (mine_of pass.new ≡ mine_of pass.old) }
        ensures faults { own_faults_of pass.new
            ≡ own_count (own_faults_of pass.old)
            (W.fault_count held.was) (W.fault_count held.value) }
        ensures never_falls { own_faults_of pass.old ≤ own_faults_of pass.new }
        ensures doubt { Adds (W.doubt held.was) (W.doubt held.value)
            (failed_of pass.old) (failed_of pass.new) }
    {
        let HeldWork {
            value,
            was: _,
            entered: _,
        } = held;
        let cell = &self.table.shared;
        pass.own_faults = give_work(
            cell,
            &self.work_door,
            &mut pass.seat,
            value,
            pass.own_faults,
        );
    }

    /// Hands the turn of the work on over a work of which nothing that is published changed.
    pub fn leave_work_as_found(&self, pass: &mut TwinPass<W, R>, held: HeldWork<W, R>)
        requires cell { pass.old.cell ≡ self.now.cell }
        requires from { IsWorkFrom W.fault_count W.doubt W.fixed pass.old held }
        requires stands { W.stands held.value (seen_of pass.old) }
        requires as_found { IsWorkAsFound W.fault_count W.doubt W.fixed held }
        ensures same { IsSame pass.old pass.new × (pass.new.view.stage ≡ Outside)
            × (pass.new.view.list ≡ pass.old.view.list) }
        ensures looks { looks_of pass.new ≡ looks_of pass.old }
        ensures seen { seen_of pass.new ≡ seen_of pass.old }
        ensures quiet { IsQuiet pass.old pass.new }
    {
        let HeldWork {
            value,
            was: _,
            entered: _,
        } = held;
        put_work(&self.table.shared, &self.work_door, &mut pass.seat, value);
    }

    /// The work and the list, once all passes are back. The work stands for the list's entries,
    /// which begin with what each pass had seen, and have just its own entries at its places. Where
    /// no pass ever drew a ticket, both are as they were at the making.
    pub fn close(self, passes: Vec<TwinPass<W, R>>) -> (W, R)
        requires { AreAllPasses self.cell self.seats passes.items }
        ensures stands { W.stands result.0 (R.entries result.1) }
        ensures history { Continues (R.entries self.list) self.seats (R.entries result.1) }
        ensures passes { AllOf (λ p. Knew (R.entries result.1) (pass_number p)
            (seen_of p) (mine_of p))
            passes.items }
        ensures faults { AllOf (λ p. own_faults_of p ≤ W.fault_count result.0) passes.items }
        ensures doubt { ComesFrom (W.doubt self.work) passes.items (W.doubt result.0) }
        ensures fixed { W.fixed result.0 ≡ W.fixed self.work }
        ensures test { R.fits (R.entries result.1) }
        ensures untouched { AllOf (λ p. turns_of p ≡ 0) passes.items
            → (result.0 ≡ self.work) × (result.1 ≡ self.list) }
    {
        let seat = gather(&self.table.shared, passes);
        let Self {
            table,
            work_door: _,
            list_door: _,
        } = self;
        let mut closed = table.close_with(seat);
        let work_slot = closed.take(0);
        let list_slot = closed.take(1);
        closed.free();
        (work_slot.into_work(), list_slot.into_list())
    }
}
