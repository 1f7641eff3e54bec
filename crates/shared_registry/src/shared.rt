//! A registry that threads share.
ghost use Rattle.std.specs.Prelude.{◌≡◌, ◌⊎◌, ◌<◌, ◌≤◌, ℕ, ◌+◌, Some, IfOk};
ghost use Rattle.std.specs.Prelude.{IfErr, IfSome, OnOk, OnErr, slice_get};
ghost use Rattle.std.specs.Prelude.{vec_len, vec_capacity};
ghost use Rattle.std.specs.List.{AllByRecursion};
ghost use Rattle.log_base.specs.declared.source_info.SourceInfo.{SourceInfo as AnySource};
ghost use Rattle.registry_core.specs.declared.event.Event.{Event as AnyEvent};
ghost use Rattle.registry_core.specs.Answers.{end_of_create, end_of_change};
ghost use Rattle.registry_core.specs.Replies as asked;
ghost use Rattle.registry_core.specs.Sources.{HasSlot};
ghost use Rattle.turn_cell.specs.Knowing.{Wants, seen_of};
ghost use Rattle.turn_cell.specs.Sharing.{IsPassOf, IsNewPassOf, AreAllPassesOf, IsClosedOf};
ghost use Rattle.turn_cell.specs.Sharing.{FoundInTurn};
ghost use Rattle.shared_registry.specs.History.{shared_registry};
ghost use Rattle.shared_registry.specs.Stays.{CalledOnRegistry, reaches_disk};
ghost use Rattle.shared_registry.specs.Names.{KeepsNames, HasNames};

use crate::names::{Names, RegistryPass, counts, living_in};
use crate::value::RegistryValue;
use delta_base::{Back, Id, OutOfMemory, Text};
use disk_model::Disk;
use log_base::{SourceInfo, Sources};
use log_registry::RegistryState;
use registry_core::{ChangeAnswer, CreateAnswer, find_named, find_with_id, find_with_uri, listed};
use std::alloc::Global;
use std::marker::Model;
use std::sync::Wait;
use turn_cell::{Pass, Turn};

// Whether a creation that got this answer reached the disk.
fn creates(answer: &CreateAnswer) -> bool
    ensures { result ≡ reaches_disk (end_of_create answer.now) }
{
    matches!(answer, CreateAnswer::Made(_) | CreateAnswer::DiskFault)
}

// Whether a change that got this answer reached the disk.
fn changes(answer: &ChangeAnswer) -> bool
    ensures { (made_of : AnySource → AnyEvent)
        → result ≡ reaches_disk (end_of_change made_of answer.now) }
{
    matches!(answer, ChangeAnswer::Done(_) | ChangeAnswer::DiskFault)
}

/// A registry that threads change and ask, each with a pass of its own.
#[derive(Drop)]
pub struct SharedRegistry<D: Disk> {
    turn: Turn<RegistryValue<D>>,
    alloc: Global,
    slots: u32,
}

impl<D: Disk> Model for SharedRegistry<D> {
    ghost use Rattle.std.specs.Prelude.{◌≡◌};
    ghost use Rattle.log_registry.specs.State.{StateView};
    ghost use Rattle.turn_cell.specs.Sights.{Made};

    ghost Value = { Made (StateView D) };

    ghost view = { λ s. s.turn };

    ghost invariant = { λ s. s.slots ≡ s.turn.origin.slots };
}

impl<D: Disk> SharedRegistry<D> {
    /// Shares a registry among passes, which have the numbers from 1 on.
    pub fn new(
        alloc: Global,
        state: RegistryState<D>,
        seats: u32,
    ) -> Result<(SharedRegistry<D>, Vec<Pass<RegistryValue<D>>>), Back<RegistryState<D>>>
        requires seats { (0 < seats) × (seats ≤ 16) }
        requires by_nobody { AllByRecursion (λ entry. entry.by ≡ 0) state.entries }
        ensures registry { IfOk result (λ r. (r.0.origin ≡ state) × (r.0.seats ≡ seats)) }
        ensures passes { IfOk result (λ r.
            (vec_len r.1 ≡ seats) × (vec_capacity r.1 ≡ seats)) }
        ensures new { IfOk result (λ r. (k : ℕ) (p : _) → slice_get r.1.items k ≡ Some p
            → IsNewPassOf (shared_registry D.Disk) r.0 (k + 1) p) }
        ensures back { IfErr result (λ b. b.item ≡ state) }
    {
        let slots = state.slots();
        match Turn::new(alloc, RegistryValue::of(state), seats) {
            Ok((turn, passes)) => Ok((SharedRegistry { turn, alloc, slots }, passes)),
            Err(Back { item }) => Err(Back {
                item: item.into_registry(),
            }),
        }
    }

    /// How many slots there are.
    pub fn slots(&self) -> u32
        ensures { result ≡ self.now.origin.slots }
    {
        self.slots
    }

    /// Makes a source, or says why not: its name, its URI, a source that has its name or its id,
    /// no slot, no room, want of memory and a disk fault, in this order.
    pub fn create<R: Wait>(
        &self,
        rt: &R,
        pass: &mut RegistryPass<D>,
        name: &Text,
        uri: &Text,
        id: Id,
    ) -> CreateAnswer
        requires of { IsPassOf (shared_registry D.Disk) self.now pass.old }
        ensures of { IsPassOf (shared_registry D.Disk) self.now pass.new }
        ensures called { CalledOnRegistry D.Disk self.now.origin pass.old
            (asked.create name.now uri.now id) (asked.answered result) pass.new }
    {
        pass.names = None;
        self.create_by(rt, &mut pass.pass, name, uri, id)
    }

    // The same with the bare pass.
    fn create_by<R: Wait>(
        &self,
        rt: &R,
        pass: &mut Pass<RegistryValue<D>>,
        name: &Text,
        uri: &Text,
        id: Id,
    ) -> CreateAnswer
        requires of { IsPassOf (shared_registry D.Disk) self.now pass.old }
        ensures of { IsPassOf (shared_registry D.Disk) self.now pass.new }
        ensures called { CalledOnRegistry D.Disk self.now.origin pass.old
            (asked.create name.now uri.now id) (asked.answered result) pass.new }
    {
        let by = pass.number();
        let mut held = self.turn.enter(rt, pass);
        let answer = held.value_mut().create(name, uri, id, by);
        self.turn.give_back(pass, held, creates(&answer));
        answer
    }

    /// Gives a source another name, or says why not: no such name, the new name, a source that has
    /// it, no room, want of memory and a disk fault, in this order.
    pub fn rename<R: Wait>(
        &self,
        rt: &R,
        pass: &mut RegistryPass<D>,
        name: &Text,
        new_name: &Text,
    ) -> ChangeAnswer
        requires of { IsPassOf (shared_registry D.Disk) self.now pass.old }
        ensures of { IsPassOf (shared_registry D.Disk) self.now pass.new }
        ensures called { CalledOnRegistry D.Disk self.now.origin pass.old
            (asked.rename name.now new_name.now) (asked.changed result) pass.new }
    {
        pass.names = None;
        self.rename_by(rt, &mut pass.pass, name, new_name)
    }

    // The same with the bare pass.
    fn rename_by<R: Wait>(
        &self,
        rt: &R,
        pass: &mut Pass<RegistryValue<D>>,
        name: &Text,
        new_name: &Text,
    ) -> ChangeAnswer
        requires of { IsPassOf (shared_registry D.Disk) self.now pass.old }
        ensures of { IsPassOf (shared_registry D.Disk) self.now pass.new }
        ensures called { CalledOnRegistry D.Disk self.now.origin pass.old
            (asked.rename name.now new_name.now) (asked.changed result) pass.new }
    {
        let by = pass.number();
        let mut held = self.turn.enter(rt, pass);
        let answer = held.value_mut().rename(name, new_name, by);
        self.turn.give_back(pass, held, changes(&answer));
        answer
    }

    /// Removes a source, or says why not: no such name, no room, want of memory and a disk fault,
    /// in this order.
    pub fn remove<R: Wait>(&self, rt: &R, pass: &mut RegistryPass<D>, name: &Text) -> ChangeAnswer
        requires of { IsPassOf (shared_registry D.Disk) self.now pass.old }
        ensures of { IsPassOf (shared_registry D.Disk) self.now pass.new }
        ensures called { CalledOnRegistry D.Disk self.now.origin pass.old
            (asked.remove name.now) (asked.changed result) pass.new }
    {
        pass.names = None;
        self.remove_by(rt, &mut pass.pass, name)
    }

    // The same with the bare pass.
    fn remove_by<R: Wait>(
        &self,
        rt: &R,
        pass: &mut Pass<RegistryValue<D>>,
        name: &Text,
    ) -> ChangeAnswer
        requires of { IsPassOf (shared_registry D.Disk) self.now pass.old }
        ensures of { IsPassOf (shared_registry D.Disk) self.now pass.new }
        ensures called { CalledOnRegistry D.Disk self.now.origin pass.old
            (asked.remove name.now) (asked.changed result) pass.new }
    {
        let by = pass.number();
        let mut held = self.turn.enter(rt, pass);
        let answer = held.value_mut().remove(name, by);
        self.turn.give_back(pass, held, changes(&answer));
        answer
    }

    // Looks the sources up, unless no entry came behind those that the pass has seen.
    fn refresh<R: Wait>(
        &self,
        rt: &R,
        pass: &mut Pass<RegistryValue<D>>,
        names: &mut Option<Names>,
    ) -> Result<(), OutOfMemory>
        requires of { IsPassOf (shared_registry D.Disk) self.now pass.old }
        requires kept { KeepsNames names.old pass.old }
        ensures of { IsPassOf (shared_registry D.Disk) self.now pass.new }
        ensures looked { Wants pass.old pass.new }
        ensures stay { FoundInTurn (shared_registry D.Disk) self.now.origin pass.old pass.new
            ⊎ (seen_of pass.new ≡ seen_of pass.old) }
        ensures kept { KeepsNames names.new pass.new }
        ensures fresh { OnOk result (HasNames names.new pass.new) }
    {
        let count = self.turn.count(pass);
        if counts(names, count) {
            return Ok(());
        }
        *names = None;
        let held = self.turn.enter(rt, pass);
        let found = held.value().names(self.alloc);
        self.turn.give_back(pass, held, false);
        *names = Some(found?);
        Ok(())
    }

    /// The source with a name.
    pub fn resolve<R: Wait>(
        &self,
        rt: &R,
        pass: &mut RegistryPass<D>,
        name: &Text,
    ) -> Result<Option<SourceInfo>, OutOfMemory>
        requires of { IsPassOf (shared_registry D.Disk) self.now pass.old }
        ensures of { IsPassOf (shared_registry D.Disk) self.now pass.new }
        ensures called { IfOk result (λ found. CalledOnRegistry D.Disk self.now.origin pass.old
            (asked.resolve name.now) (asked.found found) pass.new) }
        ensures slot { IfOk result (λ found.
            IfSome found (HasSlot self.now.origin.slots)) }
        ensures want { OnErr result (Wants pass.old pass.new) }
    {
        self.refresh(rt, &mut pass.pass, &mut pass.names)?;
        find_named(living_in(&pass.names), name.as_bytes())
    }

    /// The source with an id.
    pub fn resolve_id<R: Wait>(
        &self,
        rt: &R,
        pass: &mut RegistryPass<D>,
        id: Id,
    ) -> Result<Option<SourceInfo>, OutOfMemory>
        requires of { IsPassOf (shared_registry D.Disk) self.now pass.old }
        ensures of { IsPassOf (shared_registry D.Disk) self.now pass.new }
        ensures called { IfOk result (λ found. CalledOnRegistry D.Disk self.now.origin pass.old
            (asked.resolve_id id) (asked.found found) pass.new) }
        ensures slot { IfOk result (λ found.
            IfSome found (HasSlot self.now.origin.slots)) }
        ensures want { OnErr result (Wants pass.old pass.new) }
    {
        self.refresh(rt, &mut pass.pass, &mut pass.names)?;
        find_with_id(living_in(&pass.names), id)
    }

    /// The source with a URI; of several the one in the least slot.
    pub fn resolve_uri<R: Wait>(
        &self,
        rt: &R,
        pass: &mut RegistryPass<D>,
        uri: &Text,
    ) -> Result<Option<SourceInfo>, OutOfMemory>
        requires of { IsPassOf (shared_registry D.Disk) self.now pass.old }
        ensures of { IsPassOf (shared_registry D.Disk) self.now pass.new }
        ensures called { IfOk result (λ found. CalledOnRegistry D.Disk self.now.origin pass.old
            (asked.resolve_uri uri.now) (asked.found found) pass.new) }
        ensures slot { IfOk result (λ found.
            IfSome found (HasSlot self.now.origin.slots)) }
        ensures want { OnErr result (Wants pass.old pass.new) }
    {
        self.refresh(rt, &mut pass.pass, &mut pass.names)?;
        find_with_uri(living_in(&pass.names), uri.as_bytes())
    }

    /// The sources that live, in the order of their names.
    pub fn list<R: Wait>(&self, rt: &R, pass: &mut RegistryPass<D>) -> Result<Sources, OutOfMemory>
        requires of { IsPassOf (shared_registry D.Disk) self.now pass.old }
        ensures of { IsPassOf (shared_registry D.Disk) self.now pass.new }
        ensures called { IfOk result (λ found. CalledOnRegistry D.Disk self.now.origin pass.old
            asked.list (asked.listed found.items) pass.new) }
        ensures slots { IfOk result (λ found.
            AllByRecursion (HasSlot self.now.origin.slots) found.items) }
        ensures want { OnErr result (Wants pass.old pass.new) }
    {
        self.refresh(rt, &mut pass.pass, &mut pass.names)?;
        listed(self.alloc, living_in(&pass.names))
    }

    /// The registry, once all passes are back. Its entries begin with what each pass knew, and have
    /// just its own at its places.
    pub fn close(self, passes: Vec<Pass<RegistryValue<D>>>) -> RegistryState<D>
        requires { AreAllPassesOf (shared_registry D.Disk) self passes.items }
        ensures closed { IsClosedOf (shared_registry D.Disk) self passes.items result }
    {
        let SharedRegistry { turn, .. } = self;
        turn.close(passes).into_registry()
    }
}
