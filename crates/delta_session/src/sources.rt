//! What a hall says to the calls that ask its registry.
ghost use Rattle.std.specs.Prelude.{◌<◌, ◌≤◌, ℕ, length, IfErr, IfOk, IfSome};
ghost use Rattle.http_session.specs.Said.{IsPrintableSaid};
ghost use Rattle.registry_core.specs.Replies as registry;
ghost use Rattle.registry_core.specs.Sources.{HasSlot};
ghost use Rattle.delta_session.specs.Answered.{ByRegistry, IsLookedUp, LooksUp, TakesNoNumber};
ghost use Rattle.delta_session.specs.Answered.{reply_found};
ghost use Rattle.delta_session.specs.Halls.{IsHallPass};

use crate::hall::Hall;
use crate::pass::HallPass;
use crate::telling::{change_answer, create_answer, say_found, say_listed};
use call_replies::say;
use delta_base::{Id, OutOfMemory, Text};
use disk_model::Disk;
use http_session::Said;
use log_base::SourceInfo;
use rpc_answers::Answer;
use std::alloc::Global;
use std::sync::Wait;

// The slot of the source that was found, or what is said where there is none.
fn slot_in(alloc: Global, found: Result<Option<SourceInfo>, OutOfMemory>) -> Result<u32, Said>
    ensures found { IsLookedUp (reply_found found) result }
    ensures slot { (slots : ℕ) → IfOk found (λ reply. IfSome reply (HasSlot slots))
        → IfOk result (λ slot. (0 < slot) × (slot ≤ slots)) }
    ensures printable { IfErr result IsPrintableSaid }
{
    match found {
        Ok(Some(source)) => Ok(source.slot),
        Ok(None) => Err(say(alloc, Answer::NoSource)),
        Err(_) => Err(Said::OutOfMemory),
    }
}

impl<D: Disk> Hall<D> {
    pub(crate) fn list<R: Wait>(&self, rt: &R, alloc: Global, pass: &mut HallPass<D>) -> Said
        requires ready { IsHallPass D.Disk self.now pass.old.lists }
        ensures takes { TakesNoNumber D.Disk self.now (ByRegistry registry.list)
            pass.old result pass.new }
        ensures printable { IsPrintableSaid result }
        ensures ready { IsHallPass D.Disk self.now pass.new.lists }
    {
        let listed = self.registry.list(rt, &mut pass.registry);
        say_listed(alloc, listed)
    }

    pub(crate) fn source<R: Wait>(
        &self,
        rt: &R,
        alloc: Global,
        pass: &mut HallPass<D>,
        name: Text,
    ) -> Said
        requires ready { IsHallPass D.Disk self.now pass.old.lists }
        ensures takes { TakesNoNumber D.Disk self.now (ByRegistry (registry.resolve name))
            pass.old result pass.new }
        ensures printable { IsPrintableSaid result }
        ensures ready { IsHallPass D.Disk self.now pass.new.lists }
    {
        let found = self.registry.resolve(rt, &mut pass.registry, &name);
        drop(name);
        say_found(alloc, found)
    }

    pub(crate) fn source_by_id<R: Wait>(
        &self,
        rt: &R,
        alloc: Global,
        pass: &mut HallPass<D>,
        id: Id,
    ) -> Said
        requires ready { IsHallPass D.Disk self.now pass.old.lists }
        ensures takes { TakesNoNumber D.Disk self.now (ByRegistry (registry.resolve_id id))
            pass.old result pass.new }
        ensures printable { IsPrintableSaid result }
        ensures ready { IsHallPass D.Disk self.now pass.new.lists }
    {
        let found = self.registry.resolve_id(rt, &mut pass.registry, id);
        say_found(alloc, found)
    }

    pub(crate) fn source_by_uri<R: Wait>(
        &self,
        rt: &R,
        alloc: Global,
        pass: &mut HallPass<D>,
        uri: Text,
    ) -> Said
        requires ready { IsHallPass D.Disk self.now pass.old.lists }
        ensures takes { TakesNoNumber D.Disk self.now (ByRegistry (registry.resolve_uri uri))
            pass.old result pass.new }
        ensures printable { IsPrintableSaid result }
        ensures ready { IsHallPass D.Disk self.now pass.new.lists }
    {
        let found = self.registry.resolve_uri(rt, &mut pass.registry, &uri);
        drop(uri);
        say_found(alloc, found)
    }

    pub(crate) fn create<R: Wait>(
        &self,
        rt: &R,
        alloc: Global,
        pass: &mut HallPass<D>,
        name: Text,
        uri: Text,
        id: Id,
    ) -> Said
        requires ready { IsHallPass D.Disk self.now pass.old.lists }
        ensures takes { TakesNoNumber D.Disk self.now (ByRegistry (registry.create name uri id))
            pass.old result pass.new }
        ensures printable { IsPrintableSaid result }
        ensures ready { IsHallPass D.Disk self.now pass.new.lists }
    {
        let answer = self
            .registry
            .create(rt, &mut pass.registry, &name, &uri, id);
        drop(name);
        drop(uri);
        say(alloc, create_answer(answer))
    }

    pub(crate) fn rename<R: Wait>(
        &self,
        rt: &R,
        alloc: Global,
        pass: &mut HallPass<D>,
        name: Text,
        new_name: Text,
    ) -> Said
        requires ready { IsHallPass D.Disk self.now pass.old.lists }
        ensures takes { TakesNoNumber D.Disk self.now (ByRegistry (registry.rename name new_name))
            pass.old result pass.new }
        ensures printable { IsPrintableSaid result }
        ensures ready { IsHallPass D.Disk self.now pass.new.lists }
    {
        let answer = self
            .registry
            .rename(rt, &mut pass.registry, &name, &new_name);
        drop(name);
        drop(new_name);
        say(alloc, change_answer(answer))
    }

    pub(crate) fn remove<R: Wait>(
        &self,
        rt: &R,
        alloc: Global,
        pass: &mut HallPass<D>,
        name: Text,
    ) -> Said
        requires ready { IsHallPass D.Disk self.now pass.old.lists }
        ensures takes { TakesNoNumber D.Disk self.now (ByRegistry (registry.remove name))
            pass.old result pass.new }
        ensures printable { IsPrintableSaid result }
        ensures ready { IsHallPass D.Disk self.now pass.new.lists }
    {
        let answer = self.registry.remove(rt, &mut pass.registry, &name);
        drop(name);
        say(alloc, change_answer(answer))
    }

    // The slot of the source with a name, or what is said where there is none.
    pub(crate) fn slot_of<R: Wait>(
        &self,
        rt: &R,
        alloc: Global,
        pass: &mut HallPass<D>,
        name: Text,
    ) -> Result<u32, Said>
        requires ready { IsHallPass D.Disk self.now pass.old.lists }
        ensures looks { LooksUp D.Disk self.now name pass.old result pass.new }
        ensures slot { IfOk result (λ slot. (0 < slot) × (slot ≤ length self.now.logs.logs)) }
        ensures printable { IfErr result IsPrintableSaid }
        ensures ready { IsHallPass D.Disk self.now pass.new.lists }
    {
        let found = self.registry.resolve(rt, &mut pass.registry, &name);
        drop(name);
        slot_in(alloc, found)
    }
}
