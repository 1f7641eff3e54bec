//! A hall answers requests.
ghost use Rattle.http_session.specs.Said.{IsPrintableSaid};
ghost use Rattle.delta_session.specs.Answered.{ServesCall};
ghost use Rattle.delta_session.specs.Halls.{IsHallPass};

use crate::hall::Hall;
use crate::logs::SlotCall;
use crate::pass::HallPass;
use call_replies::{refuse, say};
use delta_base::{Id, Text};
use disk_model::Disk;
use http_heads::RawRequest;
use http_session::{Answerer, Said};
use rpc_answers::Answer;
use rpc_calls::{Call, read_call};
use std::alloc::Global;
use std::sync::Wait;

impl<D: Disk> Hall<D> {
    // Makes a source; without an id it takes the next one of the pass.
    fn create_with<R: Wait>(
        &self,
        rt: &R,
        alloc: Global,
        pass: &mut HallPass<D>,
        name: Text,
        uri: Text,
        id: Option<Id>,
    ) -> Said
        requires ready { IsHallPass D.Disk self.now pass.old.lists }
        ensures serves { ServesCall D.Disk self.now (Call.Create name uri id)
            pass.old result pass.new }
        ensures printable { IsPrintableSaid result }
        ensures ready { IsHallPass D.Disk self.now pass.new.lists }
    {
        let id = match id {
            Some(id) => id,
            None => pass.next_id(),
        };
        self.create(rt, alloc, pass, name, uri, id)
    }

    // What is said to a call.
    fn serve<R: Wait>(&self, rt: &R, alloc: Global, pass: &mut HallPass<D>, call: Call) -> Said
        requires ready { IsHallPass D.Disk self.now pass.old.lists }
        ensures serves { ServesCall D.Disk self.now call pass.old result pass.new }
        ensures printable { IsPrintableSaid result }
        ensures ready { IsHallPass D.Disk self.now pass.new.lists }
    {
        match call {
            Call::Ping => say(alloc, Answer::Pong),
            Call::List => self.list(rt, alloc, pass),
            Call::Source { name } => self.source(rt, alloc, pass, name),
            Call::SourceById { id } => self.source_by_id(rt, alloc, pass, id),
            Call::SourceByUri { uri } => self.source_by_uri(rt, alloc, pass, uri),
            Call::Log { name } => self.ask_slot(rt, alloc, pass, name, SlotCall::Describe),
            Call::Version { name } => self.ask_slot(rt, alloc, pass, name, SlotCall::Version),
            Call::Remove { name } => self.remove(rt, alloc, pass, name),
            Call::Create { name, uri, id } => self.create_with(rt, alloc, pass, name, uri, id),
            Call::Rename { name, new_name } => self.rename(rt, alloc, pass, name, new_name),
            Call::Append { name, patch } => {
                self.ask_slot(rt, alloc, pass, name, SlotCall::Append(patch))
            }
            Call::AppendRun { name, patches } => {
                self.ask_slot(rt, alloc, pass, name, SlotCall::AppendRun(patches))
            }
            Call::FetchVersion { name, version } => {
                self.ask_slot(rt, alloc, pass, name, SlotCall::FetchVersion(version))
            }
            Call::FetchId { name, id } => {
                self.ask_slot(rt, alloc, pass, name, SlotCall::FetchId(id))
            }
        }
    }
}

impl<D: Disk> Answerer for Hall<D> {
    ghost use Rattle.delta_session.specs.Answered.{Answered};
    ghost use Rattle.delta_session.specs.Halls.{IsHallPass};

    type State = HallPass<D>;

    ghost ready = { λ hall pass. IsHallPass D.Disk hall pass.lists };

    ghost answers = { λ hall before request said after.
        Answered D.Disk hall before request said after };

    fn answer<R: Wait>(
        &self,
        rt: &R,
        alloc: Global,
        state: &mut HallPass<D>,
        request: RawRequest,
    ) -> Said {
        match read_call(alloc, request) {
            Ok(call) => self.serve(rt, alloc, state, call),
            Err(fault) => refuse(alloc, fault),
        }
    }
}
