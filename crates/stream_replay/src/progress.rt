//! Rows that become patches, and patches that are applied.
ghost use Rattle.std.specs.Prelude.{◌≡◌, ◌+◌, ◌-◌, ◌<◌, ◌≤◌, ◌^◌, ◌++◌};
ghost use Rattle.std.specs.Prelude.{◌∷◌, ◌||◌, ℕ, nat_lt, is_some, None, true, List, []};
ghost use Rattle.std.specs.Prelude.{IfOk, IfErr, OnOk};
ghost use Rattle.log_base.specs.declared.limits.TheConstants.{PATCH_LIMIT};
ghost use Rattle.patch_meaning.specs.declared.role.Role.TheVariants as roles;
ghost use Rattle.patch_meaning.specs.Cutting.{changes_left, meanings_of};
ghost use Rattle.patch_meaning.specs.PartRead.{IsToldAt};
ghost use Rattle.patch_meaning.specs.Patch.{Meaning};
ghost use Rattle.patch_meaning.specs.Replay.{replay};
ghost use Rattle.patch_rows.specs.declared.cut.TextEnd.{TextEnd};
ghost use Rattle.patch_rows.specs.declared.cut.TextEnd.TheVariants as ends;
ghost use Rattle.rdf_terms.specs.declared.change.Change.{Change};
ghost use Rattle.rdf_terms.specs.Line.{line};
ghost use Rattle.rdf_terms.specs.Quad.{Statement};
ghost use Rattle.row_scan.specs.Found.{change_by};
ghost use Rattle.stream_replay.specs.Edits.{GrowsBy, MakesLines};
ghost use Rattle.stream_replay.specs.Replaying.{AreReplayed, EndsChain, IsReplay};

use crate::edits::Edits;
use crate::fault::ReplayFault;
use crate::replay::{Replay, Replayed};
use delta_base::OutOfMemory;
use log_base::ChainLink;
use patch_meaning::{Part, PatchFault, Role};
use std::alloc::Global;

/// The open patch, the ids of those before it, and what the changes of all of them do. Behind a
/// fault of the chain nobody asks for that, and nothing of it is held.
#[derive(Drop)]
pub struct StreamProgress {
    pub part: Part,
    edits: Edits,
    replay: Replay,
}

impl StreamProgress {
    ghost use Rattle.stream_replay.specs.Streaming.{AwaitsRow, GoesByDataset, HasStreamed};
    ghost use Rattle.stream_replay.specs.Streaming.{HoldsEdits, HoldsMore, IsRefusedStream};
    ghost use Rattle.stream_replay.specs.Streaming.{IsShortBehind, edits_said};

    /// No row so far.
    pub fn new(alloc: Global) -> StreamProgress
        ensures streamed { HasStreamed ends.Open [] 0 result }
        ensures version { result.replay.chain.version ≡ 0 }
    {
        StreamProgress {
            part: Part::new(0),
            edits: Edits::new(alloc),
            replay: Replay::new(alloc),
        }
    }

    /// Takes what the next row says, which stands at a place.
    pub fn take(&mut self, alloc: Global, says: &Role, at: u64) -> Result<(), PatchFault>
        requires room { self.old.replay.chain.version < 2 ^ 32 - 1 }
        ensures ok { OnOk result ((end : TextEnd) (text : List ℕ) (stop : ℕ)
            → AwaitsRow end text self.old says.now at stop → HasStreamed end text stop self.new) }
        ensures version { OnOk result (self.new.replay.chain.version
            ≤ self.old.replay.chain.version + 1) }
        ensures fault { IfErr result (λ fault. (end : TextEnd) (text : List ℕ) (stop : ℕ)
            → AwaitsRow end text self.old says.now at stop → IsRefusedStream end text fault) }
        ensures told { IfErr result (IsToldAt at) }
    {
        match self.part.take_next(says, at) {
            Ok(done) => {
                self.complete(alloc, done)?;
                self.hold(alloc, says, at)?;
                Ok(())
            }
            Err(fault) => Err(fault),
        }
    }

    /// Takes the next row, which adds or deletes the quad of a line. It is not held in a patch that
    /// is too long, where it begins behind the limit, nor behind a fault of the chain.
    #[inline]
    pub fn take_quad(&mut self, adds: bool, bytes: &[u8], at: u64) -> Result<(), OutOfMemory>
        ensures ok { OnOk result ((end : TextEnd) (text : List ℕ) (stop : ℕ) (quad : Statement)
            → bytes.now ≡ line quad
            → AwaitsRow end text self.old (roles.Change (change_by adds quad)) at stop
            → HasStreamed end text stop self.new) }
        ensures beyond { nat_lt (self.old.part.from + PATCH_LIMIT) at ≡ true
            → self.new.edits ≡ self.old.edits }
        ensures broken { is_some self.old.replay.fault ≡ true
            → self.new.edits ≡ self.old.edits }
        ensures replay { self.new.replay ≡ self.old.replay }
    {
        self.part.take_quad();
        if self.needs_none(at) {
            return Ok(());
        }
        self.edits.put(adds, bytes)
    }

    // Whether nobody needs the change of a row that begins at a place: its patch is too long, or
    // the chain has a fault.
    #[inline]
    fn needs_none(&self, at: u64) -> bool
        ensures { result ≡ (nat_lt (self.now.part.from + PATCH_LIMIT) at
            || is_some self.now.replay.fault) }
    {
        self.part.is_behind_limit(at) || self.replay.is_broken()
    }

    // Takes the patch that is complete, if there is one. With a fault of the chain all edits go.
    fn complete(&mut self, alloc: Global, done: Option<ChainLink>) -> Result<(), OutOfMemory>
        requires room { self.old.replay.chain.version < 2 ^ 32 - 1 }
        ensures replay { OnOk result ((ms : List Meaning) (changes : List Change)
            → IsReplay ms self.old.replay
            → IsReplay (ms ++ meanings_of done changes) self.new.replay) }
        ensures edits { OnOk result ((ms : List Meaning) (changes : List Change)
            → HoldsEdits self.old.replay.fault ms changes self.old.edits
            → HoldsEdits self.new.replay.fault (ms ++ meanings_of done changes)
            (changes_left done changes) self.new.edits) }
        ensures short { OnOk result ((ms : List Meaning) (changes : List Change)
            → HoldsEdits self.old.replay.fault ms changes self.old.edits
            → GoesByDataset ms self.old.edits
            → IsShortBehind done (ms ++ meanings_of done changes) self.old.edits self.new.edits) }
        ensures version { OnOk result (self.new.replay.chain.version
            ≤ self.old.replay.chain.version + 1) }
        ensures part { self.new.part ≡ self.old.part }
    {
        let Some(link) = done else {
            return Ok(());
        };
        self.replay.take(link)?;
        if self.replay.is_broken() {
            self.edits = Edits::new(alloc);
            return Ok(());
        }
        self.edits.complete()
    }

    // Holds what the change of the row at a place does, where anybody needs it.
    fn hold(&mut self, alloc: Global, says: &Role, at: u64) -> Result<(), OutOfMemory>
        ensures edits { OnOk result ((ms : List Meaning) (changes : List Change)
            → HoldsEdits self.old.replay.fault ms changes self.old.edits
            → HoldsMore self.old.replay.fault self.old.part ms changes says.now at
            self.new.edits) }
        ensures grows { OnOk result (GrowsBy (edits_said says.now) self.old.edits self.new.edits) }
        ensures beyond { nat_lt (self.old.part.from + PATCH_LIMIT) at ≡ true
            → self.new.edits ≡ self.old.edits }
        ensures broken { is_some self.old.replay.fault ≡ true
            → self.new.edits ≡ self.old.edits }
        ensures part { self.new.part ≡ self.old.part }
        ensures replay { self.new.replay ≡ self.old.replay }
    {
        match says {
            Role::Change(change) => {
                if self.needs_none(at) {
                    return Ok(());
                }
                self.edits.take(alloc, change)
            }
            _ => Ok(()),
        }
    }

    /// The replay with the last patch, if there is one.
    pub fn finish(self, done: Option<ChainLink>) -> Result<Replayed, ReplayFault>
        requires room { self.replay.chain.version < 2 ^ 32 - 1 }
        ensures ok { IfOk result (λ replayed. (ms : List Meaning) (changes : List Change)
            → IsReplay ms self.replay
            → (self.replay.fault ≡ None
            → MakesLines self.edits.log (replay (ms ++ meanings_of done changes)))
            → AreReplayed (ms ++ meanings_of done changes) replayed) }
        ensures fault { IfErr result (λ fault. (ms : List Meaning) (changes : List Change)
            → IsReplay ms self.replay → EndsChain (ms ++ meanings_of done changes) fault) }
    {
        let StreamProgress {
            edits,
            replay: mut before,
            ..
        } = self;
        if let Some(link) = done {
            before.take(link)?;
        }
        before.finish(edits)
    }
}
