//! A zone that threads share.
ghost use Rattle.std.specs.Prelude.{◌≡◌, ◌<◌, ◌≤◌, ℕ, ◌+◌, [], Some, IfOk, IfErr, OnErr};
ghost use Rattle.std.specs.Prelude.{slice_get, vec_len, vec_capacity};
ghost use Rattle.turn_cell.specs.Knowing.{Wants};
ghost use Rattle.turn_cell.specs.Sharing.{IsPassOf, IsNewPassOf, AreAllPassesOf, IsClosedOf};
ghost use Rattle.turn_cell.specs.Sharing.{FoundInTurn};
ghost use Rattle.shared_zone.specs.History.{SharedZone, ZoneStandsInTurn, shared_zone};
ghost use Rattle.shared_zone.specs.Legal.{LegalRead, LegalDescribe, LegalVersion, LegalStay};
ghost use Rattle.shared_zone.specs.Stays.{TakesInTurn, reaches_disks};

use crate::answers::{Shown, Stayed};
use crate::value::ZoneValue;
use dataset_tx::Pattern;
use delta_base::{Back, OutOfMemory};
use disk_model::Disk;
use log_base::LogInfo;
use paired_zone::PairedZone;
use patch_meaning::Checked;
use std::alloc::Global;
use std::marker::Model;
use std::sync::Wait;
use turn_cell::{Pass, Turn};
use zone_state::TakeAnswer;

/// What a pass knows of one zone.
pub type ZonePass<D> = Pass<ZoneValue<D>>;

// Whether a stay that came to this reached a disk.
fn reaches(stayed: &Stayed) -> bool
    ensures { result ≡ reaches_disks stayed.now }
{
    matches!(
        stayed,
        Stayed::Asked {
            had: _,
            answer: TakeAnswer::Applied { .. } | TakeAnswer::DiskFault
        }
    )
}

/// A zone that threads read and have take patches, each with a pass of its own. A read has the turn
/// for as long as it looks for the quads that match; a patch, while the disks are asked.
#[derive(Drop)]
pub struct ZoneHall<D: Disk> {
    turn: Turn<ZoneValue<D>>,
    /// How many patches the zone had taken when it was shared.
    opened: u32,
}

impl<D: Disk> Model for ZoneHall<D> {
    ghost use Rattle.std.specs.Prelude.{◌≡◌, length};
    ghost use Rattle.turn_cell.specs.Sights.{Made};
    ghost use Rattle.shared_zone.specs.History.{SharedZone};

    ghost Value = { Made (SharedZone D) };

    ghost view = { λ h. h.turn };

    ghost invariant = { λ h. h.opened ≡ length h.turn.origin.base.ids };
}

impl<D: Disk> ZoneHall<D> {
    /// Shares a zone among passes, which have the numbers from 1 on.
    pub fn new(
        alloc: Global,
        zone: PairedZone<D>,
        seats: u32,
    ) -> Result<(ZoneHall<D>, Vec<ZonePass<D>>), Back<PairedZone<D>>>
        requires seats { (0 < seats) × (seats ≤ 16) }
        ensures zone { IfOk result (λ r. (r.0.origin.zone ≡ zone)
            × (r.0.origin.base ≡ zone.brief) × (r.0.origin.history ≡ []) × (r.0.seats ≡ seats)) }
        ensures stands { IfOk result (λ r. ZoneStandsInTurn D.Disk r.0.origin) }
        ensures passes { IfOk result (λ r.
            (vec_len r.1 ≡ seats) × (vec_capacity r.1 ≡ seats)) }
        ensures new { IfOk result (λ r. (k : ℕ) (p : _) → slice_get r.1.items k ≡ Some p
            → IsNewPassOf (shared_zone D.Disk) r.0 (k + 1) p) }
        ensures back { IfErr result (λ b. b.item ≡ zone) }
    {
        let opened = zone.version();
        match Turn::new(alloc, ZoneValue::of(zone), seats) {
            Ok((turn, passes)) => Ok((ZoneHall { turn, opened }, passes)),
            Err(Back { item }) => Err(Back {
                item: item.into_zone(),
            }),
        }
    }

    /// The lines of the quads that match, and how many patches they come of: all at one moment.
    pub fn read<R: Wait>(
        &self,
        rt: &R,
        pass: &mut ZonePass<D>,
        pattern: &Pattern,
    ) -> Result<Shown, OutOfMemory>
        requires of { IsPassOf (shared_zone D.Disk) self.now pass.old }
        ensures of { IsPassOf (shared_zone D.Disk) self.now pass.new }
        ensures legal { IfOk result (λ shown.
            LegalRead self.now.origin.base pattern.now pass.old shown pass.new) }
        ensures want { OnErr result (Wants pass.old pass.new) }
        ensures stay { FoundInTurn (shared_zone D.Disk) self.now.origin pass.old pass.new }
    {
        let mut held = self.turn.enter(rt, pass);
        let shown = held.value_mut().read(pattern);
        self.turn.give_back(pass, held, false);
        shown
    }

    /// How many patches the zone has taken, and the id of the last one.
    pub fn describe<R: Wait>(&self, rt: &R, pass: &mut ZonePass<D>) -> LogInfo
        requires of { IsPassOf (shared_zone D.Disk) self.now pass.old }
        ensures of { IsPassOf (shared_zone D.Disk) self.now pass.new }
        ensures legal { LegalDescribe self.now.origin.base pass.old result pass.new }
        ensures stay { FoundInTurn (shared_zone D.Disk) self.now.origin pass.old pass.new }
    {
        let held = self.turn.enter(rt, pass);
        let info = held.value().describe();
        self.turn.give_back(pass, held, false);
        info
    }

    /// How many patches the zone has taken. It waits for nobody.
    pub fn version(&self, pass: &mut ZonePass<D>) -> u32
        requires of { IsPassOf (shared_zone D.Disk) self.now pass.old }
        ensures of { IsPassOf (shared_zone D.Disk) self.now pass.new }
        ensures legal { LegalVersion self.now.origin.base pass.old result pass.new }
    {
        self.opened + self.turn.count(pass) as u32
    }

    /// Has the zone take a patch as that of a version, in one stay of the turn. Where the zone has
    /// that version already, it is left as it is.
    pub fn take<R: Wait>(
        &self,
        rt: &R,
        pass: &mut ZonePass<D>,
        patch: &Checked,
        version: u32,
    ) -> Stayed
        requires of { IsPassOf (shared_zone D.Disk) self.now pass.old }
        ensures of { IsPassOf (shared_zone D.Disk) self.now pass.new }
        ensures legal { LegalStay self.now.origin.base self.now.origin.zone.limits
            patch.now version pass.old result pass.new }
        ensures stay { TakesInTurn D.Disk self.now.origin patch.now version result
            pass.old pass.new }
    {
        let by = pass.number();
        let mut held = self.turn.enter(rt, pass);
        let stayed = held.value_mut().take(patch, version, by);
        self.turn.give_back(pass, held, reaches(&stayed));
        stayed
    }

    /// The zone, once all passes are back. The patches that it has taken since it was shared begin
    /// with what each pass knew, and have just its own at its places.
    pub fn close(self, passes: Vec<ZonePass<D>>) -> PairedZone<D>
        requires { AreAllPassesOf (shared_zone D.Disk) self passes.items }
        ensures closed { (shared : SharedZone D) × (result ≡ shared.zone)
            × IsClosedOf (shared_zone D.Disk) self passes.items shared }
    {
        let ZoneHall { turn, .. } = self;
        turn.close(passes).into_zone()
    }
}
