//! A zone as the value of a turn.
ghost use Rattle.std.specs.Prelude.{◌≡◌, ◌<◌, ◌+◌, ◌^◌, [], length, map, IfOk};
ghost use Rattle.std.specs.List.{filter};
ghost use Rattle.rdf_terms.specs.Line.{line};
ghost use Rattle.dataset_tx.specs.Pattern.{matches};
ghost use Rattle.chain_core.specs.Ids.{last_of};
ghost use Rattle.shared_zone.specs.History.{ZoneStandsInTurn, brief_known};
ghost use Rattle.shared_zone.specs.Stays.{DoesOnZone};

use crate::answers::{Shown, Stayed};
use crate::fixed::ZoneFixed;
use crate::past::TakenSince;
use crate::was::Was;
use chain_core::Patch;
use dataset_tx::Pattern;
use delta_base::OutOfMemory;
use disk_model::Disk;
use line_log::MadeLines;
use log_base::LogInfo;
use paired_zone::PairedZone;
use patch_meaning::Checked;
use quad_index::Steps;
use std::marker::{Brand, Model};
use std::sync::ledger::{Blank, Ledger};
use turn_cell::Chained;

/// A zone that lies in a turn. What was taken since it was shared is known to proofs alone, so the
/// turn keeps no text and no id twice.
#[derive(Drop)]
pub struct ZoneValue<D: Disk> {
    zone: PairedZone<D>,
    /// How many patches it had taken when it was shared.
    opened: u32,
    /// The zone as it was then.
    base: Was<PairedZone<D>>,
    past: TakenSince,
}

impl<D: Disk> Model for ZoneValue<D> {
    ghost use Rattle.std.specs.Prelude.{◌≡◌, length};
    ghost use Rattle.shared_zone.specs.History.{SharedZone, ZoneStandsInTurn};

    ghost Value = { SharedZone D };

    ghost view = { λ v. record {
      zone = v.zone;
      base = v.base.value.brief;
      history = v.past.history;
    } };

    ghost invariant = { λ v. (v.opened ≡ length v.base.value.brief.ids)
        × ZoneStandsInTurn D.Disk (record {
          zone = v.zone;
          base = v.base.value.brief;
          history = v.past.history;
        }) };
}

// The lines of the quads that match. The steps are counted for nobody.
fn matching<D: Disk, L: Ledger>(
    zone: &mut PairedZone<D>,
    pattern: &Pattern,
    blank: Blank,
) -> Result<MadeLines, OutOfMemory>
    requires name { blank.name ≡ L.name }
    requires parts { blank.parts ≡ L.parts }
    requires some { 0 < L.parts }
    ensures found { IfOk result (λ lines.
        lines ≡ map line (filter (matches pattern.now) zone.old.brief.contents.quads)) }
    ensures same { zone.new ≡ zone.old }
{
    let mut steps = Steps::<L>::new(blank);
    zone.matching_lines(pattern, &mut steps)
}

impl<D: Disk> ZoneValue<D> {
    /// A zone of which nothing was taken yet.
    pub fn of(zone: PairedZone<D>) -> ZoneValue<D>
        ensures zone { result.zone ≡ zone }
        ensures base { result.base ≡ zone.brief }
        ensures history { result.history ≡ [] }
        ensures stands { ZoneStandsInTurn D.Disk result }
    {
        let opened = zone.version();
        let base = Was::of(&zone);
        ZoneValue {
            zone,
            opened,
            base,
            past: TakenSince::nothing(),
        }
    }

    pub fn into_zone(self) -> PairedZone<D>
        ensures same { result ≡ self.zone }
        ensures stands { ZoneStandsInTurn D.Disk self }
    {
        let ZoneValue { zone, .. } = self;
        zone
    }

    /// How many patches the zone has taken, and the id of the last one.
    pub(crate) fn describe(&self) -> LogInfo
        ensures version { result.version ≡ length self.now.base.ids + length self.now.history }
        ensures head { result.head ≡ last_of (brief_known self.now.base self.now.history).ids }
    {
        LogInfo {
            version: self.zone.version(),
            head: self.zone.head(),
        }
    }

    /// The lines of the quads that match, and how many patches they come of.
    pub(crate) fn read(&mut self, pattern: &Pattern) -> Result<Shown, OutOfMemory>
        ensures version { IfOk result (λ shown.
            shown.version ≡ length self.old.base.ids + length self.old.history) }
        ensures lines { IfOk result (λ shown.
            shown.lines ≡ map line (filter (matches pattern.now)
            (brief_known self.old.base self.old.history).contents.quads)) }
        ensures same { self.new ≡ self.old }
    {
        let version = self.zone.version();
        let lines = matching::<D, Brand>(&mut self.zone, pattern, Blank::new(1))?;
        Ok(Shown { version, lines })
    }

    /// Has the zone take a patch as that of a version, unless it has that version.
    pub(crate) fn take(&mut self, patch: &Checked, version: u32, by: u32) -> Stayed
        ensures does { DoesOnZone D.Disk by patch.now version result self.old self.new }
        ensures few { length self.new.base.ids + length self.new.history < 2 ^ 32 }
    {
        let had = self.zone.version();
        if version <= had {
            return Stayed::Ahead { found: had };
        }
        let answer = self.zone.take_next(patch);
        self.past.follow(answer, patch, by);
        let _version = self.zone.version();
        Stayed::Asked { had, answer }
    }
}

impl<D: Disk> Chained for ZoneValue<D> {
    ghost use Rattle.shared_log.specs.Apart.{patches_apart};
    ghost use Rattle.zone_state.specs.Zone.{doubt_of};
    ghost use Rattle.shared_zone.specs.History.{FitsZone, ZoneStandsInTurn};
    ghost use Rattle.shared_zone.specs.History.{zone_faults, zone_fixed_of};

    /// A patch that was taken.
    type Content = Checked;

    /// The patch whose gate may stand open, as it stands on the disk.
    type Doubt = Patch;

    type Fixed = ZoneFixed;

    ghost entries = { λ v. v.history };

    ghost fault_count = { λ v. zone_faults D.Disk v.zone };

    ghost doubt = { λ v. doubt_of v.zone.doubt };

    ghost fixed = { λ v. zone_fixed_of D.mark v };

    ghost fits = { FitsZone };

    ghost stands = { λ v. ZoneStandsInTurn D.Disk v };

    ghost tells_apart = { patches_apart };

    fn count(&self) -> u64 {
        u64::from(self.zone.version() - self.opened)
    }

    fn faults(&self) -> u64 {
        self.zone.faults()
    }

    fn standing(&self) {
        let _zone = &self.zone;
    }
}
