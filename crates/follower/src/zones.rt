//! Zones that take the patches of a log, on whatever files they stand.
ghost use Rattle.std.specs.Prelude.{◌≡◌, length};
ghost use Rattle.chain_core.specs.Ids.{last_of};
ghost use Rattle.zone_state.specs.Zone.{ZoneView};
ghost use Rattle.follower.specs.Footing.{Footing, DisksOf, Point, ZoneStands};
ghost use Rattle.follower.specs.Footing.{one_file, two_files, on_pair};
ghost use Rattle.follower.specs.Taking.{TakesNext};

use delta_base::Id;
use disk_model::Disk;
use paired_zone::PairedZone;
use patch_meaning::Checked;
use zone_state::{TakeAnswer, Zone};

/// A zone that takes patches one after another.
pub trait Follower {
    /// On which files it stands.
    ghost footing: { Footing };

    /// What it keeps, and its disks.
    ghost zone: { Self → ZoneView (DisksOf footing) };

    /// How many patches it took.
    fn version(&self) -> u32
        ensures version { result ≡ length (zone self.now).brief.ids }
        ensures stands { (point : Point footing) × ZoneStands footing (zone self.now) point };

    /// The id of the last one.
    fn head(&self) -> Option<Id>
        ensures { result ≡ last_of (zone self.now).brief.ids };

    /// Takes the next patch, or says why not.
    fn take_next(&mut self, patch: &Checked) -> TakeAnswer
        ensures { TakesNext footing (zone self.old) (zone self.new) patch.now result };
}

impl<D: Disk> Follower for Zone<D> {
    ghost footing = { one_file D.Disk };

    ghost zone = { λ zone. zone };

    fn version(&self) -> u32 {
        Zone::version(self)
    }

    fn head(&self) -> Option<Id> {
        Zone::head(self)
    }

    fn take_next(&mut self, patch: &Checked) -> TakeAnswer {
        Zone::take_next(self, patch)
    }
}

impl<D: Disk> Follower for PairedZone<D> {
    ghost footing = { two_files D.Disk };

    ghost zone = { on_pair };

    fn version(&self) -> u32 {
        PairedZone::version(self)
    }

    fn head(&self) -> Option<Id> {
        PairedZone::head(self)
    }

    fn take_next(&mut self, patch: &Checked) -> TakeAnswer {
        PairedZone::take_next(self, patch)
    }
}
