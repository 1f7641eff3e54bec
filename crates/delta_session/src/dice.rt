//! Ids of sources that are made without one.
ghost use Rattle.std.specs.Prelude.{◌≡◌};
ghost use Rattle.delta_base.specs.Ids.{random_id};
ghost use Rattle.delta_session.specs.Asking.{next_dice};

use crate::pass::HallPass;
use delta_base::{Id, random_id};
use disk_model::Disk;

impl<D: Disk> HallPass<D> {
    // The next id.
    pub(crate) fn next_id(&mut self) -> Id
        ensures id { result ≡ random_id self.old.dice }
        ensures next { self.new ≡ record self.old { dice = next_dice self.old.dice } }
    {
        let dice = self.dice;
        self.dice = dice.wrapping_add(1);
        random_id(dice)
    }
}
