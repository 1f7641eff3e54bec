//! A zone that nobody shares, as a replica of a log.
ghost use Rattle.std.specs.Prelude.{◌≡◌, length};
ghost use Rattle.follower.specs.Replicas.{ShowsOwn, TakesOwn};

use crate::ends::TextRefusal;
use crate::taking::take_text;
use crate::zones::Follower;
use catch_up::{Replica, Standing};
use std::alloc::Global;
use std::marker::PhantomData;

/// Such zones. The state is the zone itself.
#[derive(Drop)]
pub(crate) struct OwnZone<Z> {
    of: PhantomData<Z>,
}

impl<Z> OwnZone<Z> {
    pub(crate) fn new() -> OwnZone<Z> {
        OwnZone { of: PhantomData }
    }
}

impl<Z: Follower> Replica for OwnZone<Z> {
    type State = Z;

    type Refusal = TextRefusal;

    ghost ready = { λ _ zone. Unit {0} };

    ghost goes_on = { λ _ zone from. from ≡ length (Z.zone zone).brief.ids };

    ghost shows = { λ _ old version head new. ShowsOwn (Z.zone old) version head (Z.zone new) };

    ghost takes = { λ _ old version text result new.
        TakesOwn Z.footing (Z.zone old) version text result (Z.zone new) };

    fn standing(&self, zone: &mut Z) -> Standing {
        Standing {
            version: zone.version(),
            head: zone.head(),
        }
    }

    fn take(
        &self,
        alloc: Global,
        zone: &mut Z,
        text: &[u8],
        version: u32,
    ) -> Result<u32, TextRefusal> {
        match take_text(alloc, zone, text, version) {
            Ok(()) => Ok(version),
            Err(refusal) => Err(refusal),
        }
    }
}
