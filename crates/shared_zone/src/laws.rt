//! A law of shared zones. This function does nothing: its contract is a theorem.
ghost use Rattle.shared_zone.specs.Moments.{ZonesAreClosedAtEachMoment};

use disk_model::Disk;

/// A zone and its passes are at any moment as `close` would tell.
pub fn zones_are_closed_at_each_moment<D: Disk>()
    ensures { ZonesAreClosedAtEachMoment D.Disk }
{}
