//! Laws of calls on a log. These functions do nothing: their contracts are theorems.
ghost use Rattle.shared_log.specs.Laws.{ToldIsOnDisk, StaysInSight, EachIsMade};
ghost use Rattle.shared_log.specs.Laws.{CallsCompose, CallsAddUp};
ghost use Rattle.shared_log.specs.Moments.{LogsAreClosedAtEachMoment};

use disk_model::Disk;

/// What a pass is told was accepted, and what it is served, is on the disk.
pub fn told_is_on_disk<D: Disk>()
    ensures { (origin : _) (p q : _) → ToldIsOnDisk D.Disk origin p q }
{}

/// What is on the disk stays where it is in all that a pass sees later.
pub fn stays_in_sight<D: Disk>()
    ensures { (origin : _) (q later : _) → StaysInSight D.Disk origin q later }
{}

/// What one call brings and leaves in doubt.
pub fn calls_are_made<D: Disk>()
    ensures { (origin : _) (p : _) (call : _) (q : _) → EachIsMade D.Disk origin p call q }
{}

/// Calls of a pass on one log compose.
pub fn calls_compose<D: Disk>()
    ensures { (origin : _) → CallsCompose D.Disk origin }
{}

/// What many calls of a pass on one log come to together.
pub fn calls_add_up<D: Disk>()
    ensures { (origin : _) → CallsAddUp D.Disk origin }
{}

/// A log and its passes are at any moment as `close` would tell.
pub fn logs_are_closed_at_each_moment<D: Disk>()
    ensures { LogsAreClosedAtEachMoment D.Disk }
{}
