//! What pulls make of a log's list. These functions do nothing: their contracts are theorems.
ghost use Rattle.mirror.specs.Calling.{PullsAreCalls};
ghost use Rattle.mirror.specs.Following.{MirrorsBeginTheirOrigin, PullsBringWhatTheyRead};

use disk_model::Disk;

/// A pull is calls of its pass. Each asks what the log has, or appends a patch whose text it read.
pub fn pulls_are_calls<D: Disk>()
    ensures { (origin : _) → PullsAreCalls D.Disk origin }
{}

/// A pull leaves the list as the pass had seen it, followed by patches whose texts it read and by
/// those that other passes brought.
pub fn pulls_bring_what_they_read<D: Disk>()
    ensures { (origin : _) → PullsBringWhatTheyRead D.Disk origin }
{}

/// A log whose passes only ask and pull, and read no text but those of the origin's patches,
/// begins the origin's chain. So does whatever a crash leaves of it between calls.
pub fn mirrors_begin_their_origin<D: Disk>()
    ensures { MirrorsBeginTheirOrigin D.Disk }
{}
