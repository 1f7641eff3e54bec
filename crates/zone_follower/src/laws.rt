//! What following a log makes of a shared zone. These functions do nothing: their contracts are
//! theorems.
ghost use Rattle.zone_follower.specs.Bringing.{FollowingsBringWhatTheyRead};
ghost use Rattle.zone_follower.specs.Causes.{FollowingsHaveCauses};

use disk_model::Disk;

/// Each end has its cause in what was said and in what the pass then knows of the zone.
pub fn followings_have_causes<D: Disk>()
    ensures { (origin : _) → FollowingsHaveCauses D.Disk origin }
{}

/// What the zone takes is as the pass had seen it, followed by patches whose texts it read and by
/// those that other passes brought.
pub fn followings_bring_what_they_read<D: Disk>()
    ensures { (origin : _) → FollowingsBringWhatTheyRead D.Disk origin }
{}
