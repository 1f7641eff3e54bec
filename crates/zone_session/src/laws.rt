//! Laws of a zone's answers. This function does nothing but call another one like it: its contract
//! is a theorem.
ghost use Rattle.zone_session.specs.Laws.{SessionsAreServed};

use delta_client::Dial;
use disk_model::Disk;
use zone_follower::followings_bring_what_they_read;

/// Answers one after another are calls of one pass over one net, which add up.
pub fn sessions_are_served<N: Dial, D: Disk>()
    ensures { SessionsAreServed D.Disk N.Dial N.L.left N.L.sent }
{
    followings_bring_what_they_read::<D>();
}
