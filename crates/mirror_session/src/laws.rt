//! Laws of a mirror's answers. This function does nothing but call others like it: its contract is
//! a theorem.
ghost use Rattle.mirror_session.specs.Laws.{SessionsAreServed};

use delta_client::Dial;
use disk_model::Disk;
use mirror::pulls_are_calls;
use shared_log::{calls_add_up, calls_compose};

/// Answers one after another are calls of one pass over one net, which add up.
pub fn sessions_are_served<N: Dial, D: Disk>()
    ensures { SessionsAreServed D.Disk N.Dial N.L.left N.L.sent }
{
    calls_compose::<D>();
    calls_add_up::<D>();
    pulls_are_calls::<D>();
}
