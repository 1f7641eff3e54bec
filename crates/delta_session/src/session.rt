//! One connection of a server.
ghost use Rattle.std.specs.Prelude.{◌≡◌, List};
ghost use Rattle.http_session.specs.Output.{AnswerChain, Exchange};
ghost use Rattle.http_session.specs.Talks.{moment_of};
ghost use Rattle.turn_cell.specs.Knowing.{pass_number};
ghost use Rattle.delta_session.specs.Answered.{Answered};
ghost use Rattle.delta_session.specs.Halls.{IsHallPass};
ghost use Rattle.delta_session.specs.Sessions.{IsSession, ServedSession};

use crate::hall::Hall;
use crate::laws::sessions_are_served;
use crate::pass::HallPass;
use delta_base::Link;
use disk_model::Disk;
use http_session::converse;
use http_text::SessionEnd;
use std::alloc::Global;
use std::sync::Wait;

/// Answers the requests of one connection in their order, until it ends. Sources that are made
/// without an id take the ids of the numbers from `dice` on.
pub fn serve_session<R: Wait, L: Link, D: Disk>(
    rt: &R,
    alloc: Global,
    hall: &Hall<D>,
    pass: &mut HallPass<D>,
    link: &mut L,
    dice: u128,
) -> SessionEnd
    requires ready { IsHallPass D.Disk hall.now pass.old.lists }

    // What was read, what was written of it, and why it ended.
    ensures session { IsSession D.Disk hall.now
        (moment_of (record pass.old { dice = dice }) (L.left link.old) (L.sent link.old)
        (L.faults link.old))
        (moment_of pass.new (L.left link.new) (L.sent link.new) (L.faults link.new)) result }

    // The pass knows all that it knew, has looked for each call, and what is its own grew by these
    // calls alone. What was told of patches is on the disks of their logs.
    ensures served { (exchanges : List Exchange)
        → AnswerChain (Answered D.Disk hall.now) (record pass.old { dice = dice })
        exchanges pass.new
        → ServedSession D.Disk hall.now (record pass.old { dice = dice }) exchanges pass.new }
    ensures number { pass_number pass.new.lists.registry ≡ pass_number pass.old.lists.registry }
    ensures ready { IsHallPass D.Disk hall.now pass.new.lists }
{
    sessions_are_served::<D>();
    pass.dice = dice;
    converse(rt, alloc, hall, pass, link)
}
