//! One connection of a mirror's server.
ghost use Rattle.std.specs.Prelude.{◌≡◌, List, true};
ghost use Rattle.std.specs.List.{list_all};
ghost use Rattle.http_session.specs.Output.{AnswerChain, Exchange};
ghost use Rattle.http_session.specs.Talks.{moment_of};
ghost use Rattle.http_text.specs.Print.{is_visible};
ghost use Rattle.turn_cell.specs.Knowing.{pass_number};
ghost use Rattle.turn_cell.specs.Sharing.{IsPassOf};
ghost use Rattle.shared_log.specs.History.{shared_log};
ghost use Rattle.mirror_session.specs.Answered.{MirrorAnswered};
ghost use Rattle.mirror_session.specs.Sessions.{IsMirrorSession, ServedMirror};

use crate::answering::Answering;
use crate::laws::sessions_are_served;
use delta_base::{Link, Text};
use delta_client::Dial;
use disk_model::Disk;
use gate_crews::Seat;
use http_session::converse;
use http_text::SessionEnd;
use shared_log::{LogPass, SharedLog};
use std::alloc::Global;
use std::marker::PhantomData;
use std::sync::Wait;

/// Answers the requests of one connection in their order, until it ends. The log has that name, and
/// catches up with the one of that name at the address.
pub fn serve_mirror_session<R: Wait, L: Link, N: Dial, D: Disk>(
    rt: &R,
    alloc: Global,
    log: &SharedLog<D>,
    seat: &mut Seat<LogPass<D>, N>,
    address: &Text,
    name: &Text,
    link: &mut L,
) -> SessionEnd
    requires visible { list_all is_visible address.now ≡ true }
    requires ready { IsPassOf (shared_log D.Disk) log.now seat.old.pass }

    // What was read, what was written of it, and why it ended.
    ensures session { IsMirrorSession D.Disk N.Dial N.L.left N.L.sent log.now.origin address.now
        name.now (moment_of seat.old (L.left link.old) (L.sent link.old) (L.faults link.old))
        (moment_of seat.new (L.left link.new) (L.sent link.new) (L.faults link.new)) result }

    // The pass asked, and took what its peer said; its faults and those of its net rose by what was
    // told.
    ensures served { (exchanges : List Exchange)
        → AnswerChain (MirrorAnswered D.Disk N.Dial N.L.left N.L.sent log.now.origin address.now
        name.now) seat.old exchanges seat.new
        → ServedMirror D.Disk N.Dial N.L.left N.L.sent log.now.origin address.now name.now seat.old
        exchanges seat.new }
    ensures number { pass_number seat.new.pass ≡ pass_number seat.old.pass }
    ensures ready { IsPassOf (shared_log D.Disk) log.now seat.new.pass }
{
    sessions_are_served::<N, D>();
    let answering = Answering {
        log,
        address,
        name,
        net: PhantomData,
    };
    converse(rt, alloc, &answering, seat, link)
}
