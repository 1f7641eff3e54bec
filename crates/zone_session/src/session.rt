//! One connection of a zone's server.
ghost use Rattle.std.specs.Prelude.{◌≡◌, List, true};
ghost use Rattle.std.specs.List.{list_all};
ghost use Rattle.http_session.specs.Output.{AnswerChain, Exchange};
ghost use Rattle.http_session.specs.Talks.{moment_of};
ghost use Rattle.http_text.specs.Print.{is_visible};
ghost use Rattle.turn_cell.specs.Knowing.{pass_number};
ghost use Rattle.turn_cell.specs.Sharing.{IsPassOf};
ghost use Rattle.shared_zone.specs.History.{shared_zone};
ghost use Rattle.zone_session.specs.Answered.{ZoneAnswered};
ghost use Rattle.zone_session.specs.Sessions.{IsZoneSession, ServedZone};

use crate::answering::Answering;
use crate::laws::sessions_are_served;
use delta_base::{Link, Text};
use delta_client::Dial;
use disk_model::Disk;
use gate_crews::Seat;
use http_session::converse;
use http_text::SessionEnd;
use shared_zone::{ZoneHall, ZonePass};
use std::alloc::Global;
use std::marker::PhantomData;
use std::sync::Wait;

/// Answers the requests of one connection in their order, until it ends. The zone catches up with
/// the log of that name at the address.
pub fn serve_zone_session<R: Wait, L: Link, N: Dial, D: Disk>(
    rt: &R,
    alloc: Global,
    hall: &ZoneHall<D>,
    seat: &mut Seat<ZonePass<D>, N>,
    address: &Text,
    name: &Text,
    link: &mut L,
) -> SessionEnd
    requires visible { list_all is_visible address.now ≡ true }
    requires ready { IsPassOf (shared_zone D.Disk) hall.now seat.old.pass }

    // What was read, what was written of it, and why it ended.
    ensures session { IsZoneSession D.Disk N.Dial N.L.left N.L.sent hall.now.origin address.now
        name.now (moment_of seat.old (L.left link.old) (L.sent link.old) (L.faults link.old))
        (moment_of seat.new (L.left link.new) (L.sent link.new) (L.faults link.new)) result }

    // The pass knows all that it knew, its faults and those of its net rose by what was told, and
    // it brought no patch but those that it read.
    ensures served { (exchanges : List Exchange)
        → AnswerChain (ZoneAnswered D.Disk N.Dial N.L.left N.L.sent hall.now.origin address.now
        name.now) seat.old exchanges seat.new
        → ServedZone D.Disk N.Dial N.L.left N.L.sent hall.now.origin address.now name.now seat.old
        exchanges seat.new }
    ensures number { pass_number seat.new.pass ≡ pass_number seat.old.pass }
    ensures ready { IsPassOf (shared_zone D.Disk) hall.now seat.new.pass }
{
    sessions_are_served::<N, D>();
    let answering = Answering {
        hall,
        address,
        name,
        net: PhantomData,
    };
    converse(rt, alloc, &answering, seat, link)
}
