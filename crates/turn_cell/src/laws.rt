//! Laws of a turn. These functions do nothing: their contracts are theorems.
ghost use Rattle.turn_cell.specs.Moments.{TurnsStandAtEachMoment};

use crate::chained::Chained;

/// What `close` tells of the value and of the passes holds at any moment.
pub fn turns_stand_at_each_moment<V: Chained>()
    ensures { TurnsStandAtEachMoment V.entries V.fault_count V.doubt V.fixed V.fits }
{}
