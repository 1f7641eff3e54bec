//! Laws of a twin. These functions do nothing: their contracts are theorems.
ghost use Rattle.twin_cell.specs.Moments.{TwinsStandAtEachMoment};

use crate::parts::{Backed, Listed};

/// What `close` tells of the work, of the list and of the passes holds at any moment.
pub fn twins_stand_at_each_moment<R: Listed, W: Backed<R>>()
    ensures { TwinsStandAtEachMoment W.stands W.fault_count W.doubt W.fixed R.entries R.spare
        R.fits }
{}
