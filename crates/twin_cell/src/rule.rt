//! The rule of a twin's cell.
use crate::parts::{Backed, Kept, Listed};
use atomic_table::TableRule;
use std::marker::PhantomData;
use std::snapshot::Snapshot;
use turn_cell::View;

/// What a cell was made of, and for how many passes.
#[derive(Drop)]
pub struct Making<W, R> {
    pub work: Snapshot<W>,
    pub list: Snapshot<R>,
    pub seats: u32,
}

pub struct TwinRule<W, R> {
    of: PhantomData<(W, R)>,
}

impl<W: Backed<R>, R: Listed> TableRule<
    Kept<W, R>,
    View<R::Content, W::Doubt, W::Fixed>,
    Making<W, R>,
> for TwinRule<W, R> {
    ghost use Rattle.turn_cell.specs.Turns.{first_seat};
    ghost use Rattle.twin_cell.specs.Twins.{HoldsTwinRule};

    ghost holds = { λ made.
        HoldsTwinRule W.stands W.fault_count W.doubt W.fixed R.entries R.spare R.fits
        made.work.value made.list.value made.seats };

    ghost first = { λ made. first_seat (R.entries made.list.value) (W.fixed made.work.value) };
}
