//! What each step tells its seat.
use crate::parts::{Backed, Kept, Listed};
use atomic_table::{Join, Play, Split};
use turn_cell::View;

pub(crate) struct Draw;

impl<W: Backed<R>, R: Listed> Play<Kept<W, R>, View<R::Content, W::Doubt, W::Fixed>> for Draw {
    ghost use Rattle.twin_cell.specs.Steps.{DrawsWork};

    ghost then = { DrawsWork };
}

pub(crate) struct DrawList;

impl<W: Backed<R>, R: Listed> Play<Kept<W, R>, View<R::Content, W::Doubt, W::Fixed>> for DrawList {
    ghost use Rattle.twin_cell.specs.Steps.{DrawsList};

    ghost then = { DrawsList };
}

pub(crate) struct Look;

impl<W: Backed<R>, R: Listed> Play<Kept<W, R>, View<R::Content, W::Doubt, W::Fixed>> for Look {
    ghost use Rattle.twin_cell.specs.Steps.{LooksWork};

    ghost then = { LooksWork W.stands W.fault_count W.doubt W.fixed };
}

pub(crate) struct LookList;

impl<W: Backed<R>, R: Listed> Play<Kept<W, R>, View<R::Content, W::Doubt, W::Fixed>> for LookList {
    ghost use Rattle.twin_cell.specs.Steps.{LooksList};

    ghost then = { LooksList W.stands W.fixed R.entries R.spare };
}

pub(crate) struct Count;

impl<W: Backed<R>, R: Listed> Play<Kept<W, R>, View<R::Content, W::Doubt, W::Fixed>> for Count {
    ghost use Rattle.twin_cell.specs.Steps.{CountsList};

    ghost then = { CountsList R.fits };
}

pub(crate) struct Publish;

impl<W: Backed<R>, R: Listed> Play<Kept<W, R>, View<R::Content, W::Doubt, W::Fixed>> for Publish {
    ghost use Rattle.twin_cell.specs.Steps.{PublishesList};

    ghost then = { PublishesList R.entries R.spare };
}

pub(crate) struct Report;

impl<W: Backed<R>, R: Listed> Play<Kept<W, R>, View<R::Content, W::Doubt, W::Fixed>> for Report {
    ghost use Rattle.twin_cell.specs.Steps.{ReportsWork};

    ghost then = { ReportsWork W.stands W.fault_count W.doubt W.fixed };
}

pub(crate) struct HandOn;

impl<W: Backed<R>, R: Listed> Play<Kept<W, R>, View<R::Content, W::Doubt, W::Fixed>> for HandOn {
    ghost use Rattle.twin_cell.specs.Steps.{HandsOnWork};

    ghost then = { HandsOnWork };
}

pub(crate) struct HandOnList;

impl<W: Backed<R>, R: Listed> Play<Kept<W, R>, View<R::Content, W::Doubt, W::Fixed>>
    for HandOnList {
    ghost use Rattle.twin_cell.specs.Steps.{HandsOnList};

    ghost then = { HandsOnList R.entries R.spare };
}

pub(crate) struct Deal;

impl<C, X, F> Split<View<C, X, F>> for Deal {
    ghost use Rattle.turn_cell.specs.Turns.{dealt, newcomer};

    ghost left = { dealt };

    ghost right = { newcomer };
}

pub(crate) struct TakeIn;

impl<C, X, F> Join<View<C, X, F>> for TakeIn {
    ghost use Rattle.turn_cell.specs.Turns.{taken_in, spent};

    ghost both = { taken_in };

    ghost spent = { spent };
}
