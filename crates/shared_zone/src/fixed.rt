//! What never changes of a zone in a turn.
use log_base::LogLimits;
use std::collections::LinkedList;
use std::marker::Model;

/// What a zone kept at a moment, as contracts see it. No value of it is made.
pub struct KeptBrief {}

impl Model for KeptBrief {
    ghost use Rattle.checkpoint_text.specs.Brief.{Brief, empty_brief};

    ghost Value = { Brief };

    ghost view = { λ _. empty_brief };
}

/// What the zone kept when it was shared, its limits, and the directory and the number of each of
/// its two files. No value of it is made.
pub struct ZoneFixed {
    pub base: KeptBrief,
    pub limits: LogLimits,
    pub first: Option<(LinkedList<u8>, u64)>,
    pub second: Option<(LinkedList<u8>, u64)>,
}
