//! A payload that is to be the only one of its journal.
ghost use Rattle.std.specs.Prelude.{◌≡◌, ◌∷◌, [], IfOk};

use delta_base::{Bytes, Listing, OutOfMemory};
use log_journal::Payloads;
use std::alloc::Global;
use std::marker::Model;

/// It, as a list of one. No byte is copied.
#[derive(Drop)]
pub struct OnePayload {
    payloads: Payloads,
}

impl Model for OnePayload {
    ghost use Rattle.std.specs.Prelude.{◌≡◌, ℕ, List, ◌∷◌, []};
    ghost use Rattle.zone_beside.specs.Beside.{only_in};

    ghost Value = { List ℕ };

    ghost view = { λ one. only_in one.payloads.items };

    ghost invariant = { λ one. one.payloads.items ≡ only_in one.payloads.items ∷ [] };
}

impl OnePayload {
    pub fn new(alloc: Global, payload: Bytes) -> Result<OnePayload, OutOfMemory>
        ensures { IfOk result (λ one. one ≡ payload) }
    {
        let mut payloads = Listing::new(alloc);
        payloads.push(payload)?;
        Ok(OnePayload { payloads })
    }

    /// The list.
    pub fn payloads(&self) -> &Payloads
        ensures { result.now.items ≡ self.now ∷ [] }
    {
        &self.payloads
    }
}
