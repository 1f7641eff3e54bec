//! A dial in memory, whose listed calls fail.
ghost use Rattle.std.specs.Prelude.{◌≡◌, [], IfOk};

use crate::dial::{Dial, DialFault};
use delta_base::{CallCount, Calls, Link, OutOfMemory, Text};
use std::alloc::Global;
use std::marker::Model;

/// Links in memory, of which each connection is one.
#[derive(Debug, Drop)]
pub struct MemDial<L> {
    /// The links to come, the first one last.
    left: Vec<L>,
    /// The addresses of the connections made; there is room for as many as links were left.
    addresses: Vec<Text>,
    /// The links hung up; there is room for all that were left.
    back: Vec<L>,
    count: CallCount,
}

impl<L> Model for MemDial<L> {
    ghost use Rattle.std.specs.Prelude.{◌-◌, ◌≤◌, vec_len, vec_capacity, reverse};
    ghost use Rattle.delta_client.specs.Memory.{DialState};

    ghost Value = { DialState L };

    ghost view = { λ d. record {
      to_come = reverse d.left.items;
      addresses = d.addresses.items;
      back = d.back.items;
      room = vec_capacity d.back - vec_len d.back;
      failing = d.count.failing.items;
      calls = d.count.calls;
      faults = d.count.faults;
    } };

    ghost invariant = { λ d.
        (vec_len d.left ≤ vec_capacity d.back - vec_len d.back)
        × (vec_len d.left ≤ vec_capacity d.addresses - vec_len d.addresses) };
}

impl<L> MemDial<L> {
    /// The links are given in their order. The calls of `connect` of the numbers in `failing`,
    /// from 0, fail, and so does one that finds no memory, no link, or a link that has failed.
    pub fn new(alloc: Global, links: Vec<L>, failing: Calls) -> Result<MemDial<L>, OutOfMemory>
    where
        L: Drop,
        ensures to_come { IfOk result (λ dial. dial.to_come ≡ links.items) }
        ensures addresses { IfOk result (λ dial. dial.addresses ≡ []) }
        ensures back { IfOk result (λ dial. dial.back ≡ []) }
        ensures failing { IfOk result (λ dial. dial.failing ≡ failing.items) }
        ensures calls { IfOk result (λ dial. (dial.calls ≡ 0) × (dial.faults ≡ 0)) }
    {
        let addresses = Vec::with_capacity(alloc, links.len())?;
        let back = Vec::with_capacity(alloc, links.len())?;
        let mut left = links;
        left.reverse();
        Ok(MemDial {
            left,
            addresses,
            back,
            count: CallCount::new(failing),
        })
    }

    /// The addresses of the connections made, in their order.
    pub fn addresses(&self) -> &[Text]
        ensures { result.now ≡ self.now.addresses }
    {
        &self.addresses
    }

    /// The links hung up, in their order.
    pub fn back(&self) -> &[L]
        ensures { result.now ≡ self.now.back }
    {
        &self.back
    }

    /// How often a connection was tried for.
    pub fn tries(&self) -> u64
        ensures { result ≡ self.now.calls }
    {
        self.count.calls
    }
}

impl<L: Link> Dial for MemDial<L> {
    ghost use Rattle.std.specs.Prelude.{◌-◌, length};

    type L = L;

    ghost tells = { Unit {0} };

    ghost to_come = { λ d. d.to_come };

    ghost addresses = { λ d. d.addresses };

    ghost back = { λ d. d.back };

    ghost held = { λ d. d.room - length d.to_come };

    ghost tries = { λ d. d.calls };

    ghost faults = { λ d. d.faults };

    fn faults(&self) -> u64 {
        self.count.faults
    }

    fn connect(&mut self, address: &Text) -> Result<L, DialFault> {
        if self.count.start().is_err() {
            return Err(DialFault::Failed);
        }
        let Ok(address) = address.copy() else {
            self.count.fail();
            return Err(DialFault::Failed);
        };
        let Some(link) = self.left.pop() else {
            self.count.fail();
            return Err(DialFault::Failed);
        };
        if link.faults() > 0 {
            self.left.push_reserved(link);
            self.count.fail();
            return Err(DialFault::Failed);
        }
        self.addresses.push_reserved(address);
        Ok(link)
    }

    fn hang_up(&mut self, link: L) {
        if link.faults() > 0 {
            self.count.fail();
        }
        self.back.push_reserved(link);
    }
}
