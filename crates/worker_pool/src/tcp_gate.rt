//! A gate over the system's sockets.
ghost use Rattle.std.specs.Prelude.{◌≡◌, ◌≤◌};

use crate::client_link::ClientLink;
use crate::door::Door;
use crate::gate::{Arrival, Gate};
use std::time::{Clock, Duration};

/// How many accepts in a row may fail.
const TRIES: u32 = 100;

/// The shortest and the longest pause behind an accept that failed, in milliseconds.
const SHORTEST_PAUSE: u64 = 10;

const LONGEST_PAUSE: u64 = 1_000;

/// Connections of one of sixteen gates over a door that they share. It tells nothing of them.
#[derive(Drop)]
pub struct TcpGate<'a, C> {
    door: &'a Door<C>,
    /// The dice of the next arrival.
    dice: u128,
    faults: u64,
}

impl<'a, C: Clock> TcpGate<'a, C> {
    /// The gate of this place. Its dice begin at the base plus 2^32 times the place, and rise by
    /// 2^36 at each arrival.
    pub fn new(door: &'a Door<C>, base: u128, place: u32) -> TcpGate<'a, C>
        ensures { result.faults ≡ 0 }
    {
        TcpGate {
            door,
            dice: base.wrapping_add(u128::from(place) << 32),
            faults: 0,
        }
    }
}

// The connection that comes next, unless it can't be taken.
fn take_next<'a, C: Clock>(door: &'a Door<C>) -> Option<ClientLink<'a, C>> {
    ClientLink::new(door.accept()?, door).ok()
}

// The pause behind one more accept that failed, in milliseconds.
fn longer(pause: u64) -> u64
    requires { pause ≤ 1000 }
    ensures { result ≤ 1000 }
{
    (2 * pause).clamp(SHORTEST_PAUSE, LONGEST_PAUSE)
}

impl<'a, C: Clock + Drop> Gate for TcpGate<'a, C> {
    ghost use Rattle.std.specs.Prelude.{[]};

    type L = ClientLink<'a, C>;

    ghost tells = { ⊥ };

    ghost arrivals = { λ g. [] };

    ghost back = { λ g. [] };

    ghost awaits = { λ g. Unit {0} };

    ghost faults = { λ g. g.faults };

    fn faults(&self) -> u64 {
        self.faults
    }

    fn next(&mut self) -> Option<Arrival<ClientLink<'a, C>>> {
        let mut pause = 0;
        for _ in 0..TRIES {
            if pause > 0 {
                self.door.pause(Duration::from_millis(pause));
            }
            if let Some(link) = take_next(self.door) {
                let dice = self.dice;
                self.dice = dice.wrapping_add(1 << 36);
                return Some(Arrival { link, dice });
            }
            self.faults = self.faults.saturating_add(1);
            if !self.door.is_bound() {
                return None;
            }
            pause = longer(pause);
        }
        None
    }

    /// Closes the connection.
    fn put_back(&mut self, link: ClientLink<'a, C>) {
        link.close();
    }
}
