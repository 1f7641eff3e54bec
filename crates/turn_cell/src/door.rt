//! The door before the turn, at which passes wait that want it.
//!
//! A pass goes in before it draws a ticket, and opens the door for the next one behind its stay.
//! So a ticket is served as soon as it is drawn, and no pass sleeps that has one: served in
//! their order, passes that sleep would each wait until the one before had been woken, stayed
//! and gone. At the door whoever is awake goes in, and who is woken tries again beside those
//! that have just come.
//!
//! Nothing that is proved rests on it: a pass takes the value only when its ticket is served, also
//! where several went in at once.
use crossbeam_utils::CachePadded;
use std::hint::spin_loop;
use std::sync::Wait;
use std::sync::atomic::{AtomicU64, Ordering};

const OPEN: u64 = 0;

// A pass is inside.
const SHUT: u64 = 1;

// A pass is inside, and others may sleep.
const AWAITED: u64 = 2;

// How often a pass looks before it sleeps: a stay without a call of the disk is shorter than so
// many looks, and a sleep costs a call of the system on both sides.
const LOOKS: u32 = 100;

/// A door that one pass at a time goes through. It stands on cache lines of its own, so that
/// passes at one door don't slow those at the next.
#[derive(Drop)]
pub struct Door {
    word: CachePadded<AtomicU64>,
}

impl Door {
    /// An open door.
    pub fn new() -> Door {
        Door {
            word: CachePadded::new(AtomicU64::new(OPEN)),
        }
    }

    /// Waits until nobody is inside, and goes in.
    pub fn go_in<R: Wait>(&self, rt: &R) {
        if !self.shut() {
            self.wait(rt);
        }
    }

    /// Opens the door. Where passes may sleep, one is woken: it leaves the door awaited for the
    /// others.
    pub fn open(&self) {
        if self.word.swap(OPEN, Ordering::SeqCst) == AWAITED {
            self.word.wake_one();
        }
    }

    // Goes in if the door is open.
    fn shut(&self) -> bool {
        self.word
            .compare_exchange(OPEN, SHUT, Ordering::SeqCst, Ordering::SeqCst)
            .is_ok()
    }

    fn wait<R: Wait>(&self, rt: &R) {
        let mut found = self.look_often();
        if found == OPEN && self.shut() {
            return;
        }
        for _ in rt.forever() {
            // Whoever has slept can't know that nobody else does.
            if found != AWAITED && self.word.swap(AWAITED, Ordering::SeqCst) == OPEN {
                return;
            }
            self.word.park(rt, AWAITED as u32);
            found = self.look_often();
        }
        unreachable!()
    }

    // Looks while a pass is inside and nobody sleeps.
    fn look_often(&self) -> u64 {
        let mut found = SHUT;
        for _ in 0..LOOKS {
            found = self.word.load(Ordering::SeqCst);
            if found != SHUT {
                break;
            }
            spin_loop();
        }
        found
    }
}
