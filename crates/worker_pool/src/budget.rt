//! How long a request or a reply may take.
ghost use Rattle.std.specs.Prelude.{◌≡◌, ◌↔◌, ◌+◌, ◌-◌, ◌*◌, ◌/◌, ◌<◌, ◌^◌, IsTrue, min};
ghost use Rattle.std.specs.Time.{instant_nanos};

use std::time::{Duration, Instant};

/// The seconds of each request and each reply, however short it is.
const SECONDS: u64 = 30;

/// For so many bytes that were moved there is one second more.
const BYTES_A_SECOND: u64 = 16_384;

/// The time of a request or of a reply that was begun.
#[derive(Clone, Copy)]
pub struct Budget {
    pub begun: Instant,
    /// How many bytes were moved since.
    pub moved: u64,
}

impl Budget {
    /// Of a request or a reply that begins.
    pub fn from(begun: Instant) -> Budget
        ensures { (result.begun ≡ begun) × (result.moved ≡ 0) }
    {
        Budget { begun, moved: 0 }
    }

    /// The same behind so many bytes more.
    pub fn behind(self, count: usize) -> Budget
        ensures begun { result.begun ≡ self.begun }
        ensures moved { result.moved ≡ min (self.moved + count) (2 ^ 64 - 1) }
    {
        Budget {
            begun: self.begun,
            moved: self.moved.saturating_add(count as u64),
        }
    }

    /// Whether its time is over: 30 seconds, and one more for each 16 KiB that were moved.
    pub fn is_spent(&self, now: Instant) -> bool
        ensures { IsTrue result ↔ ((30 + self.now.moved / 16384) * 1000000000
            < instant_nanos now - instant_nanos self.now.begun) }
    {
        let most = Duration::from_secs(SECONDS + self.moved / BYTES_A_SECOND);
        now.duration_since(self.begun) > most
    }
}
