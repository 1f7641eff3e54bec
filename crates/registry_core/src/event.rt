//! What happens in a registry.
ghost use Rattle.std.specs.Prelude.{◌≡◌};
ghost use Rattle.registry_core.specs.Sources.{makes};

use delta_base::Text;
use log_base::SourceInfo;

/// One thing that happened.
#[derive(Debug, Drop)]
pub enum Event {
    Created(SourceInfo),
    Renamed { slot: u32, name: Text },
    Removed { slot: u32 },
}

impl Event {
    /// How many sources it makes.
    pub fn made(&self) -> u32
        ensures { result ≡ makes self.now }
    {
        match self {
            Event::Created(_) => 1,
            _ => 0,
        }
    }
}

/// An event, and the number of the pass that brought it: 0 for one that was found at opening.
#[derive(Debug, Drop)]
pub struct Entry {
    pub event: Event,
    pub by: u32,
}
