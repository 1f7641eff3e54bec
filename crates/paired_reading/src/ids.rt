//! Takes over the ids of a checkpoint.
ghost use Rattle.std.specs.Prelude.{◌≡◌, ◌+◌, [], length, take, true, false, Ok};
ghost use Rattle.chain_core.specs.Breaks.{BreaksAt};
ghost use Rattle.paired_reading.specs.Payloads.{AreNew};

use delta_base::{Id, OutOfMemory};
use zone_state::Ids;

/// Takes over ids while they differ and aren't too many. Says whether that are all of them.
pub fn take_ids(ids: &mut Ids, found: &[Id], most: u32) -> Result<bool, OutOfMemory>
    requires none { ids.old.items ≡ [] }
    ensures whole { result ≡ Ok true → (ids.new.items ≡ found.now) × AreNew most found.now }
    ensures front { ids.new.items ≡ take (length ids.new.items) found.now }
    ensures breaks { result ≡ Ok false
        → BreaksAt (AreNew most) found.now (length ids.new.items + 1) }
{
    for id in found {
        if ids.len() >= most {
            return Ok(false);
        }
        if ids.version_of(*id).is_some() {
            return Ok(false);
        }
        ids.reserve()?;
        ids.push(*id);
    }
    Ok(true)
}
