//! Several texts.
ghost use Rattle.std.specs.Prelude.{◌≡◌, ◌≤◌, [], OnOk, IsErr};
ghost use Rattle.std.specs.Io.KnownBytes.{Appends};
ghost use Rattle.delta_base.specs.Outside.{Rose};
ghost use Rattle.sink_writing.specs.Writing.{AppendsFront, joined};

use crate::room::Room;
use delta_base::{Failed, Sink};

/// Writes texts one after another, a room of them at once.
pub fn write_texts<K: Sink>(out: &mut K, texts: &[&[u8]], mut room: Room) -> Result<(), Failed>
    requires { room ≡ [] }
    ensures whole { OnOk result
        (Appends (K.written out.old) (K.written out.new) (joined texts.now)) }
    ensures front { AppendsFront (K.written out.old) (K.written out.new) (joined texts.now) }
    ensures failed { IsErr result → Rose (K.faults out.old) (K.faults out.new) }
    ensures never_falls { K.faults out.old ≤ K.faults out.new }
{
    for text in texts {
        room.put(out, text)?;
    }
    room.write_out(out)
}
