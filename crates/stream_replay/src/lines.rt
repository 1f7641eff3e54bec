//! Lines that are written one after another.
ghost use Rattle.std.specs.Prelude.{◌≡◌, ◌≤◌, [], IsErr, OnOk};
ghost use Rattle.std.specs.Io.KnownBytes.{Appends};
ghost use Rattle.std.specs.List.{flat_map};
ghost use Rattle.delta_base.specs.Outside.{Rose};
ghost use Rattle.sink_writing.specs.Writing.{AppendsFront};

use delta_base::{Failed, Sink};
use line_log::MadeLines;
use sink_writing::Room;

/// Writes the lines one after another, a room of them at once.
pub fn write_lines<K: Sink>(out: &mut K, lines: &MadeLines, mut room: Room) -> Result<(), Failed>
    requires { room ≡ [] }
    ensures whole { OnOk result (Appends (K.written out.old) (K.written out.new)
        (flat_map (λ l. l) lines.now)) }
    ensures front { AppendsFront (K.written out.old) (K.written out.new)
        (flat_map (λ l. l) lines.now) }
    ensures failed { IsErr result → Rose (K.faults out.old) (K.faults out.new) }
    ensures never_falls { K.faults out.old ≤ K.faults out.new }
{
    for at in 0..lines.len() {
        room.put(out, lines.line(at))?;
    }
    room.write_out(out)
}
