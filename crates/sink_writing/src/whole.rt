//! Writing a whole text.
ghost use Rattle.std.specs.Prelude.{◌≡◌, ◌≤◌, OnOk, IsErr};
ghost use Rattle.std.specs.Io.KnownBytes.{Appends};
ghost use Rattle.delta_base.specs.Outside.{Rose};
ghost use Rattle.sink_writing.specs.Writing.{AppendsFront};

use delta_base::{Failed, Sink};

/// Writes the whole text. Where the sink fails, a front of it was written.
pub fn write_all<K: Sink>(out: &mut K, text: &[u8]) -> Result<(), Failed>
    ensures whole { OnOk result (Appends (K.written out.old) (K.written out.new) text.now) }
    ensures front { AppendsFront (K.written out.old) (K.written out.new) text.now }
    ensures failed { IsErr result → Rose (K.faults out.old) (K.faults out.new) }
    ensures never_falls { K.faults out.old ≤ K.faults out.new }
{
    let mut done = 0;
    while done < text.len() {
        done += out.write(&text[done..])?;
    }
    Ok(())
}
