//! Sending whole texts.
ghost use Rattle.std.specs.Prelude.{◌≡◌, ◌≤◌, ◌++◌, OnOk, IsErr};
ghost use Rattle.std.specs.Io.KnownBytes.{Appends};
ghost use Rattle.delta_base.specs.Outside.{Rose};
ghost use Rattle.sink_writing.specs.Writing.{AppendsFront};

use delta_base::{Failed, Link};

/// Sends the whole text. Where the link fails, a front of it was sent.
pub fn send_all<L: Link>(link: &mut L, text: &[u8]) -> Result<(), Failed>
    ensures whole { OnOk result (Appends (L.sent link.old) (L.sent link.new) text.now) }
    ensures front { AppendsFront (L.sent link.old) (L.sent link.new) text.now }
    ensures keeps { L.left link.new ≡ L.left link.old }
    ensures failed { IsErr result → Rose (L.faults link.old) (L.faults link.new) }
    ensures never_falls { L.faults link.old ≤ L.faults link.new }
{
    let mut done = 0;
    while done < text.len() {
        done += link.write(&text[done..])?;
    }
    Ok(())
}

/// Sends two texts, the one behind the other, without joining them. Where the link fails, a front
/// of both was sent.
pub fn send_both<L: Link>(link: &mut L, first: &[u8], second: &[u8]) -> Result<(), Failed>
    ensures whole { OnOk result
        (Appends (L.sent link.old) (L.sent link.new) (first.now ++ second.now)) }
    ensures front { AppendsFront (L.sent link.old) (L.sent link.new) (first.now ++ second.now) }
    ensures keeps { L.left link.new ≡ L.left link.old }
    ensures failed { IsErr result → Rose (L.faults link.old) (L.faults link.new) }
    ensures never_falls { L.faults link.old ≤ L.faults link.new }
{
    send_all(link, first)?;
    send_all(link, second)
}
