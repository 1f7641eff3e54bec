//! A room in which short texts wait for each other.
ghost use Rattle.std.specs.Prelude.{◌≡◌, ◌≤◌, ◌++◌, [], IfOk, IsErr, OnOk, vec_len, vec_capacity};
ghost use Rattle.std.specs.Io.KnownBytes.{Appends};
ghost use Rattle.delta_base.specs.Outside.{Rose};
ghost use Rattle.sink_writing.specs.Writing.{AppendsFront, AppendsFirst};

use crate::whole::write_all;
use delta_base::{Failed, OutOfMemory, Sink};
use std::alloc::Global;
use std::marker::Model;

/// How many bytes of short texts are written at once.
pub const PIECE: usize = 65_536;

/// A room in which short texts wait for each other, seen as the bytes that wait. Its memory is
/// taken when it is made.
#[derive(Drop)]
pub struct Room {
    bytes: Vec<u8>,
}

impl Model for Room {
    ghost use Rattle.std.specs.Prelude.{ℕ, List, ◌≤◌, vec_len, vec_capacity};

    ghost Value = { List ℕ };

    ghost view = { λ r. r.bytes.items };

    ghost invariant = { λ r. (vec_len r.bytes ≤ 65536) × (65536 ≤ vec_capacity r.bytes) };
}

impl Room {
    /// An empty room for a piece.
    pub fn new(alloc: Global) -> Result<Room, OutOfMemory>
        ensures { IfOk result (λ room. room ≡ []) }
    {
        Ok(Room {
            bytes: Vec::with_capacity(alloc, PIECE)?,
        })
    }

    /// Puts a text behind those in the room. Where there is no place for it, all are written.
    pub fn put<K: Sink>(&mut self, out: &mut K, text: &[u8]) -> Result<(), Failed>
        ensures put { OnOk result
            (AppendsFirst (K.written out.old) (K.written out.new) (self.old ++ text.now) self.new) }
        ensures front { AppendsFront (K.written out.old) (K.written out.new)
            (self.old ++ text.now) }
        ensures failed { IsErr result → Rose (K.faults out.old) (K.faults out.new) }
        ensures never_falls { K.faults out.old ≤ K.faults out.new }
    {
        if text.len() <= PIECE - self.bytes.len() {
            let Ok(()) = self.bytes.extend_from_slice(text) else {
                unreachable!()
            };
            return Ok(());
        }
        write_all(out, self.bytes.as_slice())?;
        self.bytes.clear();
        write_all(out, text)
    }

    /// Writes what waits.
    pub fn write_out<K: Sink>(self, out: &mut K) -> Result<(), Failed>
        ensures whole { OnOk result (Appends (K.written out.old) (K.written out.new) self) }
        ensures front { AppendsFront (K.written out.old) (K.written out.new) self }
        ensures failed { IsErr result → Rose (K.faults out.old) (K.faults out.new) }
        ensures never_falls { K.faults out.old ≤ K.faults out.new }
    {
        write_all(out, self.bytes.as_slice())
    }
}
