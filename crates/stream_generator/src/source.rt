//! The stream as a source.
ghost use Rattle.std.specs.Prelude.{◌≡◌, ◌-◌, ◌<◌, ◌≤◌, ◌^◌, ◌++◌, [], Some};
ghost use Rattle.std.specs.Prelude.{take, length, vec_len, IfOk, OnOk};
ghost use Rattle.std.specs.Io.KnownBytes.{ReadConsumes};
ghost use Rattle.delta_base.specs.Outside.{CountsFault, HasCause};
ghost use Rattle.stream_generator.specs.Generator.{stream_text};
ghost use Rattle.stream_generator.specs.Cursor.{IsWithin, rest_of};

use crate::patch::patch_text;
use delta_base::{Failed, OutOfMemory, Source};
use std::alloc::Global;
use std::marker::Model;

// Where in the stream a reader stands.
#[derive(Drop)]
struct Cursor {
    patch: Vec<u8>,
    /// How many bytes of the patch were read.
    at: usize,
    /// The number of the next patch.
    next: u32,
    /// How many patches follow this one.
    more: u32,
}

impl Cursor {
    // Makes the next patch, where the last one was read and one follows.
    fn make(&mut self, alloc: Global) -> Result<(), OutOfMemory>
        requires { IsWithin self.old }
        ensures within { IsWithin self.new }
        ensures rest { rest_of self.new ≡ rest_of self.old }
        ensures some { OnOk result (self.new.at ≡ vec_len self.new.patch → self.new.more ≡ 0) }
    {
        if self.at < self.patch.len() || self.more == 0 {
            return Ok(());
        }
        self.patch = patch_text(alloc, self.next)?;
        self.at = 0;
        self.next += 1;
        self.more -= 1;
        Ok(())
    }

    // Moves the first bytes into the buffer.
    fn take(&mut self, into: &mut [u8]) -> usize
        requires within { IsWithin self.old }
        requires some { self.old.at ≡ vec_len self.old.patch → self.old.more ≡ 0 }
        ensures within { IsWithin self.new }
        ensures bound { result ≤ length into.new }
        ensures moved { rest_of self.old ≡ take result into.new ++ rest_of self.new }
        ensures none { result ≡ 0 → 0 < length into.new → rest_of self.new ≡ [] }
    {
        let rest = &self.patch[self.at..];
        let count = rest.len().min(into.len());
        into[..count].copy_from_slice(&rest[..count]);
        self.at += count;
        count
    }
}

/// The stream of so many patches, of which one is in memory at a time. A read fails only where
/// there is no memory for the next patch.
#[derive(Drop)]
pub struct GeneratedSource {
    alloc: Global,
    cursor: Cursor,
    faults: u64,
}

impl Model for GeneratedSource {
    ghost use Rattle.stream_generator.specs.Generator.{Generated};
    ghost use Rattle.stream_generator.specs.Cursor.{IsWithin, rest_of};

    ghost Value = { Generated };

    ghost view = { λ s. record { left = rest_of s.cursor; faults = s.faults } };

    ghost invariant = { λ s. IsWithin s.cursor };
}

impl GeneratedSource {
    /// The stream of this many patches.
    pub fn new(alloc: Global, patches: u32) -> GeneratedSource
        requires { patches < 2 ^ 32 - 1 }
        ensures left { result.left ≡ stream_text patches }
        ensures faults { result.faults ≡ 0 }
    {
        GeneratedSource {
            alloc,
            cursor: Cursor {
                patch: Vec::new(alloc),
                at: 0,
                next: 1,
                more: patches,
            },
            faults: 0,
        }
    }
}

impl Source for GeneratedSource {
    ghost left = { λ s. Some s.left };

    ghost faults = { λ s. s.faults };

    fn read(&mut self, into: &mut [u8]) -> Result<usize, Failed>
        ensures bound { IfOk result (λ n. n ≤ length into.new) }
        ensures bytes { ReadConsumes (Some self.old.left) (Some self.new.left) result into.new }
        ensures cause { HasCause self.old.faults self.new.faults result }
        ensures faults { CountsFault self.old.faults self.new.faults result }
    {
        if self.cursor.make(self.alloc).is_err() {
            self.faults = self.faults.saturating_add(1);
            return Err(Failed);
        }
        Ok(self.cursor.take(into))
    }

    fn faults(&self) -> u64 {
        self.faults
    }
}
