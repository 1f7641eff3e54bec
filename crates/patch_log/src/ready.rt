//! A run that can be added without asking for memory of its own.
ghost use Rattle.std.specs.Prelude.{◌≡◌, ◌≤◌, length, IfOk};
ghost use Rattle.log_base.specs.declared.limits.TheConstants.{PATCH_LIMIT};
ghost use Rattle.chain_core.specs.Runs.{run_text};
ghost use Rattle.log_journal.specs.Payload.{payload_of};
ghost use Rattle.patch_log.specs.Ready.{IsMadeOf};

use crate::run::Run;
use chain_core::Patch;
use delta_base::OutOfMemory;
use log_journal::{Block, make_block};
use std::alloc::Global;
use std::marker::Model;

/// A run with its block, and the pass that brings it. It is made without a log.
#[derive(Drop)]
pub struct Ready {
    pub(crate) run: Run,
    pub(crate) block: Block,
    pub(crate) by: u32,
}

impl Model for Ready {
    ghost use Rattle.patch_log.specs.Ready.{ReadyView, IsReady};

    ghost Value = { ReadyView };

    ghost view = { λ r. record { run = r.run; by = r.by } };

    ghost invariant = { λ r. IsReady r.run r.block };
}

impl Ready {
    /// Takes all the memory that adding the run needs beside its place in the list. Where there is
    /// none, the run is handed back.
    pub fn of(alloc: Global, run: Run, by: u32) -> Result<Ready, Run>
        ensures { IsMadeOf run by result }
    {
        match block_of(alloc, run.patches().as_slice()) {
            Ok(block) => Ok(Ready { run, block, by }),
            Err(_) => Err(run),
        }
    }

    pub fn run(&self) -> &Run
        ensures { result.now ≡ self.now.run }
    {
        &self.run
    }

    pub fn into_run(self) -> Run
        ensures { result ≡ self.run }
    {
        let Ready { run, .. } = self;
        run
    }
}

// The block of the text of a run. That of one patch isn't copied first.
fn block_of(alloc: Global, run: &[Patch]) -> Result<Block, OutOfMemory>
    requires { length (run_text run.now) ≤ PATCH_LIMIT }
    ensures { IfOk result (λ block. payload_of block ≡ run_text run.now) }
{
    match run {
        [patch] => make_block(alloc, patch.text.as_slice()),
        _ => make_block(alloc, &joined(alloc, run)?),
    }
}

// The texts of patches, one behind another.
fn joined(alloc: Global, run: &[Patch]) -> Result<Vec<u8>, OutOfMemory>
    requires { length (run_text run.now) ≤ PATCH_LIMIT }
    ensures { IfOk result (λ text. text.items ≡ run_text run.now) }
{
    let mut length = 0;
    for patch in run {
        length += patch.text.len();
    }
    let mut text = Vec::new(alloc);
    text.reserve(length)?;
    for patch in run {
        text.extend_from_slice(patch.text.as_slice())?;
    }
    Ok(text)
}
