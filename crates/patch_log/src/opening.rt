//! Reads the runs of a journal's payloads.
ghost use Rattle.std.specs.Prelude.{◌≡◌, ◌⊎◌, ℕ, ◌^◌, ◌<◌, [], ◌∷◌, ◌++◌, List};
ghost use Rattle.std.specs.Prelude.{IfOk, IfErr, IsErrOf};
ghost use Rattle.chain_core.specs.declared.chain.Patch.{Patch as PatchRead};
ghost use Rattle.chain_core.specs.Chain.{IsBoundedChain};
ghost use Rattle.chain_core.specs.Patches.{patches_of};
ghost use Rattle.chain_core.specs.Runs.{entries_of};
ghost use Rattle.patch_log.specs.Log.{BreaksBehind};
ghost use Rattle.patch_log.specs.Opening.{IsRunRead, IsNextInLog, AreFoundEntries};

use crate::fault::LogFault;
use crate::indexed::IndexedChain;
use crate::next_fault::NextFault;
use crate::reading::read_run;
use crate::run::{Run, RunFault};
use chain_core::{Decision, Lookup};
use delta_base::Bytes;
use log_base::LogLimits;
use log_journal::Payloads;
use std::alloc::Global;

// The run that a payload is.
fn run_of(alloc: Global, text: Bytes) -> Result<Run, NextFault>
    ensures ok { IfOk result (IsRunRead text) }
    ensures broken { IsErrOf result NextFault.Broken
        → (run : List PatchRead) → IsRunRead text run → ⊥ }
{
    match read_run(alloc, text) {
        Ok(run) => Ok(run),
        Err(fault) => match fault {
            RunFault::OutOfMemory => Err(NextFault::OutOfMemory),
            _ => Err(NextFault::Broken),
        },
    }
}

// The run that a text is, if it goes behind the chain.
fn next_run(alloc: Global, chain: &IndexedChain, text: Bytes, most: u32) -> Result<Run, NextFault>
    ensures ok { IfOk result (IsNextInLog (patches_of chain.now.items) text most) }
    ensures broken { IsErrOf result NextFault.Broken → (run : List PatchRead)
        → IsNextInLog (patches_of chain.now.items) text most run → ⊥ }
    ensures kept { IsBoundedChain chain.now.items }
{
    let _version = chain.chain().version();
    let run = run_of(alloc, text)?;
    let limits = LogLimits {
        patches: most,
        bytes: u64::MAX,
    };
    match chain.decide(&limits, &run) {
        Decision::Accept { version: _ } => Ok(run),
        _ => Err(NextFault::Broken),
    }
}

// The chain with the run of a payload behind it.
fn with_next(
    alloc: Global,
    chain: IndexedChain,
    text: Bytes,
    most: u32,
) -> Result<IndexedChain, NextFault>
    ensures ok { IfOk result (λ longer. (run : List PatchRead)
        × IsNextInLog (patches_of chain.items) text most run
        × (longer.items ≡ chain.items ++ entries_of run 0)) }
    ensures broken { IsErrOf result NextFault.Broken → (run : List PatchRead)
        → IsNextInLog (patches_of chain.items) text most run → ⊥ }
{
    let run = next_run(alloc, &chain, text, most)?;
    let mut longer = chain;
    longer.reserve(run.count())?;
    longer.push_run(run, 0);
    Ok(longer)
}

/// The chain of the runs that the payloads are.
pub fn read_log(alloc: Global, payloads: Payloads, most: u32) -> Result<IndexedChain, LogFault>
    ensures ok { IfOk result (λ chain. AreFoundEntries payloads.items most chain.items) }
    ensures broken { (version : ℕ) → IsErrOf result (LogFault.BrokenChain version)
        → BreaksBehind most payloads.items version }
    ensures countable { most < 2 ^ 32 }
    ensures faults { IfErr result (λ fault.
        ((version : ℕ) × (fault ≡ LogFault.BrokenChain version)) ⊎ (fault ≡ LogFault.OutOfMemory)) }
{
    let mut chain = IndexedChain::new(alloc);
    for text in payloads.into_vec() {
        let version = u64::from(chain.chain().version()) + 1;
        chain = match with_next(alloc, chain, text, most) {
            Ok(longer) => longer,
            Err(NextFault::Broken) => return Err(LogFault::BrokenChain { version }),
            Err(NextFault::OutOfMemory) => return Err(LogFault::OutOfMemory),
        };
    }
    Ok(chain)
}
