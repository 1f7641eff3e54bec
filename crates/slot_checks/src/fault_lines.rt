//! The line that tells a fault.
ghost use Rattle.std.specs.Prelude.{◌≡◌, IfOk};
ghost use Rattle.slot_checks.specs.Lines.{fault_line};

use crate::fault::CheckFault;
use delta_base::OutOfMemory;
use std::alloc::Global;

fn damaged(alloc: Global, file: u32, at: u64) -> Result<Vec<u8>, OutOfMemory>
    ensures { IfOk result (λ text. text.items ≡ fault_line (CheckFault.Damaged file at)) }
{
    let text = format!(in alloc; "rdfdelta: file {file}: byte {at}: damaged\n")?;
    Ok(text.into_bytes())
}

fn old_format(alloc: Global, file: u32) -> Result<Vec<u8>, OutOfMemory>
    ensures { IfOk result (λ text. text.items ≡ fault_line (CheckFault.OldFormat file)) }
{
    let text = format!(in alloc; "rdfdelta: file {file}: old format\n")?;
    Ok(text.into_bytes())
}

fn wrong_number(alloc: Global, file: u32, found: u32) -> Result<Vec<u8>, OutOfMemory>
    ensures { IfOk result (λ text. text.items ≡ fault_line (CheckFault.WrongNumber file found)) }
{
    let text = format!(in alloc; "rdfdelta: file {file}: wrong number {found}\n")?;
    Ok(text.into_bytes())
}

fn over_limit(alloc: Global, file: u32, length: u64, limit: u64) -> Result<Vec<u8>, OutOfMemory>
    ensures { IfOk result (λ text.
        text.items ≡ fault_line (CheckFault.OverLimit file length limit)) }
{
    let text = format!(in alloc;
        "rdfdelta: file {file}: over limit: have {length}, limit {limit}\n"
    )?;
    Ok(text.into_bytes())
}

fn broken_chain(alloc: Global, file: u32, version: u64) -> Result<Vec<u8>, OutOfMemory>
    ensures { IfOk result (λ text. text.items ≡ fault_line (CheckFault.BrokenChain file version)) }
{
    let text = format!(in alloc; "rdfdelta: file {file}: broken chain at version {version}\n")?;
    Ok(text.into_bytes())
}

fn broken_event(alloc: Global, place: u64) -> Result<Vec<u8>, OutOfMemory>
    ensures { IfOk result (λ text. text.items ≡ fault_line (CheckFault.BrokenEvent place)) }
{
    let text = format!(in alloc; "rdfdelta: file 0: broken event at {place}\n")?;
    Ok(text.into_bytes())
}

fn upgrade_pending(alloc: Global, file: u32) -> Result<Vec<u8>, OutOfMemory>
    ensures { IfOk result (λ text. text.items ≡ fault_line (CheckFault.UpgradePending file)) }
{
    let text = format!(in alloc; "rdfdelta: file {file}: upgrade pending\n")?;
    Ok(text.into_bytes())
}

fn fixed(alloc: Global, line: &str) -> Result<Vec<u8>, OutOfMemory>
    ensures { IfOk result (λ text. text.items ≡ line.now) }
{
    Ok(line.as_bytes().to_vec(alloc)?)
}

/// The line that tells a fault, with its line feed.
pub fn fault_text(alloc: Global, fault: CheckFault) -> Result<Vec<u8>, OutOfMemory>
    ensures { IfOk result (λ text. text.items ≡ fault_line fault) }
{
    match fault {
        CheckFault::Damaged { file, at } => damaged(alloc, file, at),
        CheckFault::OldFormat { file } => old_format(alloc, file),
        CheckFault::WrongNumber { file, found } => wrong_number(alloc, file, found),
        CheckFault::OverLimit {
            file,
            length,
            limit,
        } => over_limit(alloc, file, length, limit),
        CheckFault::BrokenChain { file, version } => broken_chain(alloc, file, version),
        CheckFault::BrokenEvent { place } => broken_event(alloc, place),
        CheckFault::UpgradePending { file } => upgrade_pending(alloc, file),
        CheckFault::Failed => fixed(alloc, "rdfdelta: disk failed\n"),
        CheckFault::OutOfMemory => fixed(alloc, "rdfdelta: out of memory\n"),
    }
}
