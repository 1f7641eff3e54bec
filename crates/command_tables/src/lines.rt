//! The lines on err.
ghost use Rattle.std.specs.Prelude.{◌≡◌, ◌++◌, ◌∷◌, [], false, IfOk, IfSome, IfNone, codes};
ghost use Rattle.std.specs.Fmt.{decimal};
ghost use Rattle.patch_meaning.specs.Names.{fault_name};
ghost use Rattle.command_tables.specs.Lines.{bad_patch_line, chain_line, fault_at, has_fixed_line};
ghost use Rattle.command_tables.specs.Lines.{limit_line, refusal_line, no_patch_line};
ghost use Rattle.command_tables.specs.Lines.{not_understood_line, peer_behind_line, place_line};
ghost use Rattle.command_tables.specs.Names.{usage_text};
ghost use Rattle.command_tables.specs.Lines.{few_patches_line, net_too_long_line};
ghost use Rattle.command_tables.specs.Lines.{refused_line, zone_full_line};
ghost use Rattle.command_tables.specs.Lines.{broken_checkpoint_line, checkpoint_too_large_line};

use crate::name::Name;
use crate::refusal::Refusal;
use chain_core::ChainFault;
use delta_base::{Bytes, Id, OutOfMemory, id_text};
use patch_meaning::PatchFault;
use slot_checks::{fault_text, push_id};
use std::alloc::Global;

/// The line of a refusal that tells no more than what happened: nothing is made for it.
#[tactic(auto, unfolding(crate::specs::Lines::refusal_line))]
pub fn fixed_line(refusal: &Refusal) -> Option<&'static [u8]>
    ensures line { IfSome result (λ line. line.now ≡ refusal_line refusal.now) }
    ensures fixed { IfNone result (has_fixed_line refusal.now ≡ false) }
{
    match refusal {
        Refusal::UnknownCommand => Some(b"rdfdelta: unknown command\n"),
        Refusal::BadRun => Some(b"rdfdelta: input: line 1 byte 0: BadRun\n"),
        Refusal::InputFailed => Some(b"rdfdelta: input failed\n"),
        Refusal::OutputFailed => Some(b"rdfdelta: output failed\n"),
        Refusal::ZoneTermsFull => Some(b"rdfdelta: refused: zone terms full\n"),
        Refusal::DiskFailed => Some(b"rdfdelta: disk failed\n"),
        Refusal::LinkFailed => Some(b"rdfdelta: link failed\n"),
        Refusal::CutShort => Some(b"rdfdelta: answer cut short\n"),
        Refusal::OutOfMemory => Some(b"rdfdelta: out of memory\n"),
        _ => None,
    }
}

/// The line of a refusal that tells numbers, ids or words.
#[tactic(auto, unfolding(crate::specs::Lines::refusal_line))]
pub fn made_line(alloc: Global, refusal: &Refusal) -> Result<Vec<u8>, OutOfMemory>
    requires { has_fixed_line refusal.now ≡ false }
    ensures { IfOk result (λ text. text.items ≡ refusal_line refusal.now) }
{
    match refusal {
        Refusal::Usage(name) => usage_line(alloc, *name),
        Refusal::Stream { line, at, kind } => {
            place_line(alloc, *line, *at, kind.name().as_bytes())
        }
        Refusal::LongPatch { limit, .. } => limit_line(alloc, *limit),
        Refusal::Document { line, at, kind } => {
            place_line(alloc, *line as u64, *at as u64, kind.name().as_bytes())
        }
        Refusal::TooLong { limit } => limit_line(alloc, *limit),
        Refusal::FewPatches { version } => few_patches_line(alloc, *version),
        Refusal::NetTooLong { length, limit } => net_too_long_line(alloc, *length, *limit),
        Refusal::NotEmpty { file, length } => not_empty_line(alloc, *file, *length),
        Refusal::ZoneFull { have, limit } => zone_full_line(alloc, *have, *limit),
        Refusal::CheckpointTooLarge { length, limit } => {
            checkpoint_too_large_line(alloc, *length, *limit)
        }
        Refusal::File(fault) => fault_text(alloc, *fault),
        Refusal::BrokenCheckpoint { file } => broken_checkpoint_line(alloc, *file),
        Refusal::WrongCount { disks, slots } => wrong_count_line(alloc, *disks, *slots),
        Refusal::Refused { status, body } => refused_line(alloc, *status, body),
        Refusal::NotUnderstood { at } => not_understood_line(alloc, *at),
        Refusal::BadPatch { version, fault } => bad_patch_line(alloc, *version, *fault),
        Refusal::PeerBehind { mine, theirs } => peer_behind_line(alloc, *mine, *theirs),
        Refusal::NoPatch { version } => no_patch_line(alloc, *version),
        Refusal::Chain(fault) => chain_line(alloc, *fault),
        _ => unreachable!(),
    }
}

fn usage_line(alloc: Global, name: Name) -> Result<Vec<u8>, OutOfMemory>
    ensures { IfOk result (λ text.
        text.items ≡ codes "rdfdelta: usage: " ++ (usage_text name ++ 10 ∷ [])) }
{
    let mut text = Vec::from_slice(alloc, b"rdfdelta: usage: ")?;
    name.push_usage(&mut text)?;
    text.push(b'\n')?;
    Ok(text)
}

fn few_patches_line(alloc: Global, version: u32) -> Result<Vec<u8>, OutOfMemory>
    ensures { IfOk result (λ text. text.items ≡ few_patches_line version) }
{
    let text = format!(in alloc; "rdfdelta: input: no patch {version}\n")?;
    Ok(text.into_bytes())
}

fn net_too_long_line(alloc: Global, have: u64, limit: u64) -> Result<Vec<u8>, OutOfMemory>
    ensures { IfOk result (λ text. text.items ≡ net_too_long_line have limit) }
{
    let text = format!(in alloc;
        "rdfdelta: refused: net patch too long: have {have}, limit {limit}\n"
    )?;
    Ok(text.into_bytes())
}

fn not_empty_line(alloc: Global, file: u32, length: u64) -> Result<Vec<u8>, OutOfMemory>
    ensures { IfOk result (λ text. text.items ≡ codes "rdfdelta: refused: file "
        ++ (decimal file ++ (codes " not empty: " ++ (decimal length ++ 10 ∷ [])))) }
{
    let text = format!(in alloc; "rdfdelta: refused: file {file} not empty: {length}\n")?;
    Ok(text.into_bytes())
}

fn wrong_count_line(alloc: Global, disks: u64, slots: u32) -> Result<Vec<u8>, OutOfMemory>
    ensures { IfOk result (λ text. text.items ≡ codes "rdfdelta: file 0: wrong count: disks "
        ++ (decimal disks ++ (codes ", slots " ++ (decimal slots ++ 10 ∷ [])))) }
{
    let text = format!(in alloc; "rdfdelta: file 0: wrong count: disks {disks}, slots {slots}\n")?;
    Ok(text.into_bytes())
}

fn zone_full_line(alloc: Global, have: u64, limit: u64) -> Result<Vec<u8>, OutOfMemory>
    ensures { IfOk result (λ text. text.items ≡ zone_full_line have limit) }
{
    let text = format!(in alloc; "rdfdelta: refused: zone full: have {have}, limit {limit}\n")?;
    Ok(text.into_bytes())
}

fn checkpoint_too_large_line(alloc: Global, have: u64, limit: u64) -> Result<Vec<u8>, OutOfMemory>
    ensures { IfOk result (λ text. text.items ≡ checkpoint_too_large_line have limit) }
{
    let text = format!(in alloc;
        "rdfdelta: refused: checkpoint too large: have {have}, limit {limit}\n"
    )?;
    Ok(text.into_bytes())
}

fn broken_checkpoint_line(alloc: Global, file: u32) -> Result<Vec<u8>, OutOfMemory>
    ensures { IfOk result (λ text. text.items ≡ broken_checkpoint_line file) }
{
    let text = format!(in alloc; "rdfdelta: file {file}: broken checkpoint\n")?;
    Ok(text.into_bytes())
}

// The first byte past the limit, where a text is too long.
fn fault_at(fault: PatchFault) -> u64
    ensures { result ≡ fault_at fault }
{
    match fault {
        PatchFault::At { at, .. } => at,
        PatchFault::TooLong { limit, .. } => limit,
        PatchFault::OutOfMemory => 0,
    }
}

fn bad_patch_line(alloc: Global, version: u32, fault: PatchFault) -> Result<Vec<u8>, OutOfMemory>
    ensures { IfOk result (λ text.
        text.items ≡ bad_patch_line version (fault_at fault) (fault_name fault)) }
{
    let at = fault_at(fault);
    let front = format!(in alloc; "rdfdelta: answer: patch {version}: byte {at}: ")?;
    let mut text = front.into_bytes();
    text.extend_from_slice(fault.name().as_bytes())?;
    text.push(b'\n')?;
    Ok(text)
}

fn peer_behind_line(alloc: Global, mine: u32, theirs: u32) -> Result<Vec<u8>, OutOfMemory>
    ensures { IfOk result (λ text. text.items ≡ peer_behind_line mine theirs) }
{
    let text = format!(in alloc; "rdfdelta: peer behind: have {mine}, peer {theirs}\n")?;
    Ok(text.into_bytes())
}

fn no_patch_line(alloc: Global, version: u32) -> Result<Vec<u8>, OutOfMemory>
    ensures { IfOk result (λ text. text.items ≡ no_patch_line version) }
{
    let text = format!(in alloc; "rdfdelta: peer has no patch {version}\n")?;
    Ok(text.into_bytes())
}

fn refused_line(alloc: Global, status: u16, body: &Bytes) -> Result<Vec<u8>, OutOfMemory>
    ensures { IfOk result (λ text. text.items ≡ refused_line status body.now) }
{
    let front = format!(in alloc; "rdfdelta: refused: {status} ")?;
    let mut text = front.into_bytes();
    text.extend_from_slice(body.as_slice())?;
    text.push(b'\n')?;
    Ok(text)
}

fn not_understood_line(alloc: Global, at: u64) -> Result<Vec<u8>, OutOfMemory>
    ensures { IfOk result (λ text. text.items ≡ not_understood_line at) }
{
    let text = format!(in alloc; "rdfdelta: answer: byte {at}: not understood\n")?;
    Ok(text.into_bytes())
}

fn limit_line(alloc: Global, limit: u64) -> Result<Vec<u8>, OutOfMemory>
    ensures { IfOk result (λ text. text.items ≡ limit_line limit) }
{
    let text = format!(in alloc; "rdfdelta: input: too long: limit {limit}\n")?;
    Ok(text.into_bytes())
}

fn place_line(alloc: Global, line: u64, at: u64, kind: &[u8]) -> Result<Vec<u8>, OutOfMemory>
    ensures { IfOk result (λ text. text.items ≡ place_line line at kind.now) }
{
    let front = format!(in alloc; "rdfdelta: input: line {line} byte {at}: ")?;
    let mut text = front.into_bytes();
    text.extend_from_slice(kind)?;
    text.push(b'\n')?;
    Ok(text)
}

fn chain_line(alloc: Global, fault: ChainFault) -> Result<Vec<u8>, OutOfMemory>
    ensures { IfOk result (λ text. text.items ≡ chain_line fault) }
{
    match fault {
        ChainFault::Diverged {
            version,
            have,
            found,
        } => diverged_line(alloc, version, have, found),
        ChainFault::Repeated { id, version } => repeated_line(alloc, id, version),
    }
}

fn diverged_line(
    alloc: Global,
    version: u32,
    have: Option<Id>,
    found: Option<Id>,
) -> Result<Vec<u8>, OutOfMemory>
    ensures { IfOk result (λ text.
        text.items ≡ chain_line (ChainFault.Diverged version have found)) }
{
    let front = format!(in alloc; "rdfdelta: diverged at version {version}: have ")?;
    let mut text = front.into_bytes();
    push_id(&mut text, have)?;
    text.extend_from_slice(b", found ")?;
    push_id(&mut text, found)?;
    text.push(b'\n')?;
    Ok(text)
}

fn repeated_line(alloc: Global, id: Id, version: u32) -> Result<Vec<u8>, OutOfMemory>
    ensures { IfOk result (λ text. text.items ≡ chain_line (ChainFault.Repeated id version)) }
{
    let end = format!(in alloc; " at version {version}\n")?;
    let mut text = Vec::from_slice(alloc, b"rdfdelta: repeated id ")?;
    text.extend_from_slice(&id_text(id))?;
    text.extend_from_slice(end.as_bytes())?;
    Ok(text)
}
