//! Patches of rows in one block.
ghost use Rattle.std.specs.Prelude.{◌≡◌, ◌+◌, ◌-◌, ◌^◌, ◌++◌, ◌∷◌, [], List, codes, drop, length, map};
ghost use Rattle.std.specs.Prelude.{IfOk, IfErr, OnOk, min};
ghost use Rattle.std.specs.List.{AllByRecursion, flat_map};
ghost use Rattle.delta_base.specs.Ids.{text_of};
ghost use Rattle.net_changes.specs.Net.{IsPlain};
ghost use Rattle.printed_rows.specs.Printed.{printed_lines};
ghost use Rattle.rdf_terms.specs.declared.change.Change.{Change};
ghost use Rattle.patch_algebra.specs.Nets.{ranked_row};
ghost use Rattle.patch_algebra.specs.Patches.{RefusesWritten};
ghost use Rattle.patch_algebra.specs.Written.{HasIdText, HaveIdTexts, HaveRows};
ghost use Rattle.patch_algebra.specs.Written.{rows_in_front, patch_in_block, prev_rows};

use crate::fault::NetFault;
use delta_base::{Id, OutOfMemory, id_text};
use log_base::PATCH_LIMIT;
use patch_meaning::{Checked, check_patch};
use std::alloc::Global;
use std::collections::BTreeSet;

// Appends the row of a header that names an id, whose front this is.
fn push_header(text: &mut Vec<u8>, front: &[u8], id: Id) -> Result<(), OutOfMemory>
    ensures text { OnOk result
        (text.new.items ≡ text.old.items ++ (front.now ++ (text_of id.0 ++ codes "> .\n"))) }
    ensures id { OnOk result (HasIdText id) }
{
    text.extend_from_slice(front)?;
    text.extend_from_slice(&id_text(id))?;
    text.extend_from_slice(b"> .\n")?;
    Ok(())
}

// Appends the row that names the patch before, if one is named.
fn push_prev(text: &mut Vec<u8>, prev: Option<Id>) -> Result<(), OutOfMemory>
    ensures text { OnOk result
        (text.new.items ≡ text.old.items ++ printed_lines (prev_rows prev)) }
    ensures id { OnOk result (HaveIdTexts prev) }
{
    match prev {
        Some(id) => push_header(text, b"H prev <uuid:", id),
        None => Ok(()),
    }
}

// The rows in front of the changes: the id, the one before it, and the block's begin.
fn front_text(alloc: Global, id: Id, prev: Option<Id>) -> Result<Vec<u8>, OutOfMemory>
    ensures text { IfOk result (λ text. text.items ≡ printed_lines (rows_in_front id prev)) }
    ensures id { OnOk result (HasIdText id) }
    ensures prev { OnOk result (HaveIdTexts prev) }
{
    let mut text = Vec::new(alloc);
    push_header(&mut text, b"H id <uuid:", id)?;
    push_prev(&mut text, prev)?;
    text.extend_from_slice(b"TX .\n")?;
    Ok(text)
}

const COMMIT: &[u8] = b"TC .\n";

// How many bytes rows, each without the byte of its kind, and so many others have together.
fn total_length(rows: &BTreeSet<Vec<u8>>, others: u64) -> u64
    ensures { result ≡ min
        (others + length (flat_map (λ row. drop 1 row.items) rows.now.keys)) (2 ^ 64 - 1) }
{
    let mut length = others;
    for row in rows {
        length = length.saturating_add((row.len() as u64).saturating_sub(1));
    }
    length
}

// Appends rows, each without the byte of its kind.
fn push_rows(text: &mut Vec<u8>, rows: &BTreeSet<Vec<u8>>) -> Result<(), OutOfMemory>
    ensures { OnOk result
        (text.new.items ≡ text.old.items ++ flat_map (λ row. drop 1 row.items) rows.now.keys) }
{
    for row in rows {
        if let [_rank, line @ ..] = row.as_slice() {
            text.extend_from_slice(line)?;
        }
    }
    Ok(())
}

/// The patch of an id whose rows these are, each behind the byte of its kind, in one block.
pub fn write_patch(
    alloc: Global,
    id: Id,
    prev: Option<Id>,
    rows: &BTreeSet<Vec<u8>>,
) -> Result<Checked, NetFault>
    ensures patch { IfOk result (λ patch. (changes : List Change)
        → map (λ row. row.items) rows.now.keys ≡ map ranked_row changes
        → AllByRecursion IsPlain changes → HaveRows changes
        → patch ≡ patch_in_block id prev changes) }
    ensures fault { IfErr result (λ fault. (changes : List Change)
        → map (λ row. row.items) rows.now.keys ≡ map ranked_row changes
        → RefusesWritten (patch_in_block id prev changes) fault) }
{
    let mut text = front_text(alloc, id, prev)?;
    let length = total_length(rows, (text.len() + COMMIT.len()) as u64);
    if length > PATCH_LIMIT {
        return Err(NetFault::TooLong {
            length,
            limit: PATCH_LIMIT,
        });
    }
    push_rows(&mut text, rows)?;
    text.extend_from_slice(COMMIT)?;
    // Such a text is a patch, so only memory can be wanting.
    match check_patch(alloc, text.as_slice()) {
        Ok(patch) => Ok(patch),
        Err(_) => Err(NetFault::OutOfMemory),
    }
}
