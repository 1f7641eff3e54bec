//! Changes, as rows write them.
use delta_base::OutOfMemory;
use patch_meaning::{Checked, PatchFault, check_patch};
use rdf_terms::{Change, Changes};
use std::alloc::Global;
use std::process::Abort;

/// The row that a patch begins with.
pub const HEAD: &str = "H id <uuid:00000000-0000-4000-8000-000000000001> .\n";

/// The patch of a text, which is one.
pub fn patch_of(rt: &impl Abort, alloc: Global, text: &[u8]) -> Result<Checked, OutOfMemory> {
    match check_patch(alloc, text) {
        Ok(patch) => Ok(patch),
        Err(fault) => {
            assert!(rt; matches!(fault, PatchFault::OutOfMemory));
            Err(OutOfMemory)
        }
    }
}

fn text_of_row(alloc: Global, row: &str) -> Result<String, OutOfMemory> {
    let mut text = String::from_str(alloc, HEAD)?;
    text.push_str(row)?;
    text.push_str(" .")?;
    Ok(text)
}

fn first_change(rt: &impl Abort, changes: &Changes) -> Result<Change, OutOfMemory> {
    changes.get(0).expect(rt, "no change").copy()
}

fn change_of_row(rt: &impl Abort, alloc: Global, row: &str) -> Result<Change, OutOfMemory> {
    let text = text_of_row(alloc, row)?;
    let patch = patch_of(rt, alloc, text.as_bytes())?;
    let change = first_change(rt, patch.changes());
    drop(patch);
    change
}

fn change(rt: &impl Abort, alloc: Global, row: &str) -> Result<Change, OutOfMemory> {
    match row {
        "TX" => Ok(Change::Begin),
        "TC" => Ok(Change::Commit),
        "TA" => Ok(Change::Abort),
        _ => change_of_row(rt, alloc, row),
    }
}

fn push_change(
    rt: &impl Abort,
    alloc: Global,
    changes: &mut Changes,
    row: &str,
) -> Result<(), OutOfMemory> {
    let change = change(rt, alloc, row)?;
    match changes.push(change) {
        Ok(()) => Ok(()),
        Err(back) => {
            drop(back);
            Err(OutOfMemory)
        }
    }
}

fn push_changes(
    rt: &impl Abort,
    alloc: Global,
    changes: &mut Changes,
    rows: &[&str],
) -> Result<(), OutOfMemory> {
    for row in rows {
        push_change(rt, alloc, changes, row)?;
    }
    Ok(())
}

/// The changes of rows without their dots, in any order: a patch has no TC without its TX.
pub fn changes(rt: &impl Abort, alloc: Global, rows: &[&str]) -> Result<Changes, OutOfMemory> {
    let mut changes = Changes::new(alloc);
    match push_changes(rt, alloc, &mut changes, rows) {
        Ok(()) => Ok(changes),
        Err(error) => {
            drop(changes);
            Err(error)
        }
    }
}
