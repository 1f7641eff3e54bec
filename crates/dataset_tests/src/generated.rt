//! A search in the dataset of many patches.
ghost use Rattle.std.specs.Prelude.{◌≡◌, ◌≤◌, ◌<◌, None, OnOk};

use crate::patches::patch_of;
use crate::terms::term;
use dataset_tx::{DataFault, Dataset, GraphPart, Pattern};
use delta_base::OutOfMemory;
use nquads_documents::print_line;
use quad_index::Steps;
use rdf_terms::{Changes, Quads};
use std::alloc::Global;
use std::marker::Brand;
use std::process::Abort;
use std::sync::ledger::{Blank, Ledger};
use std::test::Fail;
use stream_generator::patch_text;

// Makes changes, at a second try where memory is wanting.
fn make(rt: &impl Abort, dataset: &mut Dataset, changes: &Changes)
    requires { dataset.old.staged ≡ None }
    ensures { dataset.new.staged ≡ None }
{
    if let Err(fault) = dataset.apply(changes) {
        assert!(rt; fault == DataFault::OutOfMemory);
        assert!(rt; dataset.apply(changes).is_ok());
    }
}

fn make_patch(
    rt: &impl Abort,
    alloc: Global,
    dataset: &mut Dataset,
    number: u32,
) -> Result<(), OutOfMemory>
    requires some { 1 ≤ number }
    requires staged { dataset.old.staged ≡ None }
    ensures { dataset.new.staged ≡ None }
{
    let text = patch_text(alloc, number)?;
    let patch = patch_of(rt, alloc, text.as_slice())?;
    make(rt, dataset, patch.changes());
    drop(patch);
    Ok(())
}

// Makes the first patches of the generator.
fn fill(rt: &impl Abort, alloc: Global, dataset: &mut Dataset) -> Result<(), OutOfMemory>
    requires { dataset.old.staged ≡ None }
    ensures { dataset.new.staged ≡ None }
{
    for number in 1..=15_000 {
        make_patch(rt, alloc, dataset, number)?;
    }
    Ok(())
}

fn begins_with(
    rt: &impl Abort,
    alloc: Global,
    quads: &Quads,
    line: &str,
) -> Result<(), OutOfMemory> {
    let first = print_line(alloc, quads.get(0).expect(rt, "no quad"))?;
    assert!(rt; first.as_str() == line);
    Ok(())
}

// Finds 1429 quads, in at most 1430 steps.
fn find<L: Ledger>(
    rt: &impl Abort,
    alloc: Global,
    dataset: &mut Dataset,
    pattern: &Pattern,
    steps: &mut Steps<L>,
) -> Result<(), OutOfMemory>
    requires staged { dataset.old.staged ≡ None }
    requires none { steps.old ≡ 0 }
    ensures { OnOk result (steps.new ≤ 1430) }
{
    let found = dataset.matching(pattern, steps)?;
    assert!(rt; found.len() == 1429);
    let line = "<http://g/s0> <http://g/p3> \"10300\" .\n";
    let begins = begins_with(rt, alloc, &found, line);
    drop(found);
    begins
}

fn find_anew<L: Ledger>(
    rt: &impl Abort,
    alloc: Global,
    dataset: &mut Dataset,
    pattern: &Pattern,
    blank: Blank,
) -> Result<(), OutOfMemory>
    requires staged { dataset.old.staged ≡ None }
    requires name { blank.name ≡ L.name }
    requires parts { blank.parts ≡ L.parts }
    requires some { 0 < L.parts }
{
    let mut steps = Steps::<L>::new(blank);
    find(rt, alloc, dataset, pattern, &mut steps)
}

fn search(rt: &impl Abort, alloc: Global, dataset: &mut Dataset) -> Result<(), OutOfMemory>
    requires { dataset.old.staged ≡ None }
{
    fill(rt, alloc, dataset)?;
    let wanted = Pattern {
        graph: GraphPart::Default,
        subject: None,
        predicate: Some(term(rt, alloc, "<http://g/p3>")?),
        object: None,
    };
    let found = find_anew::<Brand>(rt, alloc, dataset, &wanted, Blank::new(1));
    drop(wanted);
    found
}

fn searched(rt: &impl Abort, alloc: Global) -> Result<(), OutOfMemory> {
    let mut dataset = Dataset::new(alloc);
    let searched = search(rt, alloc, &mut dataset);
    drop(dataset);
    searched
}

#[test]
fn a_search_walks_over_what_it_finds(rt: HostRuntime) -> Result<(), Fail> {
    if searched(&rt, rt.alloc()).is_err() {
        searched(&rt, rt.alloc())?;
    }
    Ok(())
}
