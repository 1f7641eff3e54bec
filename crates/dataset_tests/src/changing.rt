//! What changes make of a dataset, at once or by way of what is staged.
ghost use Rattle.std.specs.Prelude.{◌≡◌, None};

use crate::contents::{has, make, stage};
use crate::patches::changes;
use dataset_tx::Dataset;
use delta_base::OutOfMemory;
use rdf_terms::Changes;
use std::alloc::Global;
use std::process::Abort;
use std::test::Fail;

/// Changes, and what the dataset has behind them.
type Example<'a> = (&'a [&'a str], &'a [&'a str]);

const ONE: &str = "<a:s> <a:p> \"1\" .\n";

const TWO: &str = "<a:s> <a:p> \"2\" .\n";

const THREE: &str = "<a:s> <a:p> \"3\" .\n";

const ADD_ONE: &str = "A <a:s> <a:p> \"1\"";

const ADD_TWO: &str = "A <a:s> <a:p> \"2\"";

const ADD_THREE: &str = "A <a:s> <a:p> \"3\"";

const DELETE_ONE: &str = "D <a:s> <a:p> \"1\"";

const DELETE_TWO: &str = "D <a:s> <a:p> \"2\"";

// What is staged is given up, staged again and committed.
fn gives_up_and_commits(
    rt: &impl Abort,
    alloc: Global,
    dataset: &mut Dataset,
    changes: &Changes,
    had: &[&str],
    wanted: &[&str],
) -> Result<(), OutOfMemory>
    requires { dataset.old.staged ≡ None }
{
    stage(rt, alloc, dataset, changes, had)?;
    dataset.drop_staged();
    has(rt, alloc, dataset, had)?;
    stage(rt, alloc, dataset, changes, had)?;
    dataset.commit_staged();
    has(rt, alloc, dataset, wanted)
}

// Whether changes are made at once, or staged.
fn makes(
    rt: &impl Abort,
    alloc: Global,
    dataset: &mut Dataset,
    changes: &Changes,
    had: &[&str],
    wanted: &[&str],
    stages: bool,
) -> Result<(), OutOfMemory>
    requires { dataset.old.staged ≡ None }
{
    if stages {
        return gives_up_and_commits(rt, alloc, dataset, changes, had, wanted);
    }
    make(rt, alloc, dataset, changes, had)?;
    has(rt, alloc, dataset, wanted)
}

fn example_makes(
    rt: &impl Abort,
    alloc: Global,
    first: &Changes,
    had: &[&str],
    example: Example<'_>,
    stages: bool,
) -> Result<(), OutOfMemory> {
    let (rows, wanted) = example;
    let then = changes(rt, alloc, rows)?;
    let mut dataset = Dataset::new(alloc);
    let mut made = make(rt, alloc, &mut dataset, first, &[]);
    if made.is_ok() {
        made = makes(rt, alloc, &mut dataset, &then, had, wanted, stages);
    }
    drop(dataset);
    drop(then);
    made
}

fn examples_make(
    rt: &impl Abort,
    alloc: Global,
    first: &Changes,
    had: &[&str],
    examples: &[Example<'_>],
) -> Result<(), OutOfMemory> {
    for example in examples {
        example_makes(rt, alloc, first, had, *example, false)?;
        example_makes(rt, alloc, first, had, *example, true)?;
    }
    Ok(())
}

// Behind the first changes a dataset has these lines, and behind an example's what that says.
fn all_make(
    rt: &impl Abort,
    alloc: Global,
    first: &[&str],
    had: &[&str],
    examples: &[Example<'_>],
) -> Result<(), OutOfMemory> {
    let first = changes(rt, alloc, first)?;
    let made = examples_make(rt, alloc, &first, had, examples);
    drop(first);
    made
}

fn quads_change(rt: &impl Abort, alloc: Global) -> Result<(), OutOfMemory> {
    all_make(
        rt,
        alloc,
        &[ADD_ONE],
        &[ONE],
        &[
            (&[ADD_ONE], &[ONE]),
            (&[DELETE_ONE], &[]),
            (&[DELETE_TWO], &[ONE]),
            (&[DELETE_ONE, ADD_ONE], &[ONE]),
            (&[DELETE_ONE, ADD_TWO, DELETE_TWO], &[]),
            (
                &[ADD_TWO, DELETE_ONE, ADD_ONE, DELETE_TWO, ADD_THREE],
                &[ONE, THREE],
            ),
            (
                &["A <a:s> <a:p> \"1\" <a:g>", DELETE_ONE],
                &["<a:s> <a:p> \"1\" <a:g> .\n"],
            ),
        ],
    )
}

#[test]
fn a_quad_is_there_once(rt: HostRuntime) -> Result<(), Fail> {
    if quads_change(&rt, rt.alloc()).is_err() {
        quads_change(&rt, rt.alloc())?;
    }
    Ok(())
}

fn blocks_change(rt: &impl Abort, alloc: Global) -> Result<(), OutOfMemory> {
    all_make(
        rt,
        alloc,
        &[ADD_ONE],
        &[ONE],
        &[
            (&["TX", ADD_TWO, "TC", "TX", ADD_THREE, "TA"], &[ONE, TWO]),
            (&["TX", ADD_THREE, "TA", ADD_TWO], &[ONE, TWO]),
            (
                &["TX", ADD_TWO, "TX", DELETE_ONE, "TA", ADD_THREE],
                &[ONE, THREE],
            ),
            (
                &["TX", DELETE_ONE, "TX", ADD_TWO, "TC", ADD_THREE, "TA"],
                &[TWO, THREE],
            ),
            (&[ADD_TWO, "TX", DELETE_TWO, "TA"], &[ONE, TWO]),
            (&["TX", ADD_TWO], &[ONE, TWO]),
            (&["TA", "TC", ADD_TWO, "TA"], &[ONE, TWO]),
        ],
    )
}

#[test]
fn a_block_ends_at_the_next_word(rt: HostRuntime) -> Result<(), Fail> {
    if blocks_change(&rt, rt.alloc()).is_err() {
        blocks_change(&rt, rt.alloc())?;
    }
    Ok(())
}

fn prefixes_change(rt: &impl Abort, alloc: Global) -> Result<(), OutOfMemory> {
    all_make(
        rt,
        alloc,
        &[
            "PA b <b:0>",
            "PA a <a:2> <g:2>",
            "PA a <a:1> <g:1>",
            "PA a <a:0>",
        ],
        &["a a:0\n", "a a:1 <g:1>\n", "a a:2 <g:2>\n", "b b:0\n"],
        &[
            (
                &["PA a <a:9> <g:1>", "PD b"],
                &["a a:0\n", "a a:2 <g:2>\n", "a a:9 <g:1>\n"],
            ),
            (
                &["TX", "PD a", "PA c <c:0>", "TA"],
                &["a a:0\n", "a a:1 <g:1>\n", "a a:2 <g:2>\n", "b b:0\n"],
            ),
            (
                &[
                    "PD a",
                    "PA a <a:7>",
                    "PD c",
                    "PA b <b:1> <g:1>",
                    "PD a <g:1>",
                ],
                &["a a:2 <g:2>\n", "a a:7\n", "b b:0\n", "b b:1 <g:1>\n"],
            ),
        ],
    )
}

#[test]
fn prefixes_come_in_the_order_of_their_rows(rt: HostRuntime) -> Result<(), Fail> {
    if prefixes_change(&rt, rt.alloc()).is_err() {
        prefixes_change(&rt, rt.alloc())?;
    }
    Ok(())
}
