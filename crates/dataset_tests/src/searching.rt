//! Searches by all patterns, beside walks over all quads.
ghost use Rattle.std.specs.Prelude.{◌≡◌, ◌+◌, ◌≤◌, ◌<◌, None, IfOk, IfSome};

use crate::contents::make;
use crate::patches::{HEAD, patch_of};
use crate::terms::term;
use dataset_tx::{Dataset, GraphPart, Pattern};
use delta_base::OutOfMemory;
use line_log::MadeLines;
use nquads_documents::push_line;
use quad_index::Steps;
use rdf_terms::{Quad, Term};
use std::alloc::Global;
use std::marker::Brand;
use std::process::Abort;
use std::sync::ledger::{Blank, Ledger};
use std::test::Fail;

const GRAPHS: [&str; 3] = ["", "<a:g1>", "<a:g2>"];

const SUBJECTS: [&str; 4] = ["<a:s0>", "<a:s1>", "<a:s2>", "_:s3"];

const PREDICATES: [&str; 5] = ["<a:p0>", "<a:p1>", "<a:p2>", "<a:p3>", "<a:p4>"];

const OBJECTS: [&str; 7] = [
    "\"0\"",
    "\"1\"@en",
    "\"2\"^^<a:t>",
    "\"3\"",
    "<a:s1>",
    "_:s3",
    "<a:p2>",
];

// The row that adds the quad of a number, whose parts are its remainders.
fn push_row(text: &mut String, number: usize) -> Result<(), OutOfMemory> {
    let parts = [
        "A ",
        SUBJECTS[number % 4],
        " ",
        PREDICATES[number % 5],
        " ",
        OBJECTS[number % 7],
        " ",
        GRAPHS[number % 3],
        " .\n",
    ];
    for part in parts {
        text.push_str(part)?;
    }
    Ok(())
}

// A patch that adds half of the 420 quads that numbers have.
fn patch_text(alloc: Global) -> Result<String, OutOfMemory> {
    let mut text = String::from_str(alloc, HEAD)?;
    for number in 0..210 {
        push_row(&mut text, number)?;
    }
    Ok(text)
}

// Fills a dataset by rule.
fn fill(rt: &impl Abort, alloc: Global, dataset: &mut Dataset) -> Result<(), OutOfMemory>
    requires { dataset.old.staged ≡ None }
    ensures { dataset.new.staged ≡ None }
{
    let text = patch_text(alloc)?;
    let patch = patch_of(rt, alloc, text.as_bytes())?;
    let made = make(rt, alloc, dataset, patch.changes(), &[]);
    drop(patch);
    made
}

// A part that is bound if the bit of a mask is set.
fn part(
    rt: &impl Abort,
    alloc: Global,
    mask: u8,
    bit: u8,
    text: &str,
) -> Result<Option<Term>, OutOfMemory> {
    if mask & bit == 0 {
        return Ok(None);
    }
    match term(rt, alloc, text) {
        Ok(term) => Ok(Some(term)),
        Err(error) => Err(error),
    }
}

fn graph_part(
    rt: &impl Abort,
    alloc: Global,
    mask: u8,
    text: &str,
) -> Result<GraphPart, OutOfMemory> {
    if mask & 1 == 0 {
        return Ok(GraphPart::Any);
    }
    if text.is_empty() {
        return Ok(GraphPart::Default);
    }
    match term(rt, alloc, text) {
        Ok(term) => Ok(GraphPart::Named(term)),
        Err(error) => Err(error),
    }
}

// Binds the parts of a mask: 1 the graph, 2 the subject, 4 the predicate, 8 the object.
fn bind(
    rt: &impl Abort,
    alloc: Global,
    pattern: &mut Pattern,
    mask: u8,
    graph: &str,
) -> Result<(), OutOfMemory> {
    pattern.graph = graph_part(rt, alloc, mask, graph)?;
    pattern.subject = part(rt, alloc, mask, 2, "<a:s1>")?;
    pattern.predicate = part(rt, alloc, mask, 4, "<a:p2>")?;
    pattern.object = part(rt, alloc, mask, 8, "\"3\"")?;
    Ok(())
}

fn fits(part: &Option<Term>, term: &Term) -> bool {
    match part {
        None => true,
        Some(wanted) => wanted == term,
    }
}

fn fits_graph(part: &GraphPart, graph: &Option<Term>) -> bool {
    match (part, graph) {
        (GraphPart::Any, _) => true,
        (GraphPart::Default, None) => true,
        (GraphPart::Named(wanted), Some(name)) => wanted == name,
        _ => false,
    }
}

fn fits_quad(pattern: &Pattern, quad: &Quad) -> bool {
    fits_graph(&pattern.graph, quad.graph())
        && fits(&pattern.subject, quad.subject())
        && fits(&pattern.predicate, quad.predicate())
        && fits(&pattern.object, quad.object())
}

// Whether these are the quads that a walk over all finds, in its order.
fn are_those(found: &[Quad], all: &[Quad], pattern: &Pattern) -> bool {
    let mut rest = found;
    for quad in all {
        if fits_quad(pattern, quad) {
            let Some((first, behind)) = rest.split_first() else {
                return false;
            };
            if first != quad {
                return false;
            }
            rest = behind;
        }
    }
    rest.is_empty()
}

// How many quads are found, in at least as many steps and at most one more, where a walk finds them
// too.
fn finds<L: Ledger>(
    dataset: &mut Dataset,
    all: &[Quad],
    pattern: &Pattern,
    steps: &mut Steps<L>,
) -> Result<Option<usize>, OutOfMemory>
    requires { dataset.old.staged ≡ None }
    ensures most { IfOk result
        (λ those. IfSome those (λ count. steps.new ≤ steps.old + count + 1)) }
    ensures least { IfOk result
        (λ those. IfSome those (λ count. steps.old + count ≤ steps.new)) }
    ensures same { dataset.new ≡ dataset.old }
{
    let found = dataset.matching(pattern, steps)?;
    let count = found.len();
    let those = are_those(found.as_slice(), all, pattern);
    drop(found);
    if those { Ok(Some(count)) } else { Ok(None) }
}

// Whether these are the lines of the quads that a walk finds.
fn are_lines(
    alloc: Global,
    lines: &MadeLines,
    all: &[Quad],
    pattern: &Pattern,
) -> Result<bool, OutOfMemory> {
    let mut at = 0;
    let mut line = Vec::new(alloc);
    for quad in all {
        if fits_quad(pattern, quad) {
            line.clear();
            push_line(&mut line, quad)?;
            if at >= lines.len() || lines.line(at) != line.as_slice() {
                return Ok(false);
            }
            at += 1;
        }
    }
    Ok(at == lines.len())
}

// Whether the lines of what a walk finds are found.
fn finds_lines<L: Ledger>(
    alloc: Global,
    dataset: &mut Dataset,
    all: &[Quad],
    pattern: &Pattern,
    steps: &mut Steps<L>,
) -> Result<bool, OutOfMemory>
    requires { dataset.old.staged ≡ None }
    ensures { dataset.new ≡ dataset.old }
{
    let lines = dataset.matching_lines(pattern, steps)?;
    let those = are_lines(alloc, &lines, all, pattern);
    drop(lines);
    those
}

// Whether both find what a walk finds.
fn both_find<L: Ledger>(
    alloc: Global,
    dataset: &mut Dataset,
    all: &[Quad],
    pattern: &Pattern,
    steps: &mut Steps<L>,
) -> Result<bool, OutOfMemory>
    requires { dataset.old.staged ≡ None }
    ensures { dataset.new ≡ dataset.old }
{
    let found = finds(dataset, all, pattern, steps)?;
    Ok(found.is_some() && finds_lines(alloc, dataset, all, pattern, steps)?)
}

// What a walk finds is found.
fn is_found<L: Ledger>(
    rt: &impl Abort,
    alloc: Global,
    dataset: &mut Dataset,
    all: &[Quad],
    steps: &mut Steps<L>,
    mask: u8,
    graph: &str,
) -> Result<(), OutOfMemory>
    requires { dataset.old.staged ≡ None }
    ensures { dataset.new ≡ dataset.old }
{
    let mut pattern = Pattern {
        graph: GraphPart::Any,
        subject: None,
        predicate: None,
        object: None,
    };
    let found = match bind(rt, alloc, &mut pattern, mask, graph) {
        Ok(()) => both_find(alloc, dataset, all, &pattern, steps),
        Err(error) => Err(error),
    };
    drop(pattern);
    assert!(rt; found?, "at {mask} {graph}");
    Ok(())
}

// Each of the sixteen patterns finds what a walk does, in three graphs and in one without quads.
fn are_found<L: Ledger>(
    rt: &impl Abort,
    alloc: Global,
    dataset: &mut Dataset,
    all: &[Quad],
    blank: Blank,
) -> Result<(), OutOfMemory>
    requires staged { dataset.old.staged ≡ None }
    requires name { blank.name ≡ L.name }
    requires parts { blank.parts ≡ L.parts }
    requires some { 0 < L.parts }
{
    let mut steps = Steps::<L>::new(blank);
    for mask in 0..16 {
        for graph in ["", "<a:g1>", "<a:g2>", "<a:g3>"] {
            is_found(rt, alloc, dataset, all, &mut steps, mask, graph)?;
        }
    }
    Ok(())
}

fn search(rt: &impl Abort, alloc: Global, dataset: &mut Dataset) -> Result<(), OutOfMemory>
    requires { dataset.old.staged ≡ None }
{
    fill(rt, alloc, dataset)?;
    let all = dataset.quads()?;
    assert!(rt; all.len() == 210);
    let found = are_found::<Brand>(rt, alloc, dataset, all.as_slice(), Blank::new(1));
    drop(all);
    found
}

fn searched(rt: &impl Abort, alloc: Global) -> Result<(), OutOfMemory> {
    let mut dataset = Dataset::new(alloc);
    let searched = search(rt, alloc, &mut dataset);
    drop(dataset);
    searched
}

#[test]
fn a_pattern_finds_what_a_walk_finds(rt: HostRuntime) -> Result<(), Fail> {
    if searched(&rt, rt.alloc()).is_err() {
        searched(&rt, rt.alloc())?;
    }
    Ok(())
}
