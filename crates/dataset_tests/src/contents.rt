//! What datasets have, and how they are changed where memory may be wanting once.
ghost use Rattle.std.specs.Prelude.{◌≡◌, None, IsSome, OnOk, OnErr};

use dataset_tx::{DataFault, Dataset};
use delta_base::OutOfMemory;
use line_log::MadeLines;
use nquads_text::print_term;
use rdf_terms::{Change, Changes, Term};
use std::alloc::Global;
use std::process::Abort;

fn push_all(text: &mut Vec<u8>, lines: &MadeLines) -> Result<(), OutOfMemory> {
    for at in 0..lines.len() {
        text.extend_from_slice(lines.line(at))?;
    }
    Ok(())
}

fn push_lines(text: &mut Vec<u8>, dataset: &Dataset) -> Result<(), OutOfMemory>
    requires { dataset.now.staged ≡ None }
{
    let lines = dataset.lines()?;
    let pushed = push_all(text, &lines);
    drop(lines);
    pushed
}

fn push_graph(alloc: Global, text: &mut Vec<u8>, graph: &Term) -> Result<(), OutOfMemory> {
    let name = print_term(alloc, graph)?;
    text.push(b' ')?;
    text.extend_from_slice(name.as_bytes())?;
    Ok(())
}

// The prefix, its IRI, and its graph if that has a name.
fn push_setting(alloc: Global, text: &mut Vec<u8>, change: &Change) -> Result<(), OutOfMemory> {
    let Change::PrefixAdd { prefix, iri, graph } = change else {
        return Ok(());
    };
    text.extend_from_slice(prefix.as_bytes())?;
    text.push(b' ')?;
    text.extend_from_slice(iri.as_bytes())?;
    if let Some(graph) = graph {
        push_graph(alloc, text, graph)?;
    }
    text.push(b'\n')?;
    Ok(())
}

fn push_settings(alloc: Global, text: &mut Vec<u8>, changes: &[Change]) -> Result<(), OutOfMemory> {
    for change in changes {
        push_setting(alloc, text, change)?;
    }
    Ok(())
}

fn push_prefixes(alloc: Global, text: &mut Vec<u8>, dataset: &Dataset) -> Result<(), OutOfMemory>
    requires { dataset.now.staged ≡ None }
{
    let prefixes = dataset.prefixes()?;
    let pushed = push_settings(alloc, text, prefixes.as_slice());
    drop(prefixes);
    pushed
}

// Whether a text is these parts, one behind another.
fn is_joined(text: &[u8], parts: &[&str]) -> bool {
    let mut rest = text;
    for part in parts {
        let Some(behind) = rest.strip_prefix(part.as_bytes()) else {
            return false;
        };
        rest = behind;
    }
    rest.is_empty()
}

/// The dataset has these lines of quads and then of prefixes.
pub fn has(
    rt: &impl Abort,
    alloc: Global,
    dataset: &Dataset,
    lines: &[&str],
) -> Result<(), OutOfMemory>
    requires { dataset.now.staged ≡ None }
{
    let mut text = Vec::new(alloc);
    push_lines(&mut text, dataset)?;
    push_prefixes(alloc, &mut text, dataset)?;
    assert!(rt; is_joined(text.as_slice(), lines));
    Ok(())
}

/// Makes changes. Where memory is wanting the dataset has what it had, and a second try does.
pub fn make(
    rt: &impl Abort,
    alloc: Global,
    dataset: &mut Dataset,
    changes: &Changes,
    had: &[&str],
) -> Result<(), OutOfMemory>
    requires { dataset.old.staged ≡ None }
    ensures { dataset.new.staged ≡ None }
{
    match dataset.apply(changes) {
        Ok(()) => Ok(()),
        Err(fault) => {
            assert!(rt; fault == DataFault::OutOfMemory);
            has(rt, alloc, dataset, had)?;
            assert!(rt; dataset.apply(changes).is_ok());
            Ok(())
        }
    }
}

/// Stages changes. Where memory is wanting the dataset has what it had, and a second try does.
pub fn stage(
    rt: &impl Abort,
    alloc: Global,
    dataset: &mut Dataset,
    changes: &Changes,
    had: &[&str],
) -> Result<(), OutOfMemory>
    requires { dataset.old.staged ≡ None }
    ensures ok { OnOk result (IsSome dataset.new.staged) }
    ensures err { OnErr result (dataset.new.staged ≡ None) }
{
    match dataset.stage(changes) {
        Ok(()) => Ok(()),
        Err(fault) => {
            assert!(rt; fault == DataFault::OutOfMemory);
            has(rt, alloc, dataset, had)?;
            assert!(rt; dataset.stage(changes).is_ok());
            Ok(())
        }
    }
}
