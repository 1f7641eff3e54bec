//! The prefixes of a zone, its quads by pattern, and its dump.
ghost use Rattle.std.specs.Prelude.{◌≡◌, ◌<◌};

use dataset_tx::{GraphPart, Pattern};
use disk_model::PlanDisk;
use nquads_documents::print_document;
use nquads_text::read_term;
use quad_index::Steps;
use rdf_terms::Change;
use std::alloc::Global;
use std::marker::Brand;
use std::sync::ledger::{Blank, Ledger};
use std::test::Fail;
use zone_state::Zone;

// Whether a change sets this prefix of the default graph to this IRI.
fn sets(change: &Change, wanted: (&str, &str)) -> bool {
    match change {
        Change::PrefixAdd {
            prefix,
            iri,
            graph: None,
        } => prefix.as_str() == wanted.0 && iri.as_bytes() == wanted.1.as_bytes(),
        _ => false,
    }
}

/// Whether a zone has these prefixes, in this order.
pub fn has_prefixes(zone: &Zone<PlanDisk>, wanted: &[(&str, &str)]) -> Result<bool, Fail> {
    let found = zone.prefixes()?;
    let same = found.len() == wanted.len()
        && found
            .as_slice()
            .iter()
            .zip(wanted)
            .all(|(change, wanted)| sets(change, *wanted));
    drop(found);
    Ok(same)
}

// The pattern of an object in the default graph.
fn pattern_of(alloc: Global, object: &[u8]) -> Result<Pattern, Fail> {
    match read_term(alloc, object, 0) {
        Ok((object, _)) => Ok(Pattern {
            graph: GraphPart::Default,
            subject: None,
            predicate: None,
            object: Some(object),
        }),
        Err(_) => Err(Fail::from("no term")),
    }
}

// How many quads a zone has with this object.
fn found_with<L: Ledger>(
    alloc: Global,
    zone: &mut Zone<PlanDisk>,
    object: &[u8],
    blank: Blank,
) -> Result<usize, Fail>
    requires name { blank.name ≡ L.name }
    requires parts { blank.parts ≡ L.parts }
    requires some { 0 < L.parts }
{
    let pattern = pattern_of(alloc, object)?;
    let mut steps = Steps::<L>::new(blank);
    let found = zone.matching(&pattern, &mut steps);
    drop(pattern);
    let found = found?;
    let count = found.len();
    drop(found);
    Ok(count)
}

/// The same, by steps of its own.
pub fn finds(alloc: Global, zone: &mut Zone<PlanDisk>, object: &[u8]) -> Result<usize, Fail> {
    found_with::<Brand>(alloc, zone, object, Blank::new(1))
}

/// Whether the dump of a zone, printed, is this document.
pub fn dumps(alloc: Global, zone: &Zone<PlanDisk>, document: &str) -> Result<bool, Fail> {
    let quads = zone.dump()?;
    let printed = print_document(alloc, &quads);
    drop(quads);
    let text = printed?;
    let same = text.as_str() == document;
    drop(text);
    Ok(same)
}

/// Whether a zone has these lines.
pub fn has_lines(zone: &Zone<PlanDisk>, lines: &[&str]) -> Result<bool, Fail> {
    let found = zone.lines()?;
    let mut same = found.len() == lines.len();
    for at in 0..found.len() {
        same = same
            && lines
                .get(at)
                .is_some_and(|line| found.line(at) == line.as_bytes());
    }
    drop(found);
    Ok(same)
}
