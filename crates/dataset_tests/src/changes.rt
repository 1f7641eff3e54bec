//! Changes, copied and listed.
use delta_base::{Listing, OutOfMemory, Text};
use rdf_terms::{Change, Changes, Iri, Term, TermFault};
use std::alloc::Global;
use std::test::Fail;

fn text(alloc: Global, s: &str) -> Result<Text, OutOfMemory> {
    Ok(Text::from_string(String::from_str(alloc, s)?))
}

fn prefix_add(alloc: Global) -> Result<Change, TermFault> {
    let prefix = text(alloc, "ex")?;
    let iri = Iri::new(text(alloc, "http://e/")?)?;
    let graph = Term::Iri(Iri::new(text(alloc, "http://e/g")?)?);
    Ok(Change::PrefixAdd {
        prefix,
        iri,
        graph: Some(graph),
    })
}

#[test]
fn a_change_is_copied_whole(rt: HostRuntime) -> Result<(), Fail> {
    let change = prefix_add(rt.alloc())?;
    let copy = change.copy();
    drop(change);
    let copy = copy?;
    match &copy {
        Change::PrefixAdd { prefix, iri, graph } => {
            assert!(rt; prefix.as_str() == "ex");
            assert!(rt; iri.as_bytes() == b"http://e/".as_slice());
            assert!(rt; graph.is_some());
        }
        _ => assert!(rt; false, "another change"),
    }
    drop(copy);
    Ok(())
}

#[test]
fn changes_are_listed(rt: HostRuntime) -> Result<(), Fail> {
    let mut changes: Changes = Listing::new(rt.alloc());
    changes.reserve(1)?;
    if let Err(back) = changes.push(Change::Begin) {
        drop(back);
        return Err(Fail::from("no room"));
    }
    assert!(rt; matches!(changes.get(0), Some(Change::Begin)));
    drop(changes);
    Ok(())
}
