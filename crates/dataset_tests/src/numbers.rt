//! Terms get numbers, each once.
use crate::terms::term;
use delta_base::OutOfMemory;
use rdf_terms::Term;
use std::alloc::Global;
use std::process::Abort;
use std::test::Fail;
use term_table::{NumberFault, TermTable};

// Terms as they come, whether the table copies them, and their numbers.
const COMING: [(&str, bool, u32); 6] = [
    ("<a:b>", false, 1),
    ("\"a:b\"", true, 2),
    ("<a:b>", true, 1),
    ("\"a:b\"", false, 2),
    ("_:b", true, 3),
    ("\"a:b\"@en", false, 4),
];

// Whether the terms of numbers are IRIs, where there are such terms.
const KINDS: [(u32, Option<bool>); 6] = [
    (0, None),
    (1, Some(true)),
    (2, Some(false)),
    (3, Some(false)),
    (4, Some(false)),
    (5, None),
];

fn number(table: &mut TermTable, term: &Term, copies: bool) -> Result<u32, NumberFault> {
    if copies {
        return table.number_copy(term);
    }
    match term.copy() {
        Ok(copy) => table.number(copy),
        Err(_) => Err(NumberFault::OutOfMemory),
    }
}

// The term gets this number. Where memory is wanting, the table stays.
fn gets(rt: &impl Abort, table: &mut TermTable, term: &Term, copies: bool, wanted: u32) {
    let (len, found) = (table.len(), table.find(term));
    let mut given = number(table, term, copies);
    if given.is_err() {
        assert!(rt; given == Err(NumberFault::OutOfMemory));
        assert!(rt; table.len() == len);
        assert!(rt; table.find(term) == found);
        given = number(table, term, copies);
    }
    assert!(rt; given == Ok(wanted));
    assert!(rt; table.find(term) == Some(wanted));
}

fn has_no_number(rt: &impl Abort, table: &TermTable, term: &Term) {
    assert!(rt; table.find(term).is_none());
}

fn is_iri(table: &TermTable, number: u32) -> Option<bool> {
    Some(table.term(number)?.is_iri())
}

fn fill(rt: &impl Abort, alloc: Global, table: &mut TermTable) -> Result<(), OutOfMemory> {
    assert!(rt; table.is_empty());
    for (text, copies, wanted) in COMING {
        let term = term(rt, alloc, text)?;
        gets(rt, table, &term, copies, wanted);
        drop(term);
    }
    assert!(rt; table.len() == 4);
    for (number, kind) in KINDS {
        assert!(rt; is_iri(table, number) == kind);
    }
    let new = term(rt, alloc, "<a:c>")?;
    has_no_number(rt, table, &new);
    drop(new);
    Ok(())
}

fn filled(rt: &impl Abort, alloc: Global) -> Result<(), OutOfMemory> {
    let mut table = TermTable::new(alloc);
    let filled = fill(rt, alloc, &mut table);
    drop(table);
    filled
}

#[test]
fn terms_are_numbered_from_one_on(rt: HostRuntime) -> Result<(), Fail> {
    if filled(&rt, rt.alloc()).is_err() {
        filled(&rt, rt.alloc())?;
    }
    Ok(())
}
