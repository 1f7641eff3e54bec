//! Tables of characters and of names.
use case_tables::{NameTable, RangeTable};

static GREEK: [(u32, u32); 3] = [(0x386, 0x386), (0x391, 0x3A1), (0x3A3, 0x3A9)];

static NO_RANGES: [(u32, u32); 0] = [];

/// Characters, and whether they are in a row of the table.
static CHARACTERS: [(char, bool); 13] = [
    ('\u{386}', true),
    ('\u{391}', true),
    ('\u{399}', true),
    ('\u{3A1}', true),
    ('\u{3A3}', true),
    ('\u{3A9}', true),
    ('\0', false),
    ('\u{385}', false),
    ('\u{387}', false),
    ('\u{390}', false),
    ('\u{3A2}', false),
    ('\u{3AA}', false),
    (char::MAX, false),
];

#[test]
fn a_row_reaches_from_its_first_to_its_last(rt: HostRuntime) {
    let greek = RangeTable::new(&GREEK);
    for (c, is_in) in CHARACTERS {
        assert!(rt; greek.contains(c) == is_in, "{c}");
    }
    assert!(rt; !RangeTable::new(&NO_RANGES).contains('a'));
}

static DAYS: [&str; 4] = ["mon", "tue", "mon", ""];

static NO_NAMES: [&str; 0] = [];

/// Names, and the first row that has each. A part of a name is another name.
static NAMES: [(&str, Option<usize>); 7] = [
    ("mon", Some(0)),
    ("tue", Some(1)),
    ("", Some(3)),
    ("mo", None),
    ("mond", None),
    ("Mon", None),
    ("wed", None),
];

#[test]
fn the_first_row_of_a_name_is_found(rt: HostRuntime) {
    let days = NameTable::<4>::new(&DAYS);
    for (name, row) in NAMES {
        assert!(rt; days.find(name.as_bytes()) == row, "at {name}");
    }
    assert!(rt; NameTable::<0>::new(&NO_NAMES).find(b"") == None);
}
