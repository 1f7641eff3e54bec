//! Ids of RFC 9562.
use delta_base::{Id, id_text, random_id, read_id};

const SAMPLE: Id = Id(0xf81d_4fae_7dec_11d0_a765_00a0_c91e_6bf6);

/// Texts, and the id that each is, if it is one.
static TEXTS: [(&str, Option<Id>); 9] = [
    ("f81d4fae7dec11d0a76500a0c91e6bf6", Some(SAMPLE)),
    ("F81D4FAE-7DEC-11D0-A765-00A0C91E6BF6", Some(SAMPLE)),
    ("{f81d4fae-7dec-11d0-a765-00a0c91e6bf6}", Some(SAMPLE)),
    (
        "urn:uuid:f81d4fae-7dec-11d0-a765-00a0c91e6bf6",
        Some(SAMPLE),
    ),
    // A text of another length is none, nor is one with other signs.
    ("", None),
    ("x", None),
    ("f81d4fae-7dec-11d0-a765-00a0c91e6bf", None),
    ("f81d4fae-7dec-11d0-a765-00a0c91e6bfg", None),
    ("f81d4fae_7dec_11d0_a765_00a0c91e6bf6", None),
];

#[test]
fn an_id_has_four_forms_and_is_printed_in_one(rt: HostRuntime) {
    for (text, id) in TEXTS {
        assert!(rt; read_id(text.as_bytes()) == id, "{text}");
    }
    // The id of version 4 that a random number makes, of RFC 9562, appendix A.3.
    let random = random_id(0x9191_08f7_52d1_f320_5bac_f847_db41_48a8);
    for (id, text) in [
        (SAMPLE, b"f81d4fae-7dec-11d0-a765-00a0c91e6bf6"),
        (random, b"919108f7-52d1-4320-9bac-f847db4148a8"),
    ] {
        assert!(rt; id_text(id).as_slice() == text.as_slice());
    }
}
