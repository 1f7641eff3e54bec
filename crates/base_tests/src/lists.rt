use delta_base::{Bytes, Listing, Text};
use std::process::Abort;
use std::test::Fail;

#[test]
fn a_list_pushes_into_places_that_are_ready(rt: HostRuntime) -> Result<(), Fail> {
    let mut list: Listing<u8> = Listing::new(rt.alloc());
    assert!(rt; list.is_empty());
    list.reserve(2)?;
    for item in [7, 8] {
        assert!(rt; list.push(item).is_ok());
    }
    assert!(rt; list.len() == 2);
    assert!(rt; list.get(1) == Some(&8));
    assert!(rt; list.get(2) == None);
    assert!(rt; list.pop() == Some(8));
    assert!(rt; list.as_slice() == [7].as_slice());
    assert!(rt; list.into_vec().as_slice() == [7].as_slice());
    Ok(())
}

fn text_is_copied(rt: &impl Abort, text: &Text) -> Result<(), Fail> {
    assert!(rt; text.len() == 2 && !text.is_empty());
    let copy = text.copy()?;
    assert!(rt; copy.as_str() == "é");
    Ok(())
}

fn bytes_are_copied(rt: &impl Abort, bytes: &Bytes) -> Result<(), Fail> {
    assert!(rt; bytes.len() == 3 && !bytes.is_empty());
    let copy = bytes.copy()?;
    assert!(rt; copy.as_slice() == b"xyz".as_slice());
    Ok(())
}

#[test]
fn texts_and_bytes_are_copied(rt: HostRuntime) -> Result<(), Fail> {
    text_is_copied(&rt, &Text::from_str(rt.alloc(), "é")?)?;
    let bytes = Bytes::from_vec(Vec::from_slice(rt.alloc(), b"xyz")?);
    bytes_are_copied(&rt, &bytes)?;
    assert!(rt; bytes.into_vec().as_slice() == b"xyz".as_slice());
    Ok(())
}
