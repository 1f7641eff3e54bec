//! Races that end by themselves: no number is lost, and each pass has its own.
use crate::race::race;
use std::test::Fail;

#[test]
fn two_threads_add_their_numbers(rt: HostRuntime) -> Result<(), Fail> {
    let numbers = race(&rt, rt.alloc(), 2, 500)?;
    assert_eq!(rt; numbers.len(), 1000);
    assert_eq!(rt; numbers.count_by(1), 500);
    assert_eq!(rt; numbers.count_by(2), 500);
    Ok(())
}

#[test]
fn four_threads_add_their_numbers(rt: HostRuntime) -> Result<(), Fail> {
    let numbers = race(&rt, rt.alloc(), 4, 250)?;
    assert_eq!(rt; numbers.len(), 1000);
    for pass in 1..=4 {
        assert_eq!(rt; numbers.count_by(pass), 250);
    }
    Ok(())
}
