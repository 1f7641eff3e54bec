//! What the edits of a log come to.
use delta_base::OutOfMemory;
use line_log::LineLog;
use std::alloc::Global;
use std::test::Fail;

// Adds the lines behind a plus, and takes out those behind a minus.
fn push_all(log: &mut LineLog, edits: &[&str]) -> Result<(), OutOfMemory> {
    for edit in edits {
        if let [sign, line @ ..] = edit.as_bytes() {
            log.push(*sign == b'+', line)?;
        }
    }
    Ok(())
}

// Whether the edits make these lines.
fn comes_to(log: LineLog, lines: &[&str]) -> Result<bool, OutOfMemory> {
    let made = log.into_lines()?;
    if made.len() != lines.len() || made.is_empty() != lines.is_empty() {
        return Ok(false);
    }
    for at in 0..made.len() {
        if made.line(at) != lines[at].as_bytes() {
            return Ok(false);
        }
    }
    Ok(true)
}

#[test]
fn no_edits_make_no_lines(rt: HostRuntime) -> Result<(), Fail> {
    let log = LineLog::new(rt.alloc());
    assert!(rt; log.is_empty());
    assert!(rt; comes_to(log, &[])?);
    Ok(())
}

#[test]
fn the_last_edit_of_a_line_decides(rt: HostRuntime) -> Result<(), Fail> {
    let mut log = LineLog::new(rt.alloc());
    push_all(
        &mut log,
        &[
            "+c\n", "+a\n", "-c\n", "+b\n", "+a\n", "-d\n", "+c\n", "-b\n",
        ],
    )?;
    assert!(rt; comes_to(log, &["a\n", "c\n"])?);
    Ok(())
}

#[test]
fn edits_go_on_behind_those_that_were_let_go(rt: HostRuntime) -> Result<(), Fail> {
    let mut log = LineLog::new(rt.alloc());
    push_all(&mut log, &["+aa\n", "+b\n", "-aa\n", "+c\n"])?;
    log.truncate(2);
    assert!(rt; log.len() == 2);
    push_all(&mut log, &["+d\n"])?;
    assert!(rt; comes_to(log, &["aa\n", "b\n", "d\n"])?);
    Ok(())
}

#[test]
fn a_log_that_was_settled_goes_on(rt: HostRuntime) -> Result<(), Fail> {
    let mut log = LineLog::new(rt.alloc());
    push_all(&mut log, &["+b\n", "+a\n", "-b\n", "+c\n", "+a\n"])?;
    log.settle()?;
    assert!(rt; log.len() == 2);
    push_all(&mut log, &["-a\n", "+b\n"])?;
    assert!(rt; comes_to(log, &["b\n", "c\n"])?);
    Ok(())
}

// Whether edits of which the first ones were settled come to these lines, settled and as they are.
fn goes_on(
    alloc: Global,
    first: &[&str],
    second: &[&str],
    lines: &[&str],
) -> Result<bool, OutOfMemory> {
    let mut log = LineLog::new(alloc);
    push_all(&mut log, first)?;
    log.settle()?;
    push_all(&mut log, second)?;
    log.settle()?;
    let is_settled = log.len() == lines.len();
    push_all(&mut log, second)?;
    let comes = comes_to(log, lines)?;
    Ok(is_settled && comes)
}

#[test]
fn settled_lines_go_and_come_again(rt: HostRuntime) -> Result<(), Fail> {
    let first = ["+b", "+d", "+f", "+a"];
    let nothing: [&str; 0] = [];
    assert!(rt; goes_on(rt.alloc(), &first, &nothing, &["a", "b", "d", "f"])?);
    assert!(rt; goes_on(rt.alloc(), &first, &["-b", "+b"], &["a", "b", "d", "f"])?);
    assert!(rt; goes_on(rt.alloc(), &first, &["-b", "+b", "-b"], &["a", "d", "f"])?);
    assert!(rt;
        goes_on(
            rt.alloc(),
            &first,
            &["+f", "-f", "-a", "+c", "+d"],
            &["b", "c", "d"]
        )?
    );
    assert!(rt;
        goes_on(
            rt.alloc(),
            &first,
            &["+g", "+", "+e", "-e"],
            &["", "a", "b", "d", "f", "g"]
        )?
    );
    assert!(rt; goes_on(rt.alloc(), &first, &["-f", "-d", "-b", "-a"], &nothing)?);
    assert!(rt; goes_on(rt.alloc(), &nothing, &["+b", "+a", "-b"], &["a"])?);
    Ok(())
}
