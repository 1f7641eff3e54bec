//! Lines in the order of their bytes.
use delta_base::OutOfMemory;
use line_order::sort_lines;
use std::alloc::Global;
use std::test::Fail;

// Whether these lines, which are in order, come into order from the last to the first.
fn sorts(alloc: Global, lines: &[&[u8]]) -> Result<bool, OutOfMemory> {
    let mut moved = Vec::new(alloc);
    for line in lines.iter().rev() {
        moved.push(*line)?;
    }
    sort_lines(alloc, &mut moved);
    Ok(moved.as_slice() == lines)
}

#[test]
fn short_lines_are_sorted(rt: HostRuntime) -> Result<(), Fail> {
    let lines: [&[u8]; 8] = [b"", b"\0", b"\0\0", b"a", b"a\0", b"ab", b"b", b"\xff"];
    assert!(rt; sorts(rt.alloc(), &lines)?);
    Ok(())
}

#[test]
fn lines_with_equal_fronts_are_sorted(rt: HostRuntime) -> Result<(), Fail> {
    let lines: [&[u8]; 18] = [
        b"<http://example.org/resource/10>",
        b"<http://example.org/resource/11>",
        b"<http://example.org/resource/12>",
        b"<http://example.org/resource/13>",
        b"<http://example.org/resource/14>",
        b"<http://example.org/resource/15>",
        b"<http://example.org/resource/16>",
        b"<http://example.org/resource/17>",
        b"<http://example.org/resource/18>",
        b"<http://example.org/resource/19>",
        b"<http://example.org/resource/1>",
        b"<http://example.org/resource/2>",
        b"<http://example.org/resource/3>",
        b"<http://example.org/resource/4>",
        b"<http://example.org/resource/5>",
        b"<http://example.org/resource/6>",
        b"<http://example.org/resource/>",
        b"<http://example.org/vocabulary#a>",
    ];
    assert!(rt; sorts(rt.alloc(), &lines)?);
    Ok(())
}

// A line that begins with so many bytes alike.
fn line_behind(alloc: Global, front: usize, rest: &[u8]) -> Result<Vec<u8>, OutOfMemory> {
    let mut line = Vec::new(alloc);
    line.resize(front, b'x')?;
    line.extend_from_slice(rest)?;
    Ok(line)
}

// Lines in their order, of which most have a front of one size, and some leave it at each eighth.
fn lines_with_front(alloc: Global, front: usize) -> Result<Vec<Vec<u8>>, OutOfMemory> {
    let mut lines = Vec::new(alloc);
    for eighths in 0..8 {
        let size = (front / 8).saturating_mul(eighths);
        lines.push(line_behind(alloc, size, b"")?)?;
        lines.push(line_behind(alloc, size, b"w")?)?;
    }
    for rest in [b"".as_slice(), b"\0", b"\0\0", b"\0\0\0\0\0\0\0\0", b"\0a"] {
        lines.push(line_behind(alloc, front, rest)?)?;
    }
    for digit in b'0'..=b'9' {
        lines.push(line_behind(alloc, front, &[digit])?)?;
        lines.push(line_behind(alloc, front, &[digit, digit])?)?;
    }
    for eighths in (0..8).rev() {
        let size = (front / 8).saturating_mul(eighths);
        lines.push(line_behind(alloc, size, b"y")?)?;
    }
    Ok(lines)
}

#[test]
fn lines_that_leave_a_front_are_sorted(rt: HostRuntime) -> Result<(), Fail> {
    for front in [8, 9, 126, 4_096, 70_000] {
        let lines = lines_with_front(rt.alloc(), front)?;
        let mut slices = Vec::new(rt.alloc());
        for line in &lines {
            slices.push(line.as_slice())?;
        }
        let is_sorted = sorts(rt.alloc(), &slices)?;
        drop(slices);
        drop(lines);
        assert!(rt; is_sorted);
    }
    Ok(())
}

#[test]
fn equal_lines_are_sorted(rt: HostRuntime) -> Result<(), Fail> {
    let mut lines = Vec::new(rt.alloc());
    for number in 0..60 {
        let line = if number % 3 == 0 {
            b"aaaaaaaab".as_slice()
        } else {
            b"aaaaaaaa".as_slice()
        };
        lines.push(line)?;
    }
    sort_lines(rt.alloc(), &mut lines);
    for at in 0..lines.len() {
        assert!(rt; (lines[at].len() == 8) == (at < 40));
    }
    Ok(())
}
