//! Lines sorted by where they leave one of them.
ghost use Rattle.std.specs.Prelude.{◌≡◌, ◌<◌, ◌≤◌, length, IsTrue};
ghost use Rattle.std.specs.List.Sorted.{IsSorted};
ghost use Rattle.line_order.specs.Moves.{AreMoved, RisesAt, lines_of};

use crate::sort::Line;

/// A line with room for a key.
#[derive(Clone, Copy)]
pub struct Keyed<T> {
    key: u64,
    pub line: T,
}

impl<T: Line> Keyed<T> {
    pub fn new(line: T) -> Keyed<T>
        ensures { result.line ≡ line }
    {
        Keyed { key: 0, line }
    }
}

// Fewer lines than this are compared with one another at once.
const FEW: usize = 16;

// So often lines are sorted by keys, before they are compared with one another. A run that has most
// of the lines has half of what is left of it.
const LEVELS: u32 = 64;

// The number of bytes in common takes one byte of a key where it is below this.
const FEW_ALIKE: usize = 126;

// Below this it takes three bytes of the key, and from here on five.
const MANY_ALIKE: usize = 65_536;

// No more bytes in common are counted.
const MOST_ALIKE: usize = 4_294_967_295;

// A line from a place on.
#[inline]
fn tail(line: &[u8], depth: usize) -> &[u8] {
    if line.len() < depth {
        return &line[..0];
    }
    &line[depth..]
}

// The first eight bytes of a text, the first as the highest, and zeroes behind its end.
#[inline]
fn first_bytes(text: &[u8]) -> u64 {
    if let [a, b, c, d, e, f, g, h, ..] = text {
        return u64::from_be_bytes([*a, *b, *c, *d, *e, *f, *g, *h]);
    }
    let mut bytes = [0u8; 8];
    for (to, from) in bytes.iter_mut().zip(text) {
        *to = *from;
    }
    u64::from_be_bytes(bytes)
}

// How many bytes of the one text stand in front of the other too.
#[inline]
fn alike(a: &[u8], b: &[u8]) -> usize
    ensures one { result ≤ length a.now }
    ensures other { result ≤ length b.now }
{
    let most = a.len().min(b.len());
    let mut size = 0;
    while most - size >= 256 && a[size..size + 256] == b[size..size + 256] {
        size += 256;
    }
    while most - size >= 8 {
        let unlike = first_bytes(&a[size..]) ^ first_bytes(&b[size..]);
        if unlike != 0 {
            return most.min(size + (unlike.leading_zeros() / 8) as usize);
        }
        size += 8;
    }
    while size < most && a[size] == b[size] {
        size += 1;
    }
    size
}

// How many bytes of a text stand in front of another one too, and the bytes from there. Of the
// texts below that one those are the lowest that leave it first, and of those above it the highest.
#[inline]
fn key_beside(text: &[u8], other: &[u8]) -> u64 {
    let size = alike(text, other).min(MOST_ALIKE);
    let (place, width) = if size < FEW_ALIKE {
        (size, 8)
    } else if size < MANY_ALIKE {
        ((FEW_ALIKE << 16) | size, 24)
    } else {
        ((127 << 32) | size, 40)
    };
    let is_above = size < MOST_ALIKE && text.get(size) > other.get(size);
    let place = if is_above {
        (1 << width) - 1 - place
    } else {
        place
    };
    ((place as u64) << (64 - width)) | (first_bytes(tail(text, size)) >> width)
}

// How many bytes those are alike in that have this key.
fn alike_by(key: u64) -> usize {
    let place = key.min(!key) as usize;
    let size = place >> 56;
    if size < FEW_ALIKE {
        size + 7
    } else if size == FEW_ALIKE {
        (place >> 40) % MANY_ALIKE + 5
    } else {
        (place >> 24) % (MOST_ALIKE + 1) + 3
    }
}

// Holds beside each line a key, by one in the middle of them.
fn write_keys<T: Line>(lines: &mut [Keyed<T>], depth: usize)
    requires { 0 < length lines.old }
    ensures { lines_of lines.new ≡ lines_of lines.old }
{
    let middle = lines[lines.len() / 2].line;
    let other = tail(middle.bytes(), depth);
    for keyed in lines.iter_mut() {
        keyed.key = key_beside(tail(keyed.line.bytes(), depth), other);
    }
}

// Where the run of lines ends that have the key of this one.
fn run_end<T: Line>(lines: &[Keyed<T>], start: usize) -> usize
    requires { start < length lines.now }
    ensures more { start < result }
    ensures within { result ≤ length lines.now }
{
    let key = lines[start].key;
    let mut end = start + 1;
    while end < lines.len() && lines[end].key == key {
        end += 1;
    }
    end
}

// How many levels a run of some of the lines has.
fn levels_left(levels: u32, run: usize, lines: usize) -> u32
    requires { 0 < levels }
    ensures { result < levels }
{
    if run > lines / 2 {
        levels / 2
    } else {
        levels - 1
    }
}

// Whether the line at a place is no less than the one before it, if there is one.
fn goes_on<T: Line>(lines: &[Keyed<T>], at: usize) -> bool
    requires { at < length lines.now }
    ensures { IsTrue result → RisesAt T.cmp (lines_of lines.now) at }
{
    at == 0 || !lines[at].line.cmp(&lines[at - 1].line).is_lt()
}

// Sorts lines that are alike before this place. Few of them are compared with one another. Of more
// each run is sorted by itself, and the answer is whether all were seen to go on with those before.
fn presort<T: Line>(lines: &mut [Keyed<T>], depth: usize, levels: u32) -> bool
    ensures moved { AreMoved lines.old lines.new }
    ensures rise { IsTrue result → IsSorted T.cmp (lines_of lines.new) }
{
    if lines.len() < FEW || levels == 0 || lines[0].line.bytes().len() <= depth {
        lines.sort_unstable_by_key(|keyed| keyed.line);
        return true;
    }
    write_keys(lines, depth);
    lines.sort_unstable_by_key(|keyed| keyed.key);
    let mut rises = true;
    let mut start = 0;
    while start < lines.len() {
        let end = run_end(lines, start);
        let next = depth.saturating_add(alike_by(lines[start].key));
        let left = levels_left(levels, end - start, lines.len());
        let run_rises = presort(&mut lines[start..end], next, left);
        rises = rises & run_rises & goes_on(lines, start);
        start = end;
    }
    rises
}

/// Sorts lines, without memory of its own.
pub fn sort_keyed<T: Line>(lines: &mut [Keyed<T>])
    ensures moved { AreMoved lines.old lines.new }
    ensures sorted { IsSorted T.cmp (lines_of lines.new) }
{
    if !presort(lines, 0, LEVELS) {
        lines.sort_unstable_by_key(|keyed| keyed.line);
    }
}
