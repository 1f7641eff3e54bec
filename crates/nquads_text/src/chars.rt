ghost use Rattle.std.specs.Prelude.{◌≡◌, ◌≤◌, ◌<◌, ◌+◌, length, drop, IfOk, IfErr};
ghost use Rattle.nquads_text.specs.Fault.{Gives, IsFault};
ghost use Rattle.nquads_text.specs.Grammar.{is_line_end as ends_line};
ghost use Rattle.nquads_text.specs.Reading.{char_at as char_of, digit_at as digit_of};
ghost use Rattle.nquads_text.specs.Reading.{four_digits_at as four_digits_of};
ghost use Rattle.nquads_text.specs.Reading.{eight_digits_at as eight_digits_of};
ghost use Rattle.nquads_text.specs.Reading.{code_at as code_of, uchar_at as uchar_of};

use crate::fault::{ReadFault, TextKind};

/// Whether the character ends a line.
pub fn is_line_end(c: char) -> bool
    ensures { result ≡ ends_line c }
{
    c == '\n' || c == '\r'
}

/// The character of any length at a place, and the place behind it.
#[tactic(auto, unfolding(crate::specs::Reading::char_at))]
fn long_char_at(text: &[u8], at: usize) -> Result<(char, usize), ReadFault>
    requires { at < length text.now }
    ensures gives { Gives text.now (λ c. c) result (char_of (drop at text.now)) }
    ensures further { IfOk result (λ x. at < x.1) }
    ensures sure { IfErr result IsFault }
{
    let (_, rest) = text.split_at(at);
    let (char, size) = bstr::decode_utf8(rest);
    match char {
        None => Err(ReadFault::At {
            at,
            kind: TextKind::NotUtf8,
        }),
        Some(c) => Ok((c, at + size)),
    }
}

/// The character at a place, and the place behind it.
#[tactic(auto, using(crate::proofs::Fronts::char_ends, crate::proofs::Fronts::char_ascii))]
pub fn char_at(text: &[u8], at: usize) -> Result<(char, usize), ReadFault>
    requires { at ≤ length text.now }
    ensures gives { Gives text.now (λ c. c) result (char_of (drop at text.now)) }
    ensures further { IfOk result (λ x. at < x.1) }
    ensures sure { IfErr result IsFault }
{
    if at == text.len() {
        return Err(ReadFault::At {
            at,
            kind: TextKind::Truncated,
        });
    }
    let b = text[at];
    if b < 128 {
        return Ok((char::from(b), at + 1));
    }
    long_char_at(text, at)
}

/// A hexadecimal digit of the escape that begins at `start`.
#[tactic(auto, unfolding(crate::specs::Reading::digit_at))]
fn digit_at(text: &[u8], start: usize, at: usize) -> Result<(u32, usize), ReadFault>
    requires begins { start ≤ length text.now }
    requires within { at ≤ length text.now }
    ensures gives { Gives text.now (λ n. n) result
        (digit_of (drop start text.now) (drop at text.now)) }
    ensures small { IfOk result (λ x. x.0 < 16) }
    ensures further { IfOk result (λ x. at < x.1) }
{
    let (c, next) = char_at(text, at)?;
    match c.to_digit(16) {
        Some(digit) => Ok((digit, next)),
        None => Err(ReadFault::At {
            at: start,
            kind: TextKind::BadEscape,
        }),
    }
}

#[tactic(auto, unfolding(crate::specs::Reading::four_digits_at))]
fn four_digits_at(text: &[u8], start: usize, at: usize) -> Result<(u32, usize), ReadFault>
    requires begins { start ≤ length text.now }
    requires within { at ≤ length text.now }
    ensures gives { Gives text.now (λ n. n) result
        (four_digits_of (drop start text.now) (drop at text.now)) }
    ensures small { IfOk result (λ x. x.0 < 65536) }
    ensures further { IfOk result (λ x. at < x.1) }
{
    let (a, next) = digit_at(text, start, at)?;
    let (b, next) = digit_at(text, start, next)?;
    let (c, next) = digit_at(text, start, next)?;
    let (d, next) = digit_at(text, start, next)?;
    Ok((4096 * a + 256 * b + 16 * c + d, next))
}

#[tactic(auto, unfolding(crate::specs::Reading::eight_digits_at))]
fn eight_digits_at(text: &[u8], start: usize, at: usize) -> Result<(u32, usize), ReadFault>
    requires begins { start ≤ length text.now }
    requires within { at ≤ length text.now }
    ensures gives { Gives text.now (λ n. n) result
        (eight_digits_of (drop start text.now) (drop at text.now)) }
    ensures further { IfOk result (λ x. at < x.1) }
{
    let (high, next) = four_digits_at(text, start, at)?;
    let (low, next) = four_digits_at(text, start, next)?;
    Ok((65536 * high + low, next))
}

/// The number of the digits behind the letter of a UCHAR.
#[tactic(auto, unfolding(crate::specs::Reading::code_at))]
fn code_at(text: &[u8], start: usize, letter: char, at: usize) -> Result<(u32, usize), ReadFault>
    requires begins { start ≤ length text.now }
    requires within { at ≤ length text.now }
    ensures gives { Gives text.now (λ n. n) result
        (code_of (drop start text.now) letter (drop at text.now)) }
    ensures further { IfOk result (λ x. at < x.1) }
{
    match letter {
        'u' => four_digits_at(text, start, at),
        'U' => eight_digits_at(text, start, at),
        _ => Err(ReadFault::At {
            at: start,
            kind: TextKind::BadEscape,
        }),
    }
}

/// UCHAR ::= '\u' HEX HEX HEX HEX | '\U' HEX HEX HEX HEX HEX HEX HEX HEX
///
/// The character that a UCHAR names. Its backslash is at `start`, and what follows that at `at`.
#[tactic(auto, unfolding(crate::specs::Reading::uchar_at))]
pub fn uchar_at(text: &[u8], start: usize, at: usize) -> Result<(char, usize), ReadFault>
    requires begins { start ≤ length text.now }
    requires within { at ≤ length text.now }
    ensures gives { Gives text.now (λ c. c) result
        (uchar_of (drop start text.now) (drop at text.now)) }
    ensures further { IfOk result (λ x. at < x.1) }
{
    let (letter, next) = char_at(text, at)?;
    let (code, next) = code_at(text, start, letter, next)?;
    match char::from_u32(code) {
        Some(c) => Ok((c, next)),
        None => Err(ReadFault::At {
            at: start,
            kind: TextKind::BadEscape,
        }),
    }
}
