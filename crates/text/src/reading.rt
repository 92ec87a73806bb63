// The program's text, read: lines "east north" in decimal, at most 512.

ghost use Rattle.std.specs.Prelude.{◌≡◌, ◌+◌, ◌≤◌, ◌<◌, ◌==◌, length, position, IfSome};
ghost use Rattle.rules.specs.Refusals.{output_after};
ghost use Rattle.rules.specs.Entries.{easts, norths, counted};
ghost use Rattle.rules.specs.Program.{samples as samples-of, unsigned, number, line, cut_at, newline};
ghost use Rattle.samples.specs.Answers.{answer_of};
ghost use Rattle.text.specs.Digits.{digits_after};
ghost use Rattle.text.specs.TextAnswers.{samples_answer, option_as, line_as, cut_as, first_as, next_line, Fit};

use samples::refusals::{Reason, Refusal};
use samples::streams::Stream;
use samples::tests::too_short;

// at most so many lines
const MOST_LINES: usize = 512;

// What the first line of a text gives: its sample, and the text after it.
#[derive(Clone, Copy)]
struct First<'a> {
    sample: Stream,
    rest: &'a [u8],
}

// The samples of a text at the front of the two outputs. The whole text is decided before anything is written, so that a refusal alters neither.
pub fn samples(text: &[u8], east: &mut [i32], north: &mut [i32]) -> Result<usize, Refusal>
    ensures answer { answer_of result ≡ counted (samples_answer text.now east.old north.old) }
    ensures east { east.new ≡ output_after easts (samples_answer text.now east.old north.old) east.old }
    ensures north { north.new ≡ output_after norths (samples_answer text.now east.old north.old) north.old }
{
    let count = decide(text)?;
    if too_short(east.len(), north.len(), count) {
        return Err(Reason::OutputShort.into());
    }
    write(text, count, east, north);
    Ok(count)
}

// How many samples a text has, or its refusal.
fn decide(text: &[u8]) -> Result<usize, Refusal>
    ensures { answer_of result ≡ counted (samples-of text.now) }
{
    let mut rest = text;
    for count in 0..MOST_LINES {
        if rest.is_empty() {
            return Ok(count);
        }
        let Some(first) = first_line(rest) else {
            return Err(Reason::BadText.at(count + 1));
        };
        rest = first.rest;
    }
    if rest.is_empty() {
        return Ok(MOST_LINES);
    }
    Err(Reason::TooMany.into())
}

// The samples of a good text, written. Such a text has no bad line.
fn write(text: &[u8], count: usize, east: &mut [i32], north: &mut [i32])
    requires { Fit text.now count east.old north.old }
    ensures east { east.new ≡ output_after easts (samples_answer text.now east.old north.old) east.old }
    ensures north { north.new ≡ output_after norths (samples_answer text.now east.old north.old) north.old }
{
    let mut rest = text;
    for i in 0..count {
        let first = first_line(rest).unwrap();
        east[i] = first.sample.east;
        north[i] = first.sample.north;
        rest = first.rest;
    }
}

// The first line of a text.
fn first_line(text: &[u8]) -> Option<First<'_>>
    ensures { first_as result ≡ next_line (cut_at newline text.now) }
{
    let (line, rest) = cut_at(text, b'\n')?;
    let sample = read_line(line)?;
    Some(First { sample, rest })
}

// "east north", one space.
fn read_line(s: &[u8]) -> Option<Stream>
    ensures { line_as result ≡ line s.now }
{
    let (east, north) = cut_at(s, b' ')?;
    let east = read_number(east)?;
    let north = read_number(north)?;
    Some(Stream { east, north })
}

// What stands before the first byte that equals b, and what after it.
fn cut_at(s: &[u8], b: u8) -> Option<(&[u8], &[u8])>
    ensures { cut_as s.now result ≡ cut_at b s.now }
{
    let place = place_of(s, b)?;
    Some((&s[..place], &s[place + 1..]))
}

// The first place that has the byte b.
fn place_of(s: &[u8], b: u8) -> Option<usize>
    ensures { result ≡ position (λ x. x == b) s.now }
{
    s.iter().position(|x| *x == b)
}

// An optional minus, then digits; no "-0".
fn read_number(s: &[u8]) -> Option<i32>
    ensures { option_as result ≡ number s.now }
{
    match s.strip_prefix(b"-") {
        Some(digits) => {
            let n = read_unsigned(digits)?;
            if n == 0 {
                return None;
            }
            Some(-(n as i32))
        }
        None => {
            let n = read_unsigned(s)?;
            Some(n as i32)
        }
    }
}

// 1 to 7 digits, no leading zero.
fn read_unsigned(s: &[u8]) -> Option<u32>
    ensures value { option_as result ≡ unsigned s.now }
    ensures small { IfSome result (λ n. n < 10000000) }
{
    if s.is_empty() {
        return None;
    }
    if 7 < s.len() {
        return None;
    }
    if 1 < s.len() && s[0] == b'0' {
        return None;
    }
    read_digits(s)
}

// The value of digits.
fn read_digits(s: &[u8]) -> Option<u32>
    requires { length s.now ≤ 7 }
    ensures value { option_as result ≡ digits_after 0 s.now }
    ensures small { IfSome result (λ n. n < 10000000) }
{
    let mut n: u32 = 0;
    for b in s {
        if !b.is_ascii_digit() {
            return None;
        }
        n = n * 10 + (b - b'0') as u32;
    }
    Some(n)
}
