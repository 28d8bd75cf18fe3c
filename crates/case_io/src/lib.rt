// What the programs that run stored cases share: the parts of a case as they stand in the input, what stands in lent space before a call,
// a checksum of it after the call, and the parts of a line.
#![tactic(auto)]

ghost use Rattle.std.specs.Prelude.{◌≡◌, ℕ, ◌≤◌, ◌++◌, pos, length};
ghost use Rattle.std.specs.Int.{cast_unsigned, w32};
ghost use Rattle.decimal.specs.Digits.{after};
ghost use Rattle.report.specs.Text.{refused_word};
ghost use Rattle.streams.specs.Streams.{Loses, Prints};
ghost use Rattle.case_io.specs.Fill.{start_at, word_at, filled, one_more, checksum};

use std::io::{self, Read, Write};
use streams::{read_full, write_full};

// After an error of a function that prints, a part of what it was to print is printed, from the first byte on.
// A blank, and a number, in one write.
pub fn put<W: Write>(out: &mut W, n: u64) -> io::Result<()>
    ensures { Prints result (W.contents out.old) (W.contents out.new) (after n) }
{
    let mut text = [0u8; 21];
    let end = decimal::put_after(n as usize, &mut text, 0);
    tell::front(out, &text, end)
}

// It takes any number, as the line does (`refusal_text`), and not only those that a `Cause` has.
pub fn tell_refused<W: Write>(out: &mut W, number: u8, place: usize) -> io::Result<()>
    ensures { Prints result (W.contents out.old) (W.contents out.new) (refused_word ++ (after number ++ after place)) }
{
    write_full(out, b"refused")?;
    put(out, number as u64)?;
    put(out, place as u64)
}

// A function that reads takes bytes from the front of the input, at an error those that it read by then.
// The next N bytes; 0 for each behind the end.
fn next_bytes<R: Read, const N: usize>(input: &mut R) -> io::Result<[u8; N]>
    ensures { Loses (R.remaining input.old) (R.remaining input.new) }
{
    let mut bytes = [0u8; N];
    read_full(input, &mut bytes)?;
    Ok(bytes)
}

// A number as it stands in the input, the high byte first.
pub trait Number: Copy {
    fn next<R: Read>(input: &mut R) -> io::Result<Self>
        ensures { Loses (R.remaining input.old) (R.remaining input.new) };

    // The next numbers, as many as the space has room for. After an error some of them may stand there.
    fn next_all<R: Read>(input: &mut R, space: &mut [Self]) -> io::Result<()>
        ensures { Loses (R.remaining input.old) (R.remaining input.new) }
    {
        for place in space {
            *place = Self::next(input)?;
        }
        Ok(())
    }
}

impl Number for u8 {
    fn next<R: Read>(input: &mut R) -> io::Result<u8> {
        Ok(u8::from_be_bytes(next_bytes(input)?))
    }

    // In one read.
    fn next_all<R: Read>(input: &mut R, space: &mut [u8]) -> io::Result<()> {
        read_full(input, space)?;
        Ok(())
    }
}

impl Number for u16 {
    fn next<R: Read>(input: &mut R) -> io::Result<u16> {
        Ok(u16::from_be_bytes(next_bytes(input)?))
    }
}

impl Number for u32 {
    fn next<R: Read>(input: &mut R) -> io::Result<u32> {
        Ok(u32::from_be_bytes(next_bytes(input)?))
    }
}

// In two reads, each of which an end of the input ends.
impl Number for u64 {
    fn next<R: Read>(input: &mut R) -> io::Result<u64> {
        let high = u32::next(input)?;
        let low = u32::next(input)?;
        Ok(((high as u64) << 32) | low as u64)
    }
}

impl Number for i32 {
    fn next<R: Read>(input: &mut R) -> io::Result<i32> {
        Ok(i32::from_be_bytes(next_bytes(input)?))
    }
}

// The next numbers of four bytes into the front of a space; none where it is too short for them. After an error some of them may stand there.
pub fn take_records<R: Read>(input: &mut R, given: usize, records: &mut [u32]) -> io::Result<()>
    ensures { Loses (R.remaining input.old) (R.remaining input.new) }
{
    if records.len() < given {
        return Ok(());
    }
    u32::next_all(input, &mut records[..given])
}

// From `at` to `end`, as far as the space goes, what stands n places before.
fn repeat<T: Copy>(n: usize, at: usize, end: usize, space: &mut [T])
    requires { n ≤ at }
{
    for k in at..end.min(space.len()) {
        space[k] = space[k - n];
    }
}

// One run into a space from `at` on, a block and its copies: the place after it.
fn take_run<R: Read, T: Number>(input: &mut R, at: usize, space: &mut [T]) -> io::Result<usize>
    ensures { Loses (R.remaining input.old) (R.remaining input.new) }
{
    let total = u32::next(input)? as usize;
    let n = u16::next(input)? as usize;
    if 1000000 < at {
        return Ok(at);
    }
    let end = at + n;
    if space.len() < end {
        return Ok(end);
    }
    T::next_all(input, &mut space[at..end])?;
    let last = at + total;
    repeat(n, end, last, space);
    Ok(last)
}

// The most cases that a program runs.
pub const MOST_CASES: u32 = 100000;

// The most runs that are read of a space.
const MOST_RUNS: u32 = 100000;

// The next n numbers, which stand as runs, into a space. After an error some of them may stand there.
pub fn take_runs<R: Read, T: Number>(input: &mut R, n: usize, space: &mut [T]) -> io::Result<()>
    ensures { Loses (R.remaining input.old) (R.remaining input.new) }
{
    let mut at: usize = 0;
    for _ in 0..MOST_RUNS {
        if n <= at {
            return Ok(());
        }
        at = take_run(input, at, space)?;
    }
    Ok(())
}

// A number that stands in lent space.
pub trait Element: Number {
    // the number as a checksum takes it
    ghost value: { Self → ℕ };

    // what stands at a place before a call
    ghost start: { ℕ → Self };

    fn wide(self) -> u64
        ensures { result ≡ value self };

    fn before(k: usize) -> Self
        ensures { result ≡ start k };
}

impl Element for u8 {
    ghost value = { λ b. b };

    ghost start = { start_at };

    fn wide(self) -> u64 {
        self as u64
    }

    fn before(k: usize) -> u8 {
        ((k % 251 * 7 + 3) % 251) as u8
    }
}

impl Element for u16 {
    ghost value = { λ w. w };

    ghost start = { word_at };

    fn wide(self) -> u64 {
        self as u64
    }

    fn before(k: usize) -> u16 {
        ((k % 65535 * 7919 + 65534) % 65535 + 1) as u16
    }
}

impl Element for u32 {
    ghost value = { λ w. w };

    ghost start = { word_at };

    fn wide(self) -> u64 {
        self as u64
    }

    fn before(k: usize) -> u32 {
        u16::before(k) as u32
    }
}

// As a checksum takes it, a negative number counts 2 ^ 32 more.
impl Element for i32 {
    ghost value = { cast_unsigned w32 };

    ghost start = { λ k. pos (start_at k) };

    fn wide(self) -> u64 {
        self.cast_unsigned() as u64
    }

    fn before(k: usize) -> i32 {
        u8::before(k) as i32
    }
}

// What stands in lent space before a call.
pub fn fill<T: Element>(space: &mut [T])
    ensures { space.new ≡ filled T.start (length space.old) }
{
    for (k, place) in space.iter_mut().enumerate() {
        *place = T::before(k);
    }
}

// A checksum of lent space, by one element more.
pub fn added(sum: u64, e: u64) -> u64
    ensures { result ≡ one_more sum e }
{
    (sum % 65521 * 31 + e % 4294967296) % 65521
}

// A checksum of lent space after a call.
pub fn sum<T: Element>(space: &[T]) -> u64
    ensures { result ≡ checksum T.value space.now }
{
    space.iter().fold(1, |sum, e| added(sum, e.wide()))
}
