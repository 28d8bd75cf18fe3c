// What programs print of an answer: what was written, or the refusal. And the text that they read, unless it is longer than they take.
// After an error of a function that prints, a part of what it was to print is printed, from the first byte on.
#![tactic(auto)]

ghost use Rattle.std.specs.Prelude.{◌≡◌, ◌≤◌, ◌<◌, ◌↔◌, ◌∷◌, [], length, take, IfOk, IfSome, MatchOption, OnErr, IsTrue};
ghost use Rattle.decimal.specs.Digits.{number};
ghost use Rattle.report.specs.Text.{refusal_text};
ghost use Rattle.streams.specs.Streams.{Loses, Prints};
ghost use Rattle.tell.specs.Told.{front_of, answer_of};

use answer::Refusal;
use std::io::{self, Read, Write};
use streams::{read_full, write_full};

pub fn blank<W: Write>(out: &mut W) -> io::Result<()>
    ensures { Prints result (W.contents out.old) (W.contents out.new) (32 ∷ []) }
{
    write_full(out, b" ")
}

pub fn end_line<W: Write>(out: &mut W) -> io::Result<()>
    ensures { Prints result (W.contents out.old) (W.contents out.new) (10 ∷ []) }
{
    write_full(out, b"\n")
}

pub fn put<W: Write>(out: &mut W, n: u64) -> io::Result<()>
    ensures { Prints result (W.contents out.old) (W.contents out.new) (number n) }
{
    let mut digits = [0u8; 20];
    let end = decimal::put_number(n as usize, &mut digits, 0);
    front(out, &digits, end)
}

// One line: refused, the number, the place. It takes any number, as the line does (`refusal_text`), and not only those that a `Cause` has.
pub fn refused<W: Write>(out: &mut W, number: u8, place: usize) -> io::Result<()>
    ensures { Prints result (W.contents out.old) (W.contents out.new) (refusal_text number place) }
{
    let mut line = [0u8; 64];
    let end = report::put_refusal(number, place, &mut line, 0);
    front(out, &line, end)
}

// The first bytes of a space; none where it is too short for them.
pub fn front<W: Write>(out: &mut W, space: &[u8], n: usize) -> io::Result<()>
    ensures { Prints result (W.contents out.old) (W.contents out.new) (front_of space.now n) }
{
    if space.len() < n {
        return Ok(());
    }
    write_full(out, &space[..n])
}

// The bytes that a call wrote into the front of a space, or its refusal.
pub fn told<W: Write>(out: &mut W, answer: Result<usize, Refusal>, space: &[u8]) -> io::Result<()>
    ensures { Prints result (W.contents out.old) (W.contents out.new) (answer_of answer space.now) }
{
    match answer {
        Ok(count) => front(out, space, count),
        Err(refusal) => refused(out, refusal.cause.number(), refusal.place),
    }
}

// The most bytes of a text that a program takes.
const MOST_TEXT: usize = 524288;

// Whether a text of so many bytes is longer than that; then it says so on standard error. An error comes only there.
pub fn too_long(rt: &impl Eprint, n: usize) -> io::Result<bool>
    ensures ok { IfOk result (λ long. IsTrue long ↔ (524288 < n)) }
    ensures err { OnErr result (524288 < n) }
{
    if n <= MOST_TEXT {
        return Ok(false);
    }
    eprintln!(rt; "text longer than 524288 bytes")?;
    Ok(true)
}

// Room for one byte more, so that a longer text is seen to be too long.
pub const TEXT_ROOM: usize = MOST_TEXT + 1;

// Reads a text into the front of a space, and says how many bytes it has; none where it is longer than programs take, which is then said on standard error.
// At an error too, bytes are taken from the front of the input alone.
pub fn read_text<R: Read>(
    input: &mut R,
    rt: &impl Eprint,
    text: &mut [u8; TEXT_ROOM],
) -> io::Result<Option<usize>>
    ensures within { IfOk result (λ n. IfSome n (λ len. len ≤ 524288)) }
    ensures whole { IfOk result (λ n. IfSome (R.remaining input.old)
        (λ xs. MatchOption n (524288 < length xs) (λ len. take len text.new ≡ xs))) }
    ensures loses { Loses (R.remaining input.old) (R.remaining input.new) }
{
    let n = read_full(input, text)?;
    if too_long(rt, n)? {
        return Ok(None);
    }
    Ok(Some(n))
}
