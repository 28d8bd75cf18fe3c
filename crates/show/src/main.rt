// Reads a rule book from standard input and shows it in plain form: its variables and groups on the first line, then a clause a line.
// A book that is refused gives one line: refused, the number, the place.
#![tactic(auto)]

use answer::Refusal;
use std::io::{self, Write};
use streams::read_full;

fn show_number<W: Write>(out: &mut W, number: i32) -> io::Result<()> {
    if number < 0 {
        out.write_all(b"-")?;
    }
    tell::put(out, number.unsigned_abs() as u64)
}

// Prints the numbers of a plain form: a line for the header's two, and one for each clause.
fn show_plain<W: Write>(out: &mut W, plain: &[i32]) -> io::Result<()> {
    let mut starts = true;
    for (k, number) in plain.iter().enumerate() {
        if !starts {
            tell::blank(out)?;
        }
        show_number(out, *number)?;
        // a clause's group may be 0, and so may the header's groups
        let ends = k == 1 || (1 < k && !starts && *number == 0);
        if ends {
            tell::end_line(out)?;
        }
        starts = ends;
    }
    Ok(())
}

fn show_answer<W: Write>(
    out: &mut W,
    answer: Result<usize, Refusal>,
    space: &[i32],
) -> io::Result<()> {
    match answer {
        Ok(count) => match space.get(..count) {
            Some(plain) => show_plain(out, plain),
            None => Ok(()),
        },
        Err(refusal) => tell::refused(out, refusal.cause.number(), refusal.place),
    }
}

fn show<W: Write>(out: &mut W, book: &[u8]) -> io::Result<()> {
    let mut space = [0i32; 32768];
    let answer = reader::read(book, &mut space);
    show_answer(out, answer, &space)
}

fn main(rt: HostRuntime) -> io::Result<()> {
    let mut book = [0u8; 65537];
    let n = read_full(&mut rt.reader(), &mut book)?;
    show(&mut io::writer(&rt), &book[..n])
}
