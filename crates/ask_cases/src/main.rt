// Runs the cases that stand on standard input through ask, and prints a line for each. tests/make_ask_cases.py makes them, with the lines that
// they must give, from an implementation of its own; it says there how a case is laid out.
#![tactic(auto)]

use ask::Asked;
use case_io::Number;
use std::io::{self, Read, Write};

fn tell<W: Write>(to: &mut W, answer: Asked) -> io::Result<()> {
    match answer {
        Asked::Consistent => to.write_all(b"consistent"),
        Asked::Contradiction { clause } => {
            to.write_all(b"contradiction")?;
            case_io::put(to, clause as u64)
        }
        Asked::Refused { number, place } => case_io::tell_refused(to, number, place),
    }
}

// The call on spaces of the case's own sizes: its answer, and the whole of both spaces after it.
fn run_ask<W: Write>(
    to: &mut W,
    book: &[u8],
    choice: u32,
    out: &mut [u8],
    work: &mut [u16],
) -> io::Result<()> {
    case_io::fill(out);
    case_io::fill(work);
    tell(to, ask::ask(book, choice, out, work))?;
    case_io::put(to, case_io::sum(out))?;
    case_io::put(to, case_io::sum(work))?;
    tell::end_line(to)
}

// What a case says before its book: how many bytes that has, the choice, and how much of each space is lent.
#[derive(Clone, Copy)]
struct Case {
    len: usize,
    choice: u32,
    room: usize,
    words: usize,
}

fn next_case<R: Read>(input: &mut R) -> io::Result<Case> {
    Ok(Case {
        len: u32::next(input)? as usize,
        choice: u32::next(input)?,
        room: u16::next(input)? as usize,
        words: u16::next(input)? as usize,
    })
}

// A case that asks for more than the program's own spaces have runs no call.
fn run_book<W: Write>(to: &mut W, case: Case, book: &[u8]) -> io::Result<()> {
    let mut out = [0u8; 1100];
    let mut work = [0u16; 8300];
    if out.len() < case.room || work.len() < case.words {
        return Ok(());
    }
    run_ask(
        to,
        book,
        case.choice,
        &mut out[..case.room],
        &mut work[..case.words],
    )
}

fn run_case<R: Read, W: Write>(input: &mut R, to: &mut W) -> io::Result<()> {
    let case = next_case(input)?;
    let mut bytes = [0u8; 65600];
    case_io::take_runs(input, case.len, &mut bytes)?;
    match bytes.get(..case.len) {
        Some(book) => run_book(to, case, book),
        None => Ok(()),
    }
}

fn run_cases<R: Read, W: Write>(input: &mut R, to: &mut W) -> io::Result<()> {
    for _ in 0..case_io::MOST_CASES {
        if u8::next(input)? == 0 {
            return Ok(());
        }
        run_case(input, to)?;
    }
    Ok(())
}

fn main(rt: HostRuntime) -> io::Result<()> {
    run_cases(&mut rt.reader(), &mut io::writer(&rt))
}
