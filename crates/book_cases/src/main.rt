// Runs the cases that stand on standard input through check, read and write, and prints a line for each. tests/make_cases.py makes them, with
// the lines that they must give, from an implementation of its own; it says there how a case is laid out.
#![tactic(auto)]

use answer::Refusal;
use book::Book;
use case_io::Number;
use std::io::{self, Read, Write};

fn tell_written<W: Write>(to: &mut W, answer: Result<usize, Refusal>) -> io::Result<()> {
    match answer {
        Ok(count) => {
            to.write_all(b"count")?;
            case_io::put(to, count as u64)
        }
        Err(refusal) => case_io::tell_refused(to, refusal.cause.number(), refusal.place),
    }
}

fn tell_checked<W: Write>(to: &mut W, answer: Result<Book<'_>, Refusal>) -> io::Result<()> {
    match answer {
        Ok(book) => {
            to.write_all(b"book")?;
            case_io::put(to, book.variables as u64)?;
            case_io::put(to, book.groups as u64)?;
            case_io::put(to, book.clauses as u64)
        }
        Err(refusal) => case_io::tell_refused(to, refusal.cause.number(), refusal.place),
    }
}

fn run_check<W: Write>(to: &mut W, book: &[u8]) -> io::Result<()> {
    tell_checked(to, book::check(book))?;
    tell::end_line(to)
}

fn run_read<W: Write>(to: &mut W, book: &[u8], out: &mut [i32]) -> io::Result<()> {
    case_io::fill(out);
    tell_written(to, reader::read(book, out))?;
    case_io::put(to, case_io::sum(out))?;
    tell::end_line(to)
}

fn run_write<W: Write>(to: &mut W, plain: &[i32], out: &mut [u8]) -> io::Result<()> {
    case_io::fill(out);
    tell_written(to, writer::write(plain, out))?;
    case_io::put(to, case_io::sum(out))?;
    tell::end_line(to)
}

// The call of a case.
#[derive(Clone, Copy)]
enum Call {
    Check,
    Read,
    Write,
}

// What a case says before its input: the call, how many elements the input has, and how many the lent space.
#[derive(Clone, Copy)]
struct Case {
    call: Call,
    len: usize,
    room: usize,
}

// The next call; none at the end of the cases.
fn next_call<R: Read>(input: &mut R) -> io::Result<Option<Call>> {
    Ok(match u8::next(input)? {
        0 => None,
        1 => Some(Call::Check),
        3 => Some(Call::Write),
        _ => Some(Call::Read),
    })
}

fn next_case<R: Read>(input: &mut R, call: Call) -> io::Result<Case> {
    Ok(Case {
        call,
        len: u32::next(input)? as usize,
        room: u32::next(input)? as usize,
    })
}

// A case that asks for more than the program's own spaces have runs no call.
fn case_of_bytes<R: Read, W: Write>(input: &mut R, to: &mut W, case: Case) -> io::Result<()> {
    let mut bytes = [0u8; 65600];
    let mut space = [0i32; 80000];
    case_io::take_runs(input, case.len, &mut bytes)?;
    if bytes.len() < case.len || space.len() < case.room {
        return Ok(());
    }
    let book = &bytes[..case.len];
    match case.call {
        Call::Check => run_check(to, book),
        _ => run_read(to, book, &mut space[..case.room]),
    }
}

fn case_of_numbers<R: Read, W: Write>(input: &mut R, to: &mut W, case: Case) -> io::Result<()> {
    let mut plain = [0i32; 80000];
    let mut space = [0u8; 70000];
    case_io::take_runs(input, case.len, &mut plain)?;
    if plain.len() < case.len || space.len() < case.room {
        return Ok(());
    }
    run_write(to, &plain[..case.len], &mut space[..case.room])
}

fn run_case<R: Read, W: Write>(input: &mut R, to: &mut W, call: Call) -> io::Result<()> {
    let case = next_case(input, call)?;
    match case.call {
        Call::Write => case_of_numbers(input, to, case),
        _ => case_of_bytes(input, to, case),
    }
}

// Each program of cases has this loop, since each has calls of its own: one in case_io would take a closure over both streams, and be no shorter.
fn run_cases<R: Read, W: Write>(input: &mut R, to: &mut W) -> io::Result<()> {
    for _ in 0..case_io::MOST_CASES {
        match next_call(input)? {
            Some(call) => run_case(input, to, call)?,
            None => return Ok(()),
        }
    }
    Ok(())
}

fn main(rt: HostRuntime) -> io::Result<()> {
    run_cases(&mut rt.reader(), &mut io::writer(&rt))
}
