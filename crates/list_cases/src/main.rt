// Runs the cases that stand on standard input through explain, round and list, and prints a line for each. tests/make_list_cases.py makes them,
// with the lines that they must give, from an implementation of its own; it says there how a case is laid out.
#![tactic(auto)]

use answer::Refusal;
use case_io::Number;
use list::Listed;
use std::io::{self, Read, Write};

fn tell_explained<W: Write>(to: &mut W, answer: Result<Option<u32>, Refusal>) -> io::Result<()> {
    match answer {
        Ok(None) => to.write_all(b"consistent"),
        Ok(Some(groups)) => {
            to.write_all(b"explanation")?;
            case_io::put(to, groups as u64)
        }
        Err(refusal) => case_io::tell_refused(to, refusal.cause.number(), refusal.place),
    }
}

fn tell_listed<W: Write>(to: &mut W, answer: Result<Listed, Refusal>) -> io::Result<()> {
    match answer {
        Ok(Listed::Complete { records }) => {
            to.write_all(b"complete")?;
            case_io::put(to, records as u64)
        }
        Ok(Listed::Stopped { records }) => {
            to.write_all(b"stopped")?;
            case_io::put(to, records as u64)
        }
        Err(refusal) => case_io::tell_refused(to, refusal.cause.number(), refusal.place),
    }
}

// The call on spaces of the case's own sizes: its answer, and the whole of each space after it.
fn run_explain<W: Write>(to: &mut W, book: &[u8], choice: u32, work: &mut [u16]) -> io::Result<()> {
    case_io::fill(work);
    tell_explained(to, explain::explain(book, choice, work))?;
    case_io::put(to, case_io::sum(work))?;
    tell::end_line(to)
}

fn run_listing<
    W: Write,
    F: FnOnce(&[u8], &mut [u32], usize, &mut [u16]) -> Result<Listed, Refusal>,
>(
    to: &mut W,
    call: F,
    book: &[u8],
    records: &mut [u32],
    count: usize,
    work: &mut [u16],
) -> io::Result<()>
    requires { F.IsAlwaysCallable call }
{
    case_io::fill(work);
    tell_listed(to, call(book, records, count, work))?;
    case_io::put(to, case_io::sum(records))?;
    case_io::put(to, case_io::sum(work))?;
    tell::end_line(to)
}

// What is left of a case of explain, and its run.
fn explain_case<R: Read, W: Write>(
    input: &mut R,
    to: &mut W,
    len: usize,
    work: &mut [u16],
) -> io::Result<()> {
    let choice = u32::next(input)?;
    let mut bytes = [0u8; 65600];
    case_io::take_runs(input, len, &mut bytes)?;
    match bytes.get(..len) {
        Some(book) => run_explain(to, book, choice, work),
        None => Ok(()),
    }
}

// What is left of a case of round or list, and its run. The records that the case gives stand first, and after them what stands in lent space before a
// call.
fn listing_case<
    R: Read,
    W: Write,
    F: FnOnce(&[u8], &mut [u32], usize, &mut [u16]) -> Result<Listed, Refusal> + Drop,
>(input: &mut R, to: &mut W, call: F, len: usize, work: &mut [u16]) -> io::Result<()>
    requires { F.IsAlwaysCallable call }
{
    let count = u64::next(input)? as usize;
    let room = u16::next(input)? as usize;
    let given = u16::next(input)? as usize;
    let mut records = [0u32; 1100];
    case_io::fill(&mut records);
    case_io::take_records(input, given, &mut records)?;
    let mut bytes = [0u8; 65600];
    case_io::take_runs(input, len, &mut bytes)?;
    if bytes.len() < len || records.len() < room {
        return Ok(());
    }
    run_listing(to, call, &bytes[..len], &mut records[..room], count, work)
}

// The call of a case.
#[derive(Clone, Copy)]
enum Call {
    Explain,
    Round,
    List,
}

// The next call; none at the end of the cases.
fn next_call<R: Read>(input: &mut R) -> io::Result<Option<Call>> {
    Ok(match u8::next(input)? {
        0 => None,
        5 => Some(Call::Explain),
        6 => Some(Call::Round),
        _ => Some(Call::List),
    })
}

// A case that asks for more than the program's own spaces have runs no call.
fn run_case<R: Read, W: Write>(input: &mut R, to: &mut W, call: Call) -> io::Result<()> {
    let len = u32::next(input)? as usize;
    let words = u16::next(input)? as usize;
    let mut work = [0u16; 8300];
    if work.len() < words {
        return Ok(());
    }
    let work = &mut work[..words];
    match call {
        Call::Explain => explain_case(input, to, len, work),
        Call::Round => listing_case(input, to, list::round, len, work),
        Call::List => listing_case(input, to, list::list, len, work),
    }
}

// Each program of cases has this loop, since each has calls of its own: one in case_io would take a closure over both streams, and be no shorter.
fn run_cases<R: Read, W: Write>(input: &mut R, to: &mut W) -> io::Result<()> {
    for _ in 0..case_io::MOST_CASES {
        match next_call(input)? {
            Some(call) => run_case(input, to, call)?,
            None => return Ok(()),
        }
    }
    Ok(())
}

fn main(rt: HostRuntime) -> io::Result<()> {
    run_cases(&mut rt.reader(), &mut io::writer(&rt))
}
