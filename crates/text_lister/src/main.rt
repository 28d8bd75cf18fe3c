// Reads group CNF text from standard input and prints the listing of its book, as lister does. A text that is refused gives one line: refused, the number, the line.
#![tactic(auto)]

use answer::Refusal;
use std::io::{self, Write};
use tell::TEXT_ROOM;

fn print_listing<W: Write>(
    out: &mut W,
    answer: Result<usize, Refusal>,
    space: &[u8],
) -> io::Result<()> {
    match answer {
        Ok(count) => match space.get(..count) {
            Some(book) => listing_run::print_book(out, book),
            None => Ok(()),
        },
        Err(refusal) => tell::refused(out, refusal.cause.number(), refusal.place),
    }
}

fn list<W: Write>(out: &mut W, text: &[u8]) -> io::Result<()> {
    let mut book = [0u8; 65535];
    let answer = text_reader::from_text(text, &mut book);
    print_listing(out, answer, &book)
}

fn run(rt: &(impl Input + Print + Eprint), text: &mut [u8; TEXT_ROOM]) -> io::Result<()> {
    match tell::read_text(&mut rt.reader(), rt, text)? {
        Some(n) => list(&mut io::writer(rt), &text[..n]),
        None => Ok(()),
    }
}

fn main(rt: HostRuntime) -> io::Result<()> {
    let mut text = [0u8; TEXT_ROOM];
    run(&rt, &mut text)
}
