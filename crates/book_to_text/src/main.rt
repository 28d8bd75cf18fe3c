// Reads a rule book from standard input and writes it as group CNF text. A book that is refused gives one line: refused, the number, the place.
#![tactic(auto)]

use std::io::{self, Write};
use streams::read_full;

// The longest text of a book has 186,242 bytes (docs/INTEGRATING.md), so that the space is never too small.
fn convert<W: Write>(out: &mut W, book: &[u8]) -> io::Result<()> {
    let mut text = [0u8; 262144];
    let answer = text_writer::to_text(book, &mut text);
    tell::told(out, answer, &text)
}

// One byte more than a book can have at most, so that a longer one is refused.
fn main(rt: HostRuntime) -> io::Result<()> {
    let mut book = [0u8; 65536];
    let n = read_full(&mut rt.reader(), &mut book)?;
    convert(&mut io::writer(&rt), &book[..n])
}
