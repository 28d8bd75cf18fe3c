// Reads group CNF text from standard input and writes its book. A text that is refused gives one line: refused, the number, the line.
#![tactic(auto)]

use std::io::{self, Write};
use tell::TEXT_ROOM;

fn convert<W: Write>(out: &mut W, text: &[u8]) -> io::Result<()> {
    let mut book = [0u8; 65535];
    let answer = text_reader::from_text(text, &mut book);
    tell::told(out, answer, &book)
}

fn run(rt: &(impl Input + Print + Eprint), text: &mut [u8; TEXT_ROOM]) -> io::Result<()> {
    match tell::read_text(&mut rt.reader(), rt, text)? {
        Some(n) => convert(&mut io::writer(rt), &text[..n]),
        None => Ok(()),
    }
}

fn main(rt: HostRuntime) -> io::Result<()> {
    let mut text = [0u8; TEXT_ROOM];
    run(&rt, &mut text)
}
