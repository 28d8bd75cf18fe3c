// The run of the listing program, which several programs share.
#![tactic(auto)]

ghost use Rattle.std.specs.Prelude.{◌≡◌, ℕ, ◌≤◌, length, take, IfSome};
ghost use Rattle.records.specs.Words.{room};
ghost use Rattle.streams.specs.Streams.{Loses};
ghost use Rattle.listing_run.specs.Run.{AddsListing};

use admit::WORK_WORDS;
use std::io::{self, Read, Write};
use streams::read_full;

// Room for so many records.
const ROOM: usize = 4096;

// The most bytes of a listing of so many: 104 for a record, and 64 for the first and the last line.
const TEXT: usize = 426048;

// The functions below lend spaces that are large enough, so none of the tests turns a book away.
fn print_text<W: Write>(
    to: &mut W,
    book: &[u8],
    records: &mut [u32],
    work: &mut [u16],
    out: &mut [u8],
) -> io::Result<()>
    ensures { 8192 ≤ length work.old → length records.old ≤ 8192 → 426048 ≤ length out.old
        → AddsListing result (W.contents to.old) (W.contents to.new) book.now (room records.old) }
{
    if work.len() < WORK_WORDS {
        return Ok(());
    }
    if 2 * ROOM < records.len() {
        return Ok(());
    }
    if out.len() < TEXT {
        return Ok(());
    }
    let n = listing::put_text(book, records, work, out);
    tell::front(to, out, n)
}

fn print_into<W: Write>(
    to: &mut W,
    book: &[u8],
    records: &mut [u32],
    work: &mut [u16],
    out: &mut [u8; TEXT],
) -> io::Result<()>
    ensures { 8192 ≤ length work.old → length records.old ≤ 8192
        → AddsListing result (W.contents to.old) (W.contents to.new) book.now (room records.old) }
{
    print_text(to, book, records, work, out)
}

fn print_listing<W: Write>(
    to: &mut W,
    book: &[u8],
    records: &mut [u32],
    work: &mut [u16],
) -> io::Result<()>
    ensures { 8192 ≤ length work.old → length records.old ≤ 8192
        → AddsListing result (W.contents to.old) (W.contents to.new) book.now (room records.old) }
{
    let mut out = [0u8; TEXT];
    print_into(to, book, records, work, &mut out)
}

// Prints the listing of a book, with room for 4,096 records; or its refusal. After an error a part of it is printed.
pub fn print_book<W: Write>(to: &mut W, book: &[u8]) -> io::Result<()>
    ensures { AddsListing result (W.contents to.old) (W.contents to.new) book.now 4096 }
{
    let mut records = [0u32; 8192];
    let mut work = [0u16; 8192];
    print_listing(to, book, &mut records, &mut work)
}

// Reads a book, one byte more than a book can have at most, and prints its listing, with room for 4,096 records; or its refusal.
pub fn run<R: Read, W: Write>(input: &mut R, to: &mut W) -> io::Result<()>
    ensures listing { IfSome (R.remaining input.old)
        (λ xs. AddsListing result (W.contents to.old) (W.contents to.new) (take 65536 xs) 4096) }
    ensures loses { Loses (R.remaining input.old) (R.remaining input.new) }
{
    let mut book = [0u8; 65536];
    let n = read_full(input, &mut book)?;
    print_book(to, &book[..n])
}
