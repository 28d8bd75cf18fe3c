// One round, and a listing to the end of the room: explanations and repairs of a book as records in lent words, which can be continued.
#![tactic(auto)]

ghost use Rattle.std.specs.Prelude.{◌≡◌, ◌-◌, ◌*◌, ◌^◌, ◌≤◌, ◌<◌, min, length, IfOk};
ghost use Rattle.answer.specs.Refusals.{answer_is};
ghost use Rattle.records.specs.Words.{record_words, room, fault};
ghost use Rattle.book.specs.Clauses.{meant};
ghost use Rattle.admit.specs.Admits.{work_words};
ghost use Rattle.list.specs.Lists.{opens, lists, Adds, Rounding, Listing};

use admit::WORK_WORDS;
use answer::{Cause, Refusal};
use book::Book;
use levels::Arrivals;
use lists::Layout;
use records::{Kind, Record};

// How many records stand in the words; complete where no seed remains.
#[derive(Clone, Copy, Debug, PartialEq, Eq)]
pub enum Listed {
    Complete { records: usize },
    Stopped { records: usize },
}

// Whether some bytes are a book and so many records of it can stand in the words: the book, or the refusal.
fn open<'a>(bytes: &'a [u8], records: &[u32], count: usize) -> Result<Book<'a>, Refusal>
    ensures opened { answer_is meant result ≡ opens bytes.now records.now count }
    ensures same { IfOk result (λ book. book.bytes ≡ bytes.entry) }
{
    let book = book::check(bytes)?;
    if records::room(records) < count {
        return Err(Cause::BadRecord.at(records.len()));
    }
    let place = records::fault(records, count, book.groups as u32);
    // Fewer whole records stand before a faulty word: the place lies before the end of the records.
    if records::room(&records[..place]) < count {
        return Err(Cause::BadRecord.at(place));
    }
    Ok(book)
}

// Writes what a seed yields as record i. What the working space holds does not matter, before and after.
fn add(book: &Book, choice: u32, records: &mut [u32], i: usize, work: &mut [u16])
    requires { (choice < 2 ^ book.now.groups) × (i < room records.old) × (work_words ≤ length work.old) }
    ensures { Adds (meant book.now) choice i records.old records.new }
{
    let listed = match explain::smallest_within(book, choice, work) {
        Some(set) => Record {
            kind: Kind::Explanation,
            set,
        },
        None => Record {
            kind: Kind::Repair,
            set: choice::all(book.groups as u32) - choice,
        },
    };
    records::put_record(records, i, listed);
}

// The variables from which no goal can be reached are left aside in all rounds of a call: they are found once, by the table of clauses.
fn leave_aside(book: &Book, work: &mut [u16])
    requires { work_words ≤ length work.old }
{
    table::lay(book, Arrivals { kept: 0, pool: 0 }, work);
    table::set_aside(book, work);
}

// Adds what the seeds yield, one record after the other, while a seed remains and fewer than `most` records stand there. The seeds are sought with what
// the explanations leave of the working space.
fn rounds(book: &Book, records: &mut [u32], count: usize, most: usize, work: &mut [u16]) -> Listed
    requires { (length work.old ≡ work_words) × (count ≤ most) × (most ≤ room records.old)
        × (fault book.now.groups records.old count ≡ record_words * count) }
    ensures { Rounding (meant book.now) (most - count) result records.old count records.new }
{
    leave_aside(book, work);
    let groups = book.groups as u32;
    let at = Layout::of(book).end();
    let mut written = count;
    let mut sought = seek::seek(records, written, groups, &mut work[at..]);
    while let Some(choice) = sought {
        if most <= written {
            return Listed::Stopped { records: written };
        }
        add(book, choice, records, written, work);
        written += 1;
        sought = seek::seek_below(records, written, groups, choice, &mut work[at..]);
    }
    Listed::Complete { records: written }
}

// At most so many rounds.
fn run(
    bytes: &[u8],
    records: &mut [u32],
    count: usize,
    most: usize,
    work: &mut [u16],
) -> Result<Listed, Refusal>
    ensures { Listing (lists bytes.now records.old count (length work.old)) (min most (room records.old - count)) result
        records.old count work.old records.new work.new }
{
    let book = open(bytes, records, count)?;
    if work.len() < WORK_WORDS {
        return Err(Cause::SpaceTooSmall.at(0));
    }
    let left = records::room(records) - count;
    let last = count + most.min(left);
    let listed = rounds(&book, records, count, last, &mut work[..WORK_WORDS]);
    admit::clear(work, WORK_WORDS);
    Ok(listed)
}

// One round: a record is added if a seed and room remain.
pub fn round(
    bytes: &[u8],
    records: &mut [u32],
    count: usize,
    work: &mut [u16],
) -> Result<Listed, Refusal>
    ensures { Listing (lists bytes.now records.old count (length work.old)) (min 1 (room records.old - count)) result
        records.old count work.old records.new work.new }
{
    run(bytes, records, count, 1, work)
}

// A listing to the end of the room.
pub fn list(
    bytes: &[u8],
    records: &mut [u32],
    count: usize,
    work: &mut [u16],
) -> Result<Listed, Refusal>
    ensures { Listing (lists bytes.now records.old count (length work.old)) (room records.old - count) result
        records.old count work.old records.new work.new }
{
    run(bytes, records, count, records::room(records), work)
}
