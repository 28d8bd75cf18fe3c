// The text of a listing, written into lent bytes. A call gives the place after what it wrote.
// Not by Display: its contract says what was written where `write!` answers Ok, and not that it does; the calls here cannot fail, and write every byte that they ensure.
#![tactic(auto)]

ghost use Rattle.std.specs.Prelude.{◌+◌, ◌*◌, ◌≤◌, ◌<◌, length};
ghost use Rattle.answer.specs.Space.{Wrote};
ghost use Rattle.choice.specs.Groups.{width};
ghost use Rattle.decimal.specs.Digits.{after, line};
ghost use Rattle.records.specs.Words.{room, record_is, records_of};
ghost use Rattle.report.specs.Text.{member, numbers, groups_of, set_text, groups_word, word_of, is_complete, record_line, record_lines, last_word, listing_text, refusal_text};

use records::{Kind, Record};

// How a listing ends: complete, or stopped for want of room.
#[derive(Clone, Copy)]
pub enum Ending {
    Complete,
    Stopped,
}

// A blank and the number of a group, counted from 0, if a set has it.
fn put_member(set: u32, group: u32, out: &mut [u8], at: usize) -> usize
    requires { (group < width) × (at + length (member set group) ≤ length out.old) }
    ensures { Wrote out.old at (member set group) out.new result }
{
    if choice::has(set, group) {
        return decimal::put_after(group as usize + 1, out, at);
    }
    at
}

// The groups of a set, rising.
fn put_groups(set: u32, out: &mut [u8], at: usize) -> usize
    requires { at + length (numbers (groups_of set)) ≤ length out.old }
    ensures { Wrote out.old at (numbers (groups_of set)) out.new result }
{
    let mut i = at;
    for group in 0..u32::BITS - set.leading_zeros() {
        i = put_member(set, group, out, i);
    }
    i
}

// A set: its groups, or none.
#[tactic(auto, unfolding(crate::specs::Text::set_text))]
fn put_set(set: u32, out: &mut [u8], at: usize) -> usize
    requires { at + length (set_text set) ≤ length out.old }
    ensures { Wrote out.old at (set_text set) out.new result }
{
    if set == 0 {
        return decimal::put_text(b" none", out, at);
    }
    put_groups(set, out, at)
}

fn put_kind(kind: Kind, out: &mut [u8], at: usize) -> usize
    requires { at + length (word_of kind) ≤ length out.old }
    ensures { Wrote out.old at (word_of kind) out.new result }
{
    match kind {
        Kind::Explanation => decimal::put_text(b"explain", out, at),
        Kind::Repair => decimal::put_text(b"repair", out, at),
    }
}

// The line of a record.
fn put_record(listed: Record, out: &mut [u8], at: usize) -> usize
    requires { at + 104 ≤ length out.old }
    ensures wrote { Wrote out.old at (record_line (record_is listed)) out.new result }
    ensures upper_bound { result ≤ at + 104 }
{
    let word = put_kind(listed.kind, out, at);
    let end = put_set(listed.set, out, word);
    decimal::put_byte(b'\n', out, end)
}

// A line of a word and some numbers.
fn put_line(word: &[u8], values: &[usize], out: &mut [u8], at: usize) -> usize
    requires { at + length word.now + 21 * length values.now < length out.old }
    ensures { Wrote out.old at (line word.now (numbers values.now)) out.new result }
{
    let mut i = decimal::put_text(word, out, at);
    for value in values {
        i = decimal::put_after(*value, out, i);
    }
    decimal::put_byte(b'\n', out, i)
}

// The first line of a listing: the header's groups.
#[tactic(auto, using(crate::proofs::Lines::numbers_one))]
fn put_header(groups: u16, out: &mut [u8], at: usize) -> usize
    requires { at + 32 ≤ length out.old }
    ensures { Wrote out.old at (line groups_word (after groups)) out.new result }
{
    put_line(b"groups", &[groups as usize], out, at)
}

// The last line of a listing: complete or stopped, and the record count.
#[tactic(auto, using(crate::proofs::Lines::numbers_one))]
fn put_last(ending: Ending, count: usize, out: &mut [u8], at: usize) -> usize
    requires { at + 32 ≤ length out.old }
    ensures { Wrote out.old at (line (last_word (is_complete ending)) (after count)) out.new result }
{
    match ending {
        Ending::Complete => put_line(b"complete", &[count], out, at),
        Ending::Stopped => put_line(b"stopped", &[count], out, at),
    }
}

// The line of a refusal.
#[tactic(auto, using(crate::proofs::Lines::numbers_two), unfolding(crate::specs::Text::refusal_text))]
pub fn put_refusal(number: u8, place: usize, out: &mut [u8], at: usize) -> usize
    requires { at + 64 ≤ length out.old }
    ensures { Wrote out.old at (refusal_text number place) out.new result }
{
    put_line(b"refused", &[number as usize, place], out, at)
}

// The lines of the first records. Their count goes beside the words: the words are the caller's, and how wide a record is, only `records` knows.
fn put_records(records: &[u32], count: usize, out: &mut [u8], at: usize) -> usize
    requires { (count ≤ room records.now) × (at + 104 * count ≤ length out.old) }
    ensures wrote { Wrote out.old at (record_lines (records_of records.now count)) out.new result }
    ensures upper_bound { result ≤ at + 104 * count }
{
    let mut i = at;
    for k in 0..count {
        i = put_record(records::record_at(records, k), out, i);
    }
    i
}

// A listing of which the first records are written: the header's groups, the records, and how it ends.
pub fn put_listing(
    groups: u16,
    records: &[u32],
    count: usize,
    ending: Ending,
    out: &mut [u8],
) -> usize
    requires { (count ≤ room records.now) × (104 * count + 64 ≤ length out.old) }
    ensures { Wrote out.old 0 (listing_text groups (records_of records.now count) (is_complete ending)) out.new result }
{
    let first = put_header(groups, out, 0);
    let last = put_records(records, count, out, first);
    put_last(ending, count, out, last)
}
