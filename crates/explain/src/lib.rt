// Explaining a choice of groups: whether it is consistent, and else the smallest explanation within it. By insertion: the groups of the choice arrive
// from the lowest on; the first whose arrival breaks consistency is kept, and only the groups below it are left for the next pass.
#![tactic(auto)]

ghost use Rattle.std.specs.Prelude.{◌≡◌, ◌-◌, ◌≤◌, ◌<◌, ◌^◌, length, drop};
ghost use Rattle.answer.specs.Space.{over};
ghost use Rattle.book.specs.Bytes.{most_groups};
ghost use Rattle.book.specs.Clauses.{meant};
ghost use Rattle.admit.specs.Admits.{work_words, zeros};
ghost use Rattle.explain.specs.Explains.{transition as transition', explained, within_is, explains, Explaining};

use admit::WORK_WORDS;
use answer::{Cause, Refusal};
use book::{Book, MOST_GROUPS};
use levels::Arrivals;
use lists::Layout;
use queue::Until;

// The lowest group of the pool whose number is at least the level; 0 if there is none. A goal is broken from that level on, so it is the first group whose arrival
// breaks consistency. Document 01 fixes the form of this loop: the group comes out of it by `break`.
fn transition(pool: u32, level: u16) -> u16
    ensures { result ≡ transition' pool level }
{
    let mut g: u16 = 0;
    let group: u16 = loop {
        if MOST_GROUPS <= g {
            break 0;
        }
        let k = g as u32;
        g += 1;
        if choice::has(pool, k) {
            if level <= g {
                break g;
            }
        }
    };
    group
}

// What a group adds to a choice.
fn weight(group: u16) -> u32
    requires { (1 ≤ group) × (group ≤ most_groups) }
    ensures { result ≡ 2 ^ (group - 1) }
{
    choice::bit((group - 1) as u32)
}

// The smallest explanation within a choice, if it is not consistent. What the first words of the working space hold does not matter to it, before and after; the
// variables that they leave aside stay so.
pub fn smallest_within(book: &Book, choice: u32, work: &mut [u16]) -> Option<u32>
    requires { (choice < 2 ^ book.now.groups) × (work_words ≤ length work.old) }
    ensures { (within_is result ≡ explained (meant book.now) choice) × (drop work_words work.new ≡ drop work_words work.old) }
{
    let mut now = Arrivals {
        kept: 0,
        pool: choice,
    };
    table::lay(book, now, work);
    let mut level = queue::goal_level(book, now, Until::Goal, work);
    if book.groups < level {
        return None;
    }
    while level != 0 {
        let group = transition(now.pool, level);
        let w = weight(group);
        now = Arrivals {
            kept: now.kept + w,
            pool: now.pool % w,
        };
        queue::keep(Layout::of(book), group, work);
        level = queue::goal_level(book, now, Until::End, work);
    }
    Some(now.kept)
}

// The same for one choice alone: no variable is left aside, and the working space is cleared afterwards.
fn answer(book: &Book, choice: u32, work: &mut [u16]) -> Option<u32>
    requires { (choice < 2 ^ book.now.groups) × (work_words ≤ length work.old) }
    ensures { (within_is result ≡ explained (meant book.now) choice) × (work.new ≡ over zeros work.old) }
{
    Layout::of(book).leave_none_aside(work);
    let found = smallest_within(book, choice, work);
    admit::clear(work, WORK_WORDS);
    found
}

// Explains a choice: the smallest explanation within it, if it is not consistent; or the refusal.
pub fn explain(bytes: &[u8], choice: u32, work: &mut [u16]) -> Result<Option<u32>, Refusal>
    ensures { Explaining (explains bytes.now choice (length work.old)) choice result work.old work.new }
{
    let book = admit::admit(bytes, choice)?;
    if work.len() < WORK_WORDS {
        return Err(Cause::SpaceTooSmall.at(0));
    }
    Ok(answer(&book, choice, work))
}
