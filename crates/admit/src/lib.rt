// What stands before every call on a book and a choice: the book's refusals, and 10; and the working space, cleared.
#![tactic(auto)]

ghost use Rattle.std.specs.Prelude.{◌≡◌, ◌≤◌, length, replicate, IfOk, IfSome};
ghost use Rattle.answer.specs.Refusals.{answer_is};
ghost use Rattle.answer.specs.Space.{over};
ghost use Rattle.book.specs.Clauses.{meant};
ghost use Rattle.admit.specs.Admits.{lacking as lacking', found_number, admits};

use answer::{Cause, Refusal};
use book::{Book, MOST_GROUPS};

// How many words of working space a call needs.
pub const WORK_WORDS: usize = 8192;

// The lowest group that the choice names and a book of so many groups lacks.
fn lacking(groups: u16, choice: u32) -> Option<u16>
    requires { groups ≤ 32 }
    ensures lowest { found_number result ≡ lacking' groups choice }
    ensures group { IfSome result (λ g. 1 ≤ g) }
{
    for g in groups..MOST_GROUPS {
        if choice::has(choice, g as u32) {
            return Some(g + 1);
        }
    }
    None
}

// Whether some bytes are a book that has every group of a choice: the book, or the refusal.
pub fn admit(bytes: &[u8], choice: u32) -> Result<Book<'_>, Refusal>
    ensures admitted { answer_is meant result ≡ admits bytes.now choice }
    ensures same { IfOk result (λ book. book.bytes ≡ bytes.entry) }
{
    let book = book::check(bytes)?;
    match lacking(book.groups, choice) {
        None => Ok(book),
        Some(group) => Err(Cause::GroupLacking.at(group as usize)),
    }
}

// The first n words become 0.
pub fn clear(work: &mut [u16], n: usize)
    requires { n ≤ length work.old }
    ensures { work.new ≡ over (replicate n 0) work.old }
{
    work[..n].fill(0);
}
