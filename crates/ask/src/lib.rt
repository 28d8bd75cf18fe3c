// Asking about a choice of groups: which variables it forces, and whether it is consistent.
#![tactic(auto)]

ghost use Rattle.std.specs.Prelude.{◌≡◌, ◌≤◌, length, option_to_list};
ghost use Rattle.answer.specs.Refusals.{answer_is};
ghost use Rattle.answer.specs.Space.{over};
ghost use Rattle.meaning.specs.Forced.{forced_in, broken_in};
ghost use Rattle.meaning.specs.Marks.{Flags};
ghost use Rattle.book.specs.Clauses.{meant};
ghost use Rattle.marks.specs.Fits.{named};
ghost use Rattle.admit.specs.Admits.{zeros};
ghost use Rattle.ask.specs.Asks.{asked_is, asks, Told, Asking};

use admit::WORK_WORDS;
use answer::{Cause, Refusal};
use book::Book;

// What a call answers that asks about a choice: one of three things, as document 01 has it.
#[derive(Clone, Copy, Debug, PartialEq, Eq)]
pub enum Asked {
    Consistent,
    Contradiction { clause: u16 },
    Refused { number: u8, place: usize },
}

// By the lowest broken goal, if there is one, or the refusal.
impl From<Result<Option<u16>, Refusal>> for Asked {
    ghost from_gives = { λ found asked. asked_is asked ≡ answer_is option_to_list found };

    #[tactic(auto, unfolding(crate::specs::Asks::asked_is))]
    fn from(found: Result<Option<u16>, Refusal>) -> Asked {
        match found {
            Ok(None) => Asked::Consistent,
            Ok(Some(clause)) => Asked::Contradiction { clause },
            Err(refusal) => Asked::Refused {
                number: refusal.cause.number(),
                place: refusal.place,
            },
        }
    }
}

// Writes the marks as bytes.
fn put_forced(marks: &[u16], out: &mut [u8])
    requires { Flags marks.now × (length marks.now ≤ length out.old) }
    ensures { out.new ≡ over marks.now out.old }
{
    // by an index, since a proof knows nothing of elements that `iter_mut` hands on through `zip`
    for (i, mark) in marks.iter().enumerate() {
        out[i] = *mark as u8;
    }
}

// The lowest broken goal of a choice, with the forced variables written. Whatever the working space holds, it is cleared afterwards.
fn answer(book: &Book, choice: u32, out: &mut [u8], work: &mut [u16]) -> Option<u16>
    requires { (book.now.variables ≤ length out.old) × (8192 ≤ length work.old) }
    ensures goal { result ≡ named (broken_in (meant book.now) choice) }
    ensures forced { out.new ≡ over (forced_in (meant book.now) choice) out.old }
    ensures cleared { work.new ≡ over zeros work.old }
{
    let v = book.variables as usize;
    forcing::force(book, choice, work);
    let goal = marks::lowest_broken(book, choice, &work[..v]);
    put_forced(&work[..v], out);
    admit::clear(work, WORK_WORDS);
    goal
}

// The same of bytes that may be a book, or the refusal.
fn find_goal(
    bytes: &[u8],
    choice: u32,
    out: &mut [u8],
    work: &mut [u16],
) -> Result<Option<u16>, Refusal>
    ensures { Told (asks bytes.now choice (length out.old) (length work.old)) choice (answer_is option_to_list result)
        out.old work.old out.new work.new }
{
    let book = admit::admit(bytes, choice)?;
    if out.len() < book.variables as usize || work.len() < WORK_WORDS {
        return Err(Cause::SpaceTooSmall.at(0));
    }
    Ok(answer(&book, choice, out, work))
}

// Asks about a choice. A byte for each variable, 1 if it is forced and else 0, is written where the answer is no refusal.
pub fn ask(book: &[u8], choice: u32, out: &mut [u8], work: &mut [u16]) -> Asked
    ensures { Asking (asks book.now choice (length out.old) (length work.old)) choice result
        out.old work.old out.new work.new }
{
    Asked::from(find_goal(book, choice, out, work))
}
