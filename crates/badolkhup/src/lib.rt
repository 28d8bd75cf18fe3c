// The calls of the engine for C, and for what can call C. include/badolkhup.h says of each what it takes, what it answers and what its spaces hold afterwards.
// A call here does one thing more than the call that it hands on to: it turns the answer into numbers.
#![tactic(auto)]

ghost use Rattle.std.specs.Prelude.{◌≡◌, List, ℕ, [], ◌∷◌, length, ◌-◌, min};
ghost use Rattle.answer.specs.Answer.{refused};
ghost use Rattle.answer.specs.Refusals.{answer_is};
ghost use Rattle.answer.specs.Space.{counted, laid, over};
ghost use Rattle.records.specs.Words.{room};
ghost use Rattle.book.specs.Check.{checking};
ghost use Rattle.reader.specs.Reads.{reads};
ghost use Rattle.writer.specs.Writes.{writes};
ghost use Rattle.text_reader.specs.FromText.{from_text};
ghost use Rattle.text_writer.specs.ToText.{to_text};
ghost use Rattle.ask.specs.Asks.{asked_is, asks, Asking};
ghost use Rattle.explain.specs.Explains.{within_is, explained_is, explains, Explaining};
ghost use Rattle.list.specs.Lists.{told, listed_is, lists, Listing};
ghost use Rattle.badolkhup.specs.Crossing.{blank, Crosses, Crossing};

use answer::Refusal;
use ask::Asked;
use book::Book;
use list::Listed;

// What a call answers where it does not refuse.
trait Values {
    ghost values: { Self → List ℕ };

    // How many values it has, the values, and zeros to the fourth number.
    fn numbers(self) -> [u64; 4]
        ensures { result ≡ over (length (values self) ∷ values self) blank };
}

impl Values for Book<'_> {
    ghost values = { λ book. book.variables ∷ book.groups ∷ book.clauses ∷ [] };

    fn numbers(self) -> [u64; 4] {
        [
            3,
            self.variables as u64,
            self.groups as u64,
            self.clauses as u64,
        ]
    }
}

// How many a call wrote.
impl Values for usize {
    ghost values = { λ count. count ∷ [] };

    fn numbers(self) -> [u64; 4] {
        [1, self as u64, 0, 0]
    }
}

// The explanation within a choice, or none.
impl Values for Option<u32> {
    ghost values = { within_is };

    fn numbers(self) -> [u64; 4] {
        match self {
            None => [0, 0, 0, 0],
            Some(groups) => [1, groups as u64, 0, 0],
        }
    }
}

impl Values for Listed {
    ghost values = { told };

    fn numbers(self) -> [u64; 4] {
        match self {
            Listed::Complete { records } => [2, records as u64, 1, 0],
            Listed::Stopped { records } => [2, records as u64, 0, 0],
        }
    }
}

// A refusal's one value is its place.
fn cross_refused(number: u8, place: usize, answer: &mut [u64; 4]) -> u32
    ensures { Crosses (refused number place) result answer.new }
{
    *answer = [1, place as u64, 0, 0];
    number as u32
}

// Turns an answer into numbers.
fn cross<V: Values>(answered: Result<V, Refusal>, answer: &mut [u64; 4]) -> u32
    ensures { Crosses (answer_is V.values answered) result answer.new }
{
    match answered {
        Ok(values) => {
            *answer = values.numbers();
            0
        }
        Err(refusal) => cross_refused(refusal.cause.number(), refusal.place, answer),
    }
}

// The same of the answer of ask, which is an enum of three cases and no `Result`, by document 01.
#[tactic(auto, unfolding(ask::specs::Asks::asked_is))]
fn cross_asked(asked: Asked, answer: &mut [u64; 4]) -> u32
    ensures { Crosses (asked_is asked) result answer.new }
{
    match asked {
        Asked::Consistent => cross(Ok(None), answer),
        Asked::Contradiction { clause } => cross(Ok(Some(clause as u32)), answer),
        Asked::Refused { number, place } => cross_refused(number, place, answer),
    }
}

#[unsafe(no_mangle)]
pub extern "C" fn badolkhup_check(book: &[u8], answer: &mut [u64; 4]) -> u32
    ensures { Crosses (checking book.now) result answer.new }
{
    cross(book::check(book), answer)
}

#[unsafe(no_mangle)]
pub extern "C" fn badolkhup_read(book: &[u8], out: &mut [i32], answer: &mut [u64; 4]) -> u32
    ensures { Crosses (counted (reads book.now (length out.old))) result answer.new
        × (out.new ≡ laid (reads book.now (length out.old)) out.old) }
{
    cross(reader::read(book, out), answer)
}

#[unsafe(no_mangle)]
pub extern "C" fn badolkhup_write(plain: &[i32], out: &mut [u8], answer: &mut [u64; 4]) -> u32
    ensures { Crosses (counted (writes plain.now (length out.old))) result answer.new
        × (out.new ≡ laid (writes plain.now (length out.old)) out.old) }
{
    cross(writer::write(plain, out), answer)
}

#[unsafe(no_mangle)]
pub extern "C" fn badolkhup_from_text(text: &[u8], out: &mut [u8], answer: &mut [u64; 4]) -> u32
    ensures { Crosses (counted (from_text text.now (length out.old))) result answer.new
        × (out.new ≡ laid (from_text text.now (length out.old)) out.old) }
{
    cross(text_reader::from_text(text, out), answer)
}

#[unsafe(no_mangle)]
pub extern "C" fn badolkhup_to_text(book: &[u8], out: &mut [u8], answer: &mut [u64; 4]) -> u32
    ensures { Crosses (counted (to_text book.now (length out.old))) result answer.new
        × (out.new ≡ laid (to_text book.now (length out.old)) out.old) }
{
    cross(text_writer::to_text(book, out), answer)
}

#[unsafe(no_mangle)]
pub extern "C" fn badolkhup_ask(
    book: &[u8],
    choice: u32,
    out: &mut [u8],
    work: &mut [u16],
    answer: &mut [u64; 4],
) -> u32
    ensures { Crossing asked_is
        (λ asked. Asking (asks book.now choice (length out.old) (length work.old)) choice asked
        out.old work.old out.new work.new)
        result answer.new }
{
    cross_asked(ask::ask(book, choice, out, work), answer)
}

#[unsafe(no_mangle)]
pub extern "C" fn badolkhup_explain(
    book: &[u8],
    choice: u32,
    work: &mut [u16],
    answer: &mut [u64; 4],
) -> u32
    ensures { Crossing explained_is
        (λ explained. Explaining (explains book.now choice (length work.old)) choice explained work.old work.new)
        result answer.new }
{
    cross(explain::explain(book, choice, work), answer)
}

#[unsafe(no_mangle)]
pub extern "C" fn badolkhup_round(
    book: &[u8],
    records: &mut [u32],
    count: usize,
    work: &mut [u16],
    answer: &mut [u64; 4],
) -> u32
    ensures { Crossing listed_is
        (λ listed. Listing (lists book.now records.old count (length work.old)) (min 1 (room records.old - count)) listed
        records.old count work.old records.new work.new)
        result answer.new }
{
    cross(list::round(book, records, count, work), answer)
}

#[unsafe(no_mangle)]
pub extern "C" fn badolkhup_list(
    book: &[u8],
    records: &mut [u32],
    count: usize,
    work: &mut [u16],
    answer: &mut [u64; 4],
) -> u32
    ensures { Crossing listed_is
        (λ listed. Listing (lists book.now records.old count (length work.old)) (room records.old - count) listed
        records.old count work.old records.new work.new)
        result answer.new }
{
    cross(list::list(book, records, count, work), answer)
}
