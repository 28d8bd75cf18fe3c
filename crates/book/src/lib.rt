// The reader of rule books: whether some bytes are one, and its clauses one after the other.
#![tactic(auto)]

ghost use Rattle.std.specs.Prelude.{◌≡◌, [], ◌∷◌, ◌-◌, ◌≤◌, length, drop, IfOk, OnOk};
ghost use Rattle.answer.specs.Answer.{answered, and_then, first};
ghost use Rattle.answer.specs.Refusals.{wrong_is, answer_is};
ghost use Rattle.field.specs.Field.{len, size};
ghost use Rattle.book.specs.Reading.{variables_of, groups_of, start_tests, shape_tests, number_tests, wrong_header, wrong_clause, wrong_field, fields};
ghost use Rattle.book.specs.Check.{checked_is, checking};

mod accepted;
mod first;
mod front;

pub use accepted::{Book, Clause, Clauses};
use answer::{Cause, Refusal};
pub use first::first_clause;
pub use front::{Front, front_of};

// The limits.
pub const MOST_BYTES: usize = 65535;

pub const MOST_VARIABLES: u16 = 1024;

pub const MOST_GROUPS: u16 = 32;

pub const MOST_CLAUSES: u16 = 2048;

pub const MOST_BODY: u16 = 32;

// A header's numbers.
#[derive(Clone, Copy)]
struct Header {
    variables: u16,
    groups: u16,
}

// Whether the field that stands first in `rest`, whatever it is, is right; else why not. The same below.
#[tactic(auto, unfolding(answer::specs::Answer::first, field::specs::Field::short))]
fn test_start(rest: &[u8]) -> Result<(), Cause>
    ensures wrong { wrong_is result ≡ first (start_tests rest.now) }
    ensures fits { OnOk result (size rest.now ≤ length rest.now) }
{
    if field::is_short(rest) {
        return Err(Cause::CutShort);
    }
    if 2 < rest[0] {
        return Err(Cause::UnknownTag);
    }
    Ok(())
}

// The first field of a book: its numbers.
#[tactic(auto, using(answer::proofs::Refusals::in_turn), unfolding(answer::specs::Answer::first, crate::specs::Reading::wrong_header))]
fn test_header(rest: &[u8]) -> Result<Header, Cause>
    ensures wrong { wrong_is result ≡ wrong_header rest.now }
    ensures header { IfOk result (λ header. (header.variables ≡ variables_of rest.now) × (header.groups ≡ groups_of rest.now)) }
{
    test_start(rest)?;
    if rest[0] != 1 {
        return Err(Cause::HeaderMisplaced);
    }
    if field::word_at(rest, 1) != 4 {
        return Err(Cause::BadLength);
    }
    let variables = field::word_at(rest, 3);
    let groups = field::word_at(rest, 5);
    if variables < 1 {
        return Err(Cause::OutOfRange);
    }
    if MOST_VARIABLES < variables {
        return Err(Cause::OutOfRange);
    }
    if MOST_GROUPS < groups {
        return Err(Cause::OutOfRange);
    }
    Ok(Header { variables, groups })
}

// Whether a clause's length is right, and the number of clauses with it.
#[tactic(auto, unfolding(answer::specs::Answer::first))]
fn test_shape(rest: &[u8], left: u16) -> Result<(), Cause>
    requires { size rest.now ≤ length rest.now }
    ensures { wrong_is result ≡ first (shape_tests left rest.now) }
{
    let n = field::word_at(rest, 1);
    if n < 4 {
        return Err(Cause::BadLength);
    }
    if n % 2 == 1 {
        return Err(Cause::BadLength);
    }
    if 68 < n {
        return Err(Cause::BadLength);
    }
    if left == 0 {
        return Err(Cause::TooManyClauses);
    }
    Ok(())
}

// A clause's numbers.
#[tactic(auto, unfolding(answer::specs::Answer::first))]
fn test_numbers(rest: &[u8], header: Header) -> Result<(), Cause>
    requires { (size rest.now ≤ length rest.now) × (4 ≤ len rest.now) }
    ensures { wrong_is result ≡ first (number_tests header.variables header.groups rest.now) }
{
    if header.groups < field::word_at(rest, 3) {
        return Err(Cause::OutOfRange);
    }
    if header.variables < field::word_at(rest, 5) {
        return Err(Cause::OutOfRange);
    }
    let end = field::size_of(rest);
    let body = &rest[7..end];
    // nearly all bodies are right: those have one pass
    if field::is_rising_to(body, header.variables) {
        return Ok(());
    }
    if !field::all_within(body, 1, header.variables) {
        return Err(Cause::OutOfRange);
    }
    Err(Cause::NotRising)
}

// A clause.
#[tactic(auto, using(answer::proofs::Refusals::in_turn, crate::proofs::Tests::shape_least), unfolding(crate::specs::Reading::wrong_clause))]
fn test_clause(rest: &[u8], header: Header, left: u16) -> Result<(), Cause>
    requires { size rest.now ≤ length rest.now }
    ensures { wrong_is result ≡ wrong_clause header.variables header.groups left rest.now }
{
    test_shape(rest, left)?;
    test_numbers(rest, header)
}

// A field after the header.
#[tactic(auto, using(answer::proofs::Refusals::in_turn), unfolding(answer::specs::Answer::first, crate::specs::Reading::wrong_field))]
fn test_field(rest: &[u8], header: Header, left: u16) -> Result<(), Cause>
    ensures wrong { wrong_is result ≡ wrong_field header.variables header.groups left rest.now }
    ensures fits { OnOk result (size rest.now ≤ length rest.now) }
{
    test_start(rest)?;
    match rest[0] {
        0 if field::word_at(rest, 1) != 0 => Err(Cause::BadLength),
        0 => Ok(()),
        1 => Err(Cause::HeaderMisplaced),
        _ => test_clause(rest, header, left),
    }
}

// Field by field after the header, which is seven bytes long. How many clauses there are.
fn count_clauses(bytes: &[u8], header: Header) -> Result<u16, Refusal>
    requires { (7 ≤ length bytes.now) × (length bytes.now ≤ 65535) }
    ensures { answer_is (λ n. n) result ≡ and_then (fields header.variables header.groups 2048 7 (drop 7 bytes.now)) (λ cs. answered (length cs)) }
{
    let mut rest = &bytes[7..];
    let mut place: usize = 7;
    let mut left = MOST_CLAUSES;
    loop {
        test_field(rest, header, left).map_err(|cause| cause.at(place))?;
        let size = field::size_of(rest);
        if rest[0] == 0 {
            if size < rest.len() {
                return Err(Cause::BytesAfterEnd.at(place + size));
            }
            return Ok(MOST_CLAUSES - left);
        }
        rest = &rest[size..];
        place += size;
        left -= 1;
    }
}

// Whether some bytes are a rule book: the book, or the refusal.
pub fn check(bytes: &[u8]) -> Result<Book<'_>, Refusal>
    ensures checked { checked_is result ≡ checking bytes.now }
    ensures same { IfOk result (λ book. book.bytes ≡ bytes.entry) }
{
    if MOST_BYTES < bytes.len() {
        return Err(Cause::TooLong.at(0));
    }
    let header = test_header(bytes).map_err(|cause| cause.at(0))?;
    let clauses = count_clauses(bytes, header)?;
    Ok(Book {
        bytes,
        variables: header.variables,
        groups: header.groups,
        clauses,
    })
}
