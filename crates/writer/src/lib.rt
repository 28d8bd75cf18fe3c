// A plain form written to a rule book. First all of it is tested, and then it is gone through again and written.
#![tactic(auto)]

ghost use Rattle.std.specs.Prelude.{◌≡◌, ℕ, map, [], ◌∷◌, ◌+◌, ◌*◌, ◌^◌, ◌<◌, ◌≤◌, length};
ghost use Rattle.answer.specs.Answer.{and_then, first};
ghost use Rattle.answer.specs.Refusals.{wrong_is, answer_is};
ghost use Rattle.answer.specs.Space.{written_is, counted, laid, Wrote};
ghost use Rattle.field.specs.Words.{word_bytes};
ghost use Rattle.field.specs.Field.{field_bytes};
ghost use Rattle.meaning.specs.Book.{clause_from};
ghost use Rattle.book.specs.Bytes.{clause_bytes, clauses_bytes};
ghost use Rattle.book.specs.Reading.{with_clauses};
ghost use Rattle.plain.specs.Taking.{number_at, head_tests, body_tests, literals_at, clauses_at, taking};
ghost use Rattle.writer.specs.Writes.{writes};
ghost use Rattle.writer.specs.Steps.{scan_of, taken_of, room_tests, book_from, IsPlain, amounts};

use answer::{Cause, Refusal};
use book::{MOST_BODY, MOST_BYTES, MOST_CLAUSES, MOST_GROUPS, MOST_VARIABLES};
use signed::Signed;

// Whether a positive literal n is right after the head `head` (0 for none); else why not. The same below.
#[tactic(auto, unfolding(answer::specs::Answer::first))]
fn test_head(n: u32, variables: u16, head: u16) -> Result<(), Cause>
    ensures { wrong_is result ≡ first (head_tests variables head n) }
{
    if u32::from(variables) < n {
        return Err(Cause::OutOfRange);
    }
    if 0 < head {
        return Err(Cause::SecondHead);
    }
    Ok(())
}

// A negative literal -n, after the head and `count` others, the last of them -last.
#[tactic(auto, unfolding(answer::specs::Answer::first))]
fn test_body(n: u32, variables: u16, head: u16, last: u16, count: u16) -> Result<(), Cause>
    ensures { wrong_is result ≡ first (body_tests variables head last count n) }
{
    if u32::from(variables) < n {
        return Err(Cause::OutOfRange);
    }
    if 0 < head {
        return Err(Cause::NotRising);
    }
    if n <= u32::from(last) {
        return Err(Cause::NotRising);
    }
    if count == MOST_BODY {
        return Err(Cause::BadLength);
    }
    Ok(())
}

// The number x, which stands at index `place` and is to be from `low` to `high`.
fn number_within(x: i32, low: u16, high: u16, place: usize) -> Result<u16, Refusal>
    ensures { answer_is (λ n. n) result ≡ number_at low high place x }
{
    match Signed::from(x) {
        Signed::Plus(n) if u32::from(low) <= n && n <= u32::from(high) => Ok(n as u16),
        _ => Err(Cause::OutOfRange.at(place)),
    }
}

// The numbers of a clause after its group, up to its 0: its head, how many are in its body, and the index past its 0.
#[derive(Clone, Copy)]
struct Scanned {
    head: u16,
    count: u16,
    next: usize,
}

// The numbers of a clause after its group, from index `at` on.
fn scan_clause(s: &[i32], variables: u16, at: usize) -> Result<Scanned, Refusal>
    requires { at + length s.now < 2 ^ 63 }
    ensures { answer_is (λ s. s) result ≡ scan_of 0 (literals_at variables 0 0 0 at s.now) }
{
    let mut head = 0;
    let mut last = 0;
    let mut count = 0;
    for (i, x) in s.iter().enumerate() {
        let place = at + i;
        match Signed::from(*x) {
            Signed::Plus(0) => {
                return Ok(Scanned {
                    head,
                    count,
                    next: place + 1,
                });
            }
            Signed::Plus(n) => {
                test_head(n, variables, head).map_err(|cause| cause.at(place))?;
                head = n as u16;
            }
            Signed::Minus(n) => {
                test_body(n, variables, head, last, count).map_err(|cause| cause.at(place))?;
                last = n as u16;
                count += 1;
            }
        }
    }
    Err(Cause::Unended.at(at + s.len()))
}

// A plain form, or a text, that was taken: the header's numbers and the length of the book that is to be written.
#[derive(Clone, Copy, Debug, PartialEq, Eq)]
pub struct Taken {
    pub variables: u16,
    pub groups: u16,
    pub length: usize,
}

impl Taken {
    // Whether the book can be written into a space of so many bytes.
    #[tactic(auto, unfolding(answer::specs::Answer::first))]
    pub fn test_room(&self, room: usize) -> Result<(), Cause>
        ensures { wrong_is result ≡ first (room_tests room self.now.length) }
    {
        if MOST_BYTES < self.length {
            return Err(Cause::TooLong);
        }
        if room < self.length {
            return Err(Cause::SpaceTooSmall);
        }
        Ok(())
    }
}

// Clause by clause, after the header's two numbers.
fn take_clauses(clauses: &[i32], variables: u16, groups: u16) -> Result<Taken, Refusal>
    requires { length clauses.now < 2 ^ 62 }
    ensures { answer_is (λ t. t) result ≡ taken_of (and_then (clauses_at variables groups 2048 2 clauses.now) (with_clauses variables groups)) }
{
    let mut rest = clauses;
    let mut place: usize = 2;
    let mut left = MOST_CLAUSES;
    let mut length: usize = 10;
    while let Some((group, literals)) = rest.split_first() {
        if left == 0 {
            return Err(Cause::TooManyClauses.at(place));
        }
        number_within(*group, 0, groups, place)?;
        let scanned = scan_clause(literals, variables, place + 1)?;
        length += 7 + 2 * usize::from(scanned.count);
        left -= 1;
        rest = &rest[scanned.next - place..];
        place = scanned.next;
    }
    Ok(Taken {
        variables,
        groups,
        length,
    })
}

// Takes a plain form: the book that it is, or the refusal.
fn take(plain: &[i32]) -> Result<Taken, Refusal>
    ensures { answer_is (λ t. t) result ≡ taken_of (taking plain.now) }
{
    let Some((first, rest)) = plain.split_first() else {
        return Err(Cause::Unended.at(0));
    };
    let variables = number_within(*first, 1, MOST_VARIABLES, 0)?;
    let Some((second, rest)) = rest.split_first() else {
        return Err(Cause::Unended.at(1));
    };
    let groups = number_within(*second, 0, MOST_GROUPS, 1)?;
    take_clauses(rest, variables, groups)
}

// A number of a clause's body, as it is written.
pub trait Word {
    ghost word_of: { Self → ℕ };

    fn word(&self) -> u16
        ensures { result ≡ word_of self.now };
}

impl Word for u16 {
    ghost word_of = { λ n. n };

    fn word(&self) -> u16 {
        *self
    }
}

// A number without its sign.
impl Word for i32 {
    ghost use Rattle.std.specs.Prelude.{◌%◌, nat_abs};

    ghost word_of = { λ x. nat_abs x % 65536 };

    fn word(&self) -> u16 {
        signed::amount(*self)
    }
}

// Writes numbers, and gives the place after them. The same below.
fn put_words<W: Word>(words: &[W], out: &mut [u8], at: usize) -> usize
    requires { at + 2 * length words.now ≤ length out.old }
    ensures { Wrote out.old at (word_bytes (map W.word_of words.now)) out.new result }
{
    let mut i = at;
    for w in words {
        i = field::put_word(w.word(), out, i);
    }
    i
}

// Writes a clause's field.
pub fn put_clause<W: Word>(group: u16, head: u16, body: &[W], out: &mut [u8], at: usize) -> usize
    requires body_len_bound { length body.now ≤ 32 }
    requires body_in_bounds { at + (7 + 2 * length body.now) ≤ length out.old }
    ensures { Wrote out.old at (clause_bytes (clause_from (group ∷ []) head (map W.word_of body.now))) out.new result }
{
    let n = 4 + 2 * body.len();
    let a = field::put_front(2, n as u16, out, at);
    let b = field::put_word(group, out, a);
    let c = field::put_word(head, out, b);
    put_words(body, out, c)
}

// Writes the clauses of a plain form that was taken, and the end, from 7 on.
fn put_clauses(plain: &[i32], variables: u16, out: &mut [u8]) -> usize
    requires plain { IsPlain plain.now }
    requires variables_value { variables ≡ (book_from plain.now).variables }
    requires plain_in_bounds { 7 + length (clauses_bytes (book_from plain.now).clauses) ≤ length out.old }
    ensures { Wrote out.old 7 (clauses_bytes (book_from plain.now).clauses) out.new result }
{
    let mut rest = &plain[2..];
    let mut place: usize = 2;
    let mut at: usize = 7;
    while let Some((group, literals)) = rest.split_first() {
        // a plain form that was taken has no clause that is refused
        let scanned = scan_clause(literals, variables, place + 1).unwrap();
        let body = &literals[..usize::from(scanned.count)];
        at = put_clause(signed::amount(*group), scanned.head, body, out, at);
        rest = &rest[scanned.next - place..];
        place = scanned.next;
    }
    field::put_front(0, 0, out, at)
}

// Writes the header.
pub fn put_header(variables: u16, groups: u16, out: &mut [u8]) -> usize
    requires { 7 ≤ length out.old }
    ensures { Wrote out.old 0 (field_bytes 1 (word_bytes (variables ∷ groups ∷ []))) out.new result }
{
    let a = field::put_front(1, 4, out, 0);
    let b = field::put_word(variables, out, a);
    field::put_word(groups, out, b)
}

// Writes a plain form to a book.
pub fn write(plain: &[i32], out: &mut [u8]) -> Result<usize, Refusal>
    ensures { (written_is result ≡ counted (writes plain.now (length out.old))) × (out.new ≡ laid (writes plain.now (length out.old)) out.old) }
{
    let taken = take(plain)?;
    taken.test_room(out.len()).map_err(|cause| cause.at(0))?;
    put_header(taken.variables, taken.groups, out);
    let count = put_clauses(plain, taken.variables, out);
    Ok(count)
}
