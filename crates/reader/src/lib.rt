// A rule book read to plain form.
#![tactic(auto)]

ghost use Rattle.std.specs.Prelude.{◌≡◌, ℕ, ℤ, ◌+◌, ◌≤◌, length};
ghost use Rattle.answer.specs.Space.{written_is, counted, laid, Wrote};
ghost use Rattle.field.specs.Words.{words};
ghost use Rattle.book.specs.Clauses.{meant, clause_is};
ghost use Rattle.plain.specs.Plain.{each, head_literal, plain_clause, plain_clauses, plain_of};
ghost use Rattle.reader.specs.Reads.{reads};

use answer::{Cause, Refusal};
use book::{Book, Clause};

// Writes the numbers of a part from `at` on, each with its sign, and gives the place after them. The same below.
fn put_numbers<F: Fn(u16) -> i32>(part: &[u8], sign: F, out: &mut [i32], at: usize) -> usize
    requires callable { F.IsAlwaysCallable sign }
    requires in_bounds { at + length (words part.now) ≤ length out.old }
    ensures { (h : ℕ → ℤ) → ((n : ℕ) (z : ℤ) → F.post sign n z → z ≡ h n) → Wrote out.old at (each h (words part.now)) out.new result }
{
    let mut i = at;
    for n in field::words_of(part) {
        out[i] = sign(n);
        i += 1;
    }
    i
}

// Writes a head, if there is one.
fn put_head(head: u16, out: &mut [i32], at: usize) -> usize
    requires { at + length (head_literal head) ≤ length out.old }
    ensures { Wrote out.old at (head_literal head) out.new result }
{
    if head == 0 {
        return at;
    }
    signed::put_plus(head, out, at);
    at + 1
}

// Writes a clause.
fn put_clause(clause: &Clause, out: &mut [i32], at: usize) -> usize
    requires { at + length (plain_clause (clause_is clause.now)) ≤ length out.old }
    ensures { Wrote out.old at (plain_clause (clause_is clause.now)) out.new result }
{
    let a = put_numbers(clause.groups, signed::plus, out, at);
    let b = put_numbers(clause.body, signed::minus, out, a);
    let c = put_head(clause.head, out, b);
    signed::put_plus(0, out, c);
    c + 1
}

// Writes the clauses of a book from 2 on.
// text_writer has this loop too: a contract of one for both, with what its closure leaves of the space at each call, is longer than the loop.
fn put_clauses(book: &Book, out: &mut [i32]) -> usize
    requires { 2 + length (plain_clauses (meant book.now).clauses) ≤ length out.old }
    ensures { Wrote out.old 2 (plain_clauses (meant book.now).clauses) out.new result }
{
    let mut at = 2;
    for clause in book.walk() {
        at = put_clause(&clause, out, at);
    }
    at
}

// How many numbers a clause is in plain form: its groups, its body, its head, and 0.
fn clause_length(clause: &Clause) -> usize
    ensures { result ≡ length (plain_clause (clause_is clause.now)) }
{
    let n = clause.groups.len() / 2 + clause.body.len() / 2;
    if clause.head == 0 {
        return n + 1;
    }
    n + 2
}

// How many numbers a book is in plain form.
fn plain_length(book: &Book) -> usize
    ensures { result ≡ length (plain_of (meant book.now)) }
{
    2 + book
        .walk()
        .map(|clause| clause_length(&clause))
        .sum::<usize>()
}

// Reads a book to plain form.
pub fn read(bytes: &[u8], out: &mut [i32]) -> Result<usize, Refusal>
    ensures { (written_is result ≡ counted (reads bytes.now (length out.old))) × (out.new ≡ laid (reads bytes.now (length out.old)) out.old) }
{
    let book = book::check(bytes)?;
    if out.len() < plain_length(&book) {
        return Err(Cause::SpaceTooSmall.at(0));
    }
    signed::put_plus(book.variables, out, 0);
    signed::put_plus(book.groups, out, 1);
    Ok(put_clauses(&book, out))
}
