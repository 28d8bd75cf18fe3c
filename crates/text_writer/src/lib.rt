// A rule book written as group CNF text.
#![tactic(auto)]

ghost use Rattle.std.specs.Prelude.{◌≡◌, ◌∷◌, ◌+◌, ◌≤◌, length, get_or};
ghost use Rattle.answer.specs.Space.{written_is, counted, laid, Wrote};
ghost use Rattle.field.specs.Words.{words};
ghost use Rattle.decimal.specs.Digits.{number};
ghost use Rattle.book.specs.Clauses.{meant, clause_is};
ghost use Rattle.text.specs.Lines.{blank, minus_sign};
ghost use Rattle.text.specs.Writing.{group_text, body_text, head_text, clause_text, clauses_text, heading_text, text_of};
ghost use Rattle.text_writer.specs.ToText.{to_text};

use answer::{Cause, Refusal};
use book::{Book, Clause};

// Writes the `p` line at the front, and gives the place after it. The functions below write from `at` on.
fn put_heading(book: &Book, out: &mut [u8]) -> usize
    requires { length (heading_text (meant book.now)) ≤ length out.old }
    ensures { Wrote out.old 0 (heading_text (meant book.now)) out.new result }
{
    let word = decimal::put_text(b"p gcnf", out, 0);
    let a = decimal::put_after(book.variables as usize, out, word);
    let b = decimal::put_after(book.clauses as usize, out, a);
    let c = decimal::put_after(book.groups as usize, out, b);
    decimal::put_byte(b'\n', out, c)
}

// Writes a group in braces.
fn put_group(group: u16, out: &mut [u8], at: usize) -> usize
    requires { at + length (number group) + 2 ≤ length out.old }
    ensures { Wrote out.old at (group_text group) out.new result }
{
    let first = decimal::put_byte(b'{', out, at);
    let last = decimal::put_number(group as usize, out, first);
    decimal::put_byte(b'}', out, last)
}

// Writes a literal of a body.
fn put_literal(variable: u16, out: &mut [u8], at: usize) -> usize
    requires { at + length (number variable) + 2 ≤ length out.old }
    ensures { Wrote out.old at (blank ∷ (minus_sign ∷ number variable)) out.new result }
{
    let next = decimal::put_text(b" -", out, at);
    decimal::put_number(variable as usize, out, next)
}

// Writes a body.
fn put_body(body: &[u8], out: &mut [u8], at: usize) -> usize
    requires { at + length (body_text (words body.now)) ≤ length out.old }
    ensures { Wrote out.old at (body_text (words body.now)) out.new result }
{
    let mut i = at;
    for variable in field::words_of(body) {
        i = put_literal(variable, out, i);
    }
    i
}

// Writes a head, if there is one.
fn put_head(head: u16, out: &mut [u8], at: usize) -> usize
    requires { at + length (head_text head) ≤ length out.old }
    ensures { Wrote out.old at (head_text head) out.new result }
{
    if head == 0 {
        return at;
    }
    decimal::put_after(head as usize, out, at)
}

// The group of a clause: each clause of a book has one.
fn group_of(clause: &Clause) -> u16
    ensures { result ≡ get_or (clause_is clause.now).groups 0 0 }
{
    field::words_of(clause.groups).next().unwrap_or(0)
}

// Writes a clause's line.
fn put_clause(clause: &Clause, out: &mut [u8], at: usize) -> usize
    requires { at + length (clause_text (clause_is clause.now)) ≤ length out.old }
    ensures { Wrote out.old at (clause_text (clause_is clause.now)) out.new result }
{
    let a = put_group(group_of(clause), out, at);
    let b = put_body(clause.body, out, a);
    let c = put_head(clause.head, out, b);
    decimal::put_text(b" 0\n", out, c)
}

// Writes the lines of a book's clauses. reader has this loop too, and says why there are two.
fn put_clauses(book: &Book, out: &mut [u8], at: usize) -> usize
    requires { at + length (clauses_text (meant book.now).clauses) ≤ length out.old }
    ensures { Wrote out.old at (clauses_text (meant book.now).clauses) out.new result }
{
    let mut i = at;
    for clause in book.walk() {
        i = put_clause(&clause, out, i);
    }
    i
}

// How many bytes the `p` line is.
fn heading_length(book: &Book) -> usize
    ensures { result ≡ length (heading_text (meant book.now)) }
{
    let a = decimal::number_length(book.variables as usize);
    let b = decimal::number_length(book.clauses as usize);
    let c = decimal::number_length(book.groups as usize);
    a + b + c + 10
}

// How many bytes a literal of a body is.
fn literal_length(variable: u16) -> usize
    ensures { result ≡ length (number variable) + 2 }
{
    decimal::number_length(variable as usize) + 2
}

// How many bytes a body is.
fn body_length(body: &[u8]) -> usize
    requires { length (body_text (words body.now)) ≤ 420000 }
    ensures { result ≡ length (body_text (words body.now)) }
{
    field::words_of(body).map(literal_length).sum()
}

// How many bytes a clause's line is.
fn clause_length(clause: &Clause) -> usize
    requires { length (clause_text (clause_is clause.now)) ≤ 420000 }
    ensures { result ≡ length (clause_text (clause_is clause.now)) }
{
    let n = decimal::number_length(group_of(clause) as usize) + body_length(clause.body) + 5;
    if clause.head == 0 {
        return n;
    }
    n + decimal::number_length(clause.head as usize) + 1
}

// How many bytes the text of a book is.
fn text_length(book: &Book) -> usize
    ensures { result ≡ length (text_of (meant book.now)) }
{
    heading_length(book)
        + book
            .walk()
            .map(|clause| clause_length(&clause))
            .sum::<usize>()
}

// Turns a book into text.
pub fn to_text(bytes: &[u8], out: &mut [u8]) -> Result<usize, Refusal>
    ensures { (written_is result ≡ counted (to_text bytes.now (length out.old))) × (out.new ≡ laid (to_text bytes.now (length out.old)) out.old) }
{
    let book = book::check(bytes)?;
    if out.len() < text_length(&book) {
        return Err(Cause::SpaceTooSmall.at(0));
    }
    let at = put_heading(&book, out);
    Ok(put_clauses(&book, out, at))
}
