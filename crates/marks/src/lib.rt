// Marks of variables: what one clause adds to them, what all clauses add, and the lowest goal that they break. A mark is 1 in a word of 16 bits, one for
// each variable; a choice is a number: group g adds 2 ^ (g - 1).
#![tactic(auto)]

ghost use Rattle.std.specs.Prelude.{◌≡◌, true, cond, ◌+◌, ◌≤◌, length};
ghost use Rattle.field.specs.Words.{words, within};
ghost use Rattle.meaning.specs.Choice.{chosen};
ghost use Rattle.meaning.specs.Consistent.{in_force};
ghost use Rattle.meaning.specs.Forced.{mark, pass, broken, lowest, forced_in};
ghost use Rattle.meaning.specs.Marks.{Partly, first_unmarked, unmarked};
ghost use Rattle.book.specs.Bytes.{most_groups};
ghost use Rattle.book.specs.Clauses.{meant, clause_is};
ghost use Rattle.marks.specs.Fits.{Fits, named};

use book::{Book, Clause};

// Whether clauses of a group are to hold.
fn is_chosen(group: u16, choice: u32) -> bool
    requires { group ≤ most_groups }
    ensures { result ≡ chosen choice group }
{
    if group == 0 {
        return true;
    }
    choice::has(choice, (group - 1) as u32)
}

// Whether a clause is in force.
pub fn in_force(clause: &Clause, choice: u32) -> bool
    requires { within 0 most_groups (words clause.now.groups.now) ≡ true }
    ensures { result ≡ in_force choice (clause_is clause.now) }
{
    field::words_of(clause.groups).all(|group| is_chosen(group, choice))
}

// The first variable of a body that has no mark.
pub fn first_unmarked(body: &[u8], marks: &[u16]) -> Option<u16>
    requires { within 1 (length marks.now) (words body.now) ≡ true }
    ensures { result ≡ named (first_unmarked marks.now (words body.now)) }
{
    field::words_of(body).find(|variable| marks[*variable as usize - 1] != 1)
}

// A clause adds the mark of its head, if it is in force and its whole body is marked. Whether it added one.
fn mark_clause(clause: &Clause, choice: u32, marks: &mut [u16]) -> bool
    requires fits { Fits (length marks.old) (clause_is clause.now) }
    requires head { clause.now.head ≤ length marks.old }
    ensures marks { marks.new ≡ mark choice (clause_is clause.now) marks.old }
    ensures count { cond result 1 0 + unmarked marks.new ≡ unmarked marks.old }
{
    if clause.head == 0 {
        return false;
    }
    let h = clause.head as usize - 1;
    if marks[h] == 1 {
        return false;
    }
    if !in_force(clause, choice) {
        return false;
    }
    if first_unmarked(clause.body, marks).is_some() {
        return false;
    }
    marks[h] = 1;
    true
}

// Whether a clause is a broken goal.
fn is_broken(clause: &Clause, choice: u32, marks: &[u16]) -> bool
    requires { Fits (length marks.now) (clause_is clause.now) }
    ensures { result ≡ broken choice marks.now (clause_is clause.now) }
{
    if clause.head != 0 {
        return false;
    }
    if !in_force(clause, choice) {
        return false;
    }
    first_unmarked(clause.body, marks).is_none()
}

// What each clause adds, one after the other. How many marks were added.
fn sweep(book: &Book, choice: u32, marks: &mut [u16]) -> u16
    requires { length marks.old ≡ (meant book.now).variables }
    ensures marks { marks.new ≡ pass choice (meant book.now).clauses marks.old }
    ensures count { result + unmarked marks.new ≡ unmarked marks.old }
{
    let mut n: u16 = 0;
    for clause in book.walk() {
        if mark_clause(&clause, choice, marks) {
            n += 1;
        }
    }
    n
}

// The number of the lowest broken goal.
pub fn lowest_broken(book: &Book, choice: u32, marks: &[u16]) -> Option<u16>
    requires { length marks.now ≡ (meant book.now).variables }
    ensures { result ≡ named (lowest choice marks.now 1 (meant book.now).clauses) }
{
    let place = book
        .walk()
        .position(|clause| is_broken(&clause, choice, marks))?;
    Some(place as u16 + 1)
}

// Sweeps until no mark is added, past any broken goal. The marks that are there already may be any of those that the choice forces.
pub fn settle(book: &Book, choice: u32, marks: &mut [u16])
    requires { Partly (meant book.now) choice marks.old }
    ensures { marks.new ≡ forced_in (meant book.now) choice }
{
    while sweep(book, choice, marks) != 0 {}
}
