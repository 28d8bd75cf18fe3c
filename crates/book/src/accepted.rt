// An accepted book, and its clauses one after the other.

ghost use Rattle.std.specs.Prelude.{◌≡◌, ◌+◌, ◌≤◌, true, length};
ghost use Rattle.book.specs.Walk.{book_of, is_accepted, walks};

use crate::first::first_clause;
use crate::front::{Front, front_of};

// An accepted book: its bytes, and how many variables, groups and clauses it has.
#[derive(Clone, Copy)]
pub struct Book<'a> {
    pub bytes: &'a [u8],
    pub variables: u16,
    pub groups: u16,
    pub clauses: u16,
    pub ghost accepted: { is_accepted bytes.now ≡ true },
    pub ghost variables_are: { variables ≡ (book_of bytes.now).variables },
    pub ghost groups_are: { groups ≡ (book_of bytes.now).groups },
    pub ghost clauses_are: { clauses ≡ length (book_of bytes.now).clauses },
}

// A clause, as it stands in a book: the bytes of its groups and of its body, and its head (0 for none). Which numbers it may hold depends on the book, so it has
// no invariant.
#[derive(Clone, Copy)]
pub struct Clause<'a> {
    pub groups: &'a [u8],
    pub head: u16,
    pub body: &'a [u8],
}

// The clauses of a book from some place on.
#[derive(Clone, Copy)]
pub struct Clauses<'a> {
    rest: &'a [u8],
    ghost walks: { walks (length rest.now) rest.now ≡ true },
}

impl<'a> Book<'a> {
    ghost use Rattle.std.specs.Prelude.{drop};
    ghost use Rattle.book.specs.Walk.{IsBook};
    ghost use Rattle.book.specs.Clauses.{meant, clauses_left};

    // The book that some bytes are, where they are known to be accepted: `check` finds no refusal.
    pub fn of(bytes: &'a [u8]) -> Book<'a>
        requires { IsBook bytes.now }
        ensures { result.bytes ≡ bytes.entry }
    {
        crate::check(bytes).unwrap()
    }

    // Its clauses, one after the other.
    pub fn walk(&self) -> Clauses<'a>
        ensures left { clauses_left result ≡ (meant self.now).clauses }
        ensures rest { result.rest.now ≡ drop 7 self.now.bytes.now }
    {
        Clauses {
            rest: &self.bytes[7..],
        }
    }
}

impl<'a> Clause<'a> {
    ghost use Rattle.std.specs.Prelude.{◌≡◌, ◌+◌, length};

    // How many bytes its field takes.
    pub fn size(&self) -> usize
        requires { length self.now.groups.now + length self.now.body.now ≤ 65535 }
        ensures { result ≡ 5 + length self.now.groups.now + length self.now.body.now }
    {
        5 + self.groups.len() + self.body.len()
    }
}

impl<'a> Iterator for Clauses<'a> {
    type Item = Clause<'a>;

    ghost use Rattle.std.specs.Iterator.{item_count};
    ghost use Rattle.book.specs.Clauses.{clauses_left, GivesFirst};

    ghost next_gives = { GivesFirst };

    ghost remaining = { item_count clauses_left };

    fn next(&mut self) -> Option<Clause<'a>> {
        let Front::Clause { size, .. } = front_of(self.rest) else {
            return None;
        };
        let clause = first_clause(self.rest);
        self.rest = &self.rest[size..];
        Some(clause)
    }
}
