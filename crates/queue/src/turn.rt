// The turn of one clause.

ghost use Rattle.std.specs.Prelude.{◌≤◌, ◌<◌};
ghost use Rattle.book.specs.Clauses.{clause_is};
ghost use Rattle.marks.specs.Fits.{Fits};

use book::{Book, Clause};
use levels::Arrivals;
use lists::Layout;

// A clause of a book at its turn: its number, counted from 0, and the order in which groups come.
#[derive(Clone, Copy)]
pub(crate) struct Turn<'a> {
    layout: Layout,
    arrivals: Arrivals,
    number: u16,
    pub(crate) clause: Clause<'a>,
    ghost numbered: { number < layout.clauses },
    ghost fits: { Fits layout.variables (clause_is clause) },
    ghost head: { clause.head ≤ layout.variables },
}

impl<'a> Turn<'a> {
    ghost use Rattle.std.specs.Prelude.{◌≡◌, ◌∷◌, ◌+◌, ◌≤◌, ◌<◌, length, drop, IfSome};
    ghost use Rattle.book.specs.Bytes.{most_groups};
    ghost use Rattle.book.specs.Clauses.{meant, clause_is};
    ghost use Rattle.lists.specs.Space.{Listed, Aside};
    ghost use Rattle.table.specs.Table.{Prepared};
    ghost use Rattle.queue.specs.Turns.{Stepped};

    // That of the clause with a number. The working space has its place.
    pub(crate) fn of(book: &Book<'a>, arrivals: Arrivals, number: u16, work: &[u16]) -> Turn<'a>
        requires { (number < book.now.clauses) × Prepared book.now.bytes.now arrivals.kept arrivals.pool work.now }
        ensures stands { drop number (meant book.now).clauses ≡ clause_is result.clause ∷ drop (number + 1) (meant book.now).clauses }
        ensures layout { (result.layout.variables ≡ book.now.variables) × (result.layout.clauses ≡ book.now.clauses) }
        ensures arrivals { (result.arrivals.kept ≡ arrivals.kept) × (result.arrivals.pool ≡ arrivals.pool) }
    {
        let layout = Layout::of(book);
        let place = work[layout.entry(number)] as usize;
        Turn {
            layout,
            arrivals,
            number,
            clause: book::first_clause(&book.bytes[place..]),
        }
    }

    // The first of its groups whose level is not below a level.
    fn holding_group(&self, level: u16) -> Option<u16>
        ensures { IfSome result (λ group. group ≤ most_groups) }
    {
        field::words_of(self.clause.groups).find(|group| level <= self.arrivals.group_level(*group))
    }

    // The first variable of its body whose level is not below a level.
    fn holding_variable(&self, level: u16, work: &[u16]) -> Option<u16>
        requires { 8192 ≤ length work.now }
        ensures { IfSome result (λ variable. (1 ≤ variable) × (variable ≤ self.now.layout.variables)) }
    {
        field::words_of(self.clause.body).find(|variable| level <= work[*variable as usize - 1])
    }

    // The list in which it waits where its head has a level, or it is a goal with that level: that of one of its groups or variables whose level is not below
    // it. At level 0 there is nothing to wait for.
    fn waiting_list(&self, level: u16, work: &[u16]) -> Option<usize>
        requires { 8192 ≤ length work.now }
        ensures { IfSome result (λ list. Listed self.now.layout.variables self.now.layout.clauses list) }
    {
        if level == 0 {
            return None;
        }
        if let Some(group) = self.holding_group(level) {
            return Some(self.layout.at_group(group));
        }
        let variable = self.holding_variable(level, work)?;
        Some(self.layout.at_variable(variable))
    }

    fn wait(&self, level: u16, work: &mut [u16])
        requires { 8192 ≤ length work.old }
        ensures { Aside self.now.layout.variables self.now.layout.clauses work.old work.new }
    {
        if let Some(list) = self.waiting_list(level, work) {
            self.layout.push(self.number, list, work);
        }
    }

    // The turn of a goal.
    fn take_goal(&self, work: &mut [u16])
        requires { 8192 ≤ length work.old }
        ensures { Aside self.now.layout.variables self.now.layout.clauses work.old work.new }
    {
        let least = self.layout.least(work);
        let v = self.layout.variables as usize;
        let level = levels::clause_level(&self.clause, self.arrivals, least, &work[..v]);
        self.layout.note_goal(self.number, level, work);
        self.wait(level, work);
    }

    // The turn. The level to which that of the head fell.
    pub(crate) fn take(&self, work: &mut [u16]) -> Option<u16>
        requires { 8192 ≤ length work.old }
        ensures { Stepped self.now.arrivals.kept self.now.arrivals.pool self.now.layout.variables self.now.layout.clauses (clause_is self.now.clause)
            work.old work.new }
    {
        let head = self.clause.head;
        if head == 0 {
            self.take_goal(work);
            return None;
        }
        let h = head as usize - 1;
        if work[h] == 0 {
            return None;
        }
        let v = self.layout.variables as usize;
        let fell = levels::turn(&self.clause, self.arrivals, &mut work[..v]);
        let level = work[h];
        if fell == 0 {
            self.wait(level, work);
            return None;
        }
        self.layout.wake(head, level, work);
        self.wait(level, work);
        Some(level)
    }
}
