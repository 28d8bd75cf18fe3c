// The table of a book's clauses in the working space: where each of them stands in the book, so that one can have its turn without a walk. It is laid before
// the first turn, and the clauses begin in their lists then. By the table it is found which variables can be left aside: clauses with such a head have no turns.
#![tactic(auto)]

ghost use Rattle.std.specs.Prelude.{◌≤◌, ◌<◌, length};
ghost use Rattle.book.specs.Clauses.{clause_is};
ghost use Rattle.marks.specs.Fits.{Fits};
ghost use Rattle.levels.specs.Levels.{never};
ghost use Rattle.lists.specs.Space.{Aside};
ghost use Rattle.table.specs.Table.{Kept, Fresh, Tabled, Laid};

use book::{Book, Clause};
use levels::{Arrivals, IDLE, NEVER};
use lists::Layout;

// How many times the clauses are gone over, at most, to find the variables that are left aside; where they stand in a good order, two times are enough.
const MOST_SEARCHES: u16 = 16;

// The level of a variable before the first turn: none yet, or that of one left aside.
fn first_level(variable: u16, layout: Layout, work: &[u16]) -> u16
    requires { (variable ≤ layout.variables) × (8192 ≤ length work.now) }
    ensures { never ≤ result }
{
    if layout.is_aside(variable, work) {
        return IDLE;
    }
    NEVER
}

// No variable has a level yet.
fn fill(layout: Layout, work: &mut [u16])
    requires { 8192 ≤ length work.old }
    ensures { Fresh layout.variables layout.variables layout.clauses work.old work.new }
{
    for i in 0..layout.variables {
        work[i as usize] = first_level(i + 1, layout, work);
    }
}

// Whether a head is a variable that is left aside, by the level that it has before the first turn. A goal's is none.
fn is_idle(head: u16, work: &[u16]) -> bool
    requires { head ≤ length work.now }
{
    head != 0 && NEVER < work[head as usize - 1]
}

// A clause begins in a list, if its groups have a level and its head is not left aside.
fn begin(number: u16, clause: &Clause, arrivals: Arrivals, layout: Layout, work: &mut [u16])
    requires number { number < layout.clauses }
    requires fits { Fits layout.variables (clause_is clause.now) }
    requires head { clause.now.head ≤ layout.variables }
    requires room { 8192 ≤ length work.old }
    ensures { Aside layout.variables layout.clauses work.old work.new }
{
    let level = levels::groups_level(clause, arrivals);
    if NEVER <= level || is_idle(clause.head, work) {
        return;
    }
    layout.push(number, layout.first_list(clause.body, level), work);
}

// The table of places is laid, and the clauses begin. A walk does not tell where a clause stands, so this one goes from place to place.
fn lay_clauses(book: &Book, arrivals: Arrivals, work: &mut [u16])
    requires { 8192 ≤ length work.old }
    ensures { Tabled book.now.bytes.now book.now.variables book.now.clauses work.old work.new }
{
    let layout = Layout::of(book);
    let mut place: usize = 7;
    for number in 0..book.clauses {
        let clause = book::first_clause(&book.bytes[place..]);
        work[layout.entry(number)] = place as u16;
        begin(number, &clause, arrivals, layout, work);
        place += clause.size();
    }
}

// The working space is made ready for a book and the groups that are kept and in the pool, whatever it holds: no variable has a level yet. The variables that
// are left aside stay so.
pub fn lay(book: &Book, arrivals: Arrivals, work: &mut [u16])
    requires { 8192 ≤ length work.old }
    ensures { Kept book.now.bytes.now arrivals.kept arrivals.pool work.old work.new }
{
    let layout = Layout::of(book);
    layout.empty_lists(work);
    fill(layout, work);
    lay_clauses(book, arrivals, work);
}

// The body of a goal, or of a clause whose head is not left aside, is not left aside either. Whether one of its variables was.
fn reach(book: &Book, number: u16, work: &mut [u16]) -> bool
    requires { Laid book.now.bytes.now book.now.variables book.now.clauses work.old × (number < book.now.clauses) }
    ensures { Aside book.now.variables book.now.clauses work.old work.new }
{
    let layout = Layout::of(book);
    let place = work[layout.entry(number)] as usize;
    let clause = book::first_clause(&book.bytes[place..]);
    !layout.is_aside(clause.head, work) && layout.bring_back_all(clause.body, work)
}

// The same clause after clause, from the last. Whether a variable was left aside that is not any more.
fn reach_all(book: &Book, work: &mut [u16]) -> bool
    requires { Laid book.now.bytes.now book.now.variables book.now.clauses work.old }
    ensures { Aside book.now.variables book.now.clauses work.old work.new }
{
    let mut found = false;
    for number in (0..book.clauses).rev() {
        found |= reach(book, number, work);
    }
    found
}

// The variables from which no goal can be reached are left aside: all of them at first, and then those are brought back that some clause needs for a goal,
// until no more are. Where that takes more turns than it may, none is left aside.
pub fn set_aside(book: &Book, work: &mut [u16])
    requires { Laid book.now.bytes.now book.now.variables book.now.clauses work.old }
    ensures { Aside book.now.variables book.now.clauses work.old work.new }
{
    let layout = Layout::of(book);
    layout.leave_all_aside(work);
    for _ in 0..MOST_SEARCHES {
        if !reach_all(book, work) {
            return;
        }
    }
    layout.leave_none_aside(work);
}
