// Propagation on levels, by the lists of clauses. A clause that is not due waits at a group or a variable of its own whose level keeps it from lowering its head
// any further. Clauses that are due have their turns, those of the lowest level first; where the level of a head falls, the clauses that wait at it become due.
// A walk over the book confirms the level of the goals, and sweeps complete the levels where it does not.
#![tactic(auto)]

ghost use Rattle.std.specs.Prelude.{◌≡◌, true, ◌≤◌, ◌<◌, length, take};
ghost use Rattle.meaning.specs.Choice.{Apart};
ghost use Rattle.book.specs.Bytes.{most_groups};
ghost use Rattle.book.specs.Clauses.{meant};
ghost use Rattle.levels.specs.Levels.{BrokenBy, GoalLevel};
ghost use Rattle.table.specs.Table.{Prepared, Kept};
ghost use Rattle.queue.specs.Turns.{Carrying};

mod turn;

use book::Book;
use levels::{Arrivals, NEVER};
use lists::Layout;
use turn::Turn;

// How many turns there are at most in a run; no book needs as many.
const MOST_TURNS: u32 = 67108864;

// How far a run goes: until no clause is due, or until the least level of the goals is known.
#[derive(Clone, Copy, PartialEq, Eq)]
pub enum Until {
    End,
    Goal,
}

// A clause that is due at a level has its turn. The level to go on with: a lower one to which a head fell, and the next where no clause is due.
fn advance(book: &Book, arrivals: Arrivals, level: u16, work: &mut [u16]) -> u16
    requires apart { Apart arrivals.kept arrivals.pool }
    requires ready { (level ≤ most_groups) × Prepared book.now.bytes.now arrivals.kept arrivals.pool work.old }
    ensures { Kept book.now.bytes.now arrivals.kept arrivals.pool work.old work.new }
{
    let layout = Layout::of(book);
    let Some(number) = layout.pop(layout.due(level), work) else {
        return level + 1;
    };
    let fell = Turn::of(book, arrivals, number, work).take(work);
    fell.unwrap_or(level).min(level)
}

// The clauses that are due have their turns.
pub fn run(book: &Book, arrivals: Arrivals, until: Until, work: &mut [u16])
    requires apart { Apart arrivals.kept arrivals.pool }
    requires ready { Prepared book.now.bytes.now arrivals.kept arrivals.pool work.old }
    ensures { Kept book.now.bytes.now arrivals.kept arrivals.pool work.old work.new }
{
    let layout = Layout::of(book);
    let mut level: u16 = 0;
    for _ in 0..MOST_TURNS {
        if NEVER <= level {
            return;
        }
        if layout.is_enough(until == Until::End, level, work) {
            return;
        }
        level = advance(book, arrivals, level, work);
    }
}

// After a pass that ended at a group, which is kept: the working space for the next pass.
pub fn keep(layout: Layout, group: u16, work: &mut [u16])
    requires { (1 ≤ group) × (group ≤ most_groups) × (8192 ≤ length work.old) }
    ensures { Carrying group layout.variables layout.clauses work.old work.new }
{
    let v = layout.variables as usize;
    levels::carry(group, &mut work[..v]);
    layout.lower_goal(group, work);
    layout.keep_lists(group, work);
}

// Whether the goal that is remembered has a level of at most this.
fn breaks(book: &Book, arrivals: Arrivals, level: u16, work: &[u16]) -> bool
    requires { (level ≤ most_groups) × Prepared book.now.bytes.now arrivals.kept arrivals.pool work.now }
    ensures { result ≡ true → BrokenBy arrivals.kept arrivals.pool (take book.now.variables work.now) (meant book.now).clauses level }
{
    let Some(number) = Layout::of(book).goal(work) else {
        return false;
    };
    let clause = Turn::of(book, arrivals, number, work).clause;
    let v = book.variables as usize;
    clause.head == 0 && levels::clause_level(&clause, arrivals, NEVER, &work[..v]) <= level
}

// Whether a level is confirmed as that of the goals: a goal has it, and every clause lets the levels below it stand. None need have NEVER, and there are no
// levels below 0.
fn is_confirmed(book: &Book, arrivals: Arrivals, level: u16, work: &[u16]) -> bool
    requires apart { Apart arrivals.kept arrivals.pool }
    requires ready { Prepared book.now.bytes.now arrivals.kept arrivals.pool work.now }
    ensures { result ≡ true → GoalLevel (meant book.now) arrivals.kept arrivals.pool level }
{
    if NEVER < level {
        return false;
    }
    if level < NEVER && !breaks(book, arrivals, level, work) {
        return false;
    }
    if level == 0 {
        return true;
    }
    let v = book.variables as usize;
    let choice = arrivals.choice_below(level);
    levels::is_closed(book, choice, level, &work[..v])
}

// The group of the pool at which the kept groups and those of the pool up to it break a goal; 0 where the kept groups do so, and NEVER where all together do
// not, which is a level that is compared like the others. The passes after the first ask for a run to the end.
pub fn goal_level(book: &Book, arrivals: Arrivals, until: Until, work: &mut [u16]) -> u16
    requires apart { Apart arrivals.kept arrivals.pool }
    requires ready { Prepared book.now.bytes.now arrivals.kept arrivals.pool work.old }
    ensures { GoalLevel (meant book.now) arrivals.kept arrivals.pool result × Kept book.now.bytes.now arrivals.kept arrivals.pool work.old work.new }
{
    run(book, arrivals, until, work);
    let level = Layout::of(book).least(work);
    if is_confirmed(book, arrivals, level, work) {
        return level;
    }
    let v = book.variables as usize;
    levels::goal_level(book, arrivals, &mut work[..v])
}
