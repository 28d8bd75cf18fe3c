// The variables that a choice forces: the levels of the queue with the choice kept and no group in the pool, as marks, and sweeps to the end.
#![tactic(auto)]

ghost use Rattle.std.specs.Prelude.{◌≡◌, cond, ◌≤◌, length, leb};
ghost use Rattle.meaning.specs.Forced.{forced_in};
ghost use Rattle.book.specs.Clauses.{meant};
ghost use Rattle.levels.specs.Levels.{marks_at, Settling};
ghost use Rattle.forcing.specs.Forcing.{Forcing};

use book::Book;
use levels::Arrivals;
use lists::Layout;
use queue::Until;

// A mark where a variable has level 0.
fn mark_of(level: u16) -> u16
    ensures { result ≡ cond (leb level 0) 1 0 }
{
    (level == 0) as u16
}

// Levels become marks of the variables of level 0.
fn mark_all(levels: &mut [u16])
    ensures { levels.new ≡ marks_at 0 levels.old }
{
    for level in levels.iter_mut() {
        *level = mark_of(*level);
    }
}

// The variables that a choice forces, from levels of which none is too low.
fn finish(book: &Book, choice: u32, levels: &mut [u16])
    requires { Settling (meant book.now) choice 0 levels.old }
    ensures { levels.new ≡ forced_in (meant book.now) choice }
{
    mark_all(levels);
    marks::settle(book, choice, levels);
}

// The front of the working space, one word a variable, leaves with marks of the variables that a choice forces. All of them are asked for, so none is left aside.
pub fn force(book: &Book, choice: u32, work: &mut [u16])
    requires { 8192 ≤ length work.old }
    ensures { Forcing book.now.bytes.now choice work.old work.new }
{
    let arrivals = Arrivals {
        kept: choice,
        pool: 0,
    };
    Layout::of(book).leave_none_aside(work);
    table::lay(book, arrivals, work);
    queue::run(book, arrivals, Until::End, work);
    let v = book.variables as usize;
    finish(book, choice, &mut work[..v]);
}
