// Levels of variables: the group at which each variable is forced where the groups of a pool come one after the other, the lowest first, to the kept
// groups, found by sweeps until no level falls; and the group at which a goal is broken. Levels that were lowered in another way are confirmed by one walk
// (`is_closed`), in which variables that were left aside are taken for granted: levels so low that every clause is met and no goal is broken show that none
// is, whether they are too low or not. A level is a word of 16 bits, one for each variable; choices are numbers: group g adds 2 ^ (g - 1).
#![tactic(auto)]

ghost use Rattle.std.specs.Prelude.{◌≡◌, true, [], ◌∷◌, ◌+◌, ◌-◌, ◌≤◌, min, length, leb};
ghost use Rattle.field.specs.Words.{words, within};
ghost use Rattle.meaning.specs.Choice.{Apart};
ghost use Rattle.book.specs.Bytes.{most_groups};
ghost use Rattle.book.specs.Clauses.{meant, clause_is};
ghost use Rattle.marks.specs.Fits.{Fits};
ghost use Rattle.levels.specs.Levels.{never, group_level, level_of, greatest, clause_level, turn as turn', turns, goal_level, total, stands as stands', closed_below, carried_to, carried, granted_to, granted, Settling, Settled, GoalLevel};

use book::{Book, Clause, MOST_GROUPS};

mod arrivals;

pub use arrivals::Arrivals;

// The level of what no group brings.
pub const NEVER: u16 = MOST_GROUPS + 1;

// The level of a variable that is left aside, since no goal hangs on it.
pub const IDLE: u16 = NEVER + 1;

// The greatest level of the groups of a clause.
pub fn groups_level(clause: &Clause, arrivals: Arrivals) -> u16
    requires { within 0 most_groups (words clause.now.groups.now) ≡ true }
    ensures { result ≡ greatest (group_level arrivals.kept arrivals.pool) 0 (words clause.now.groups.now) }
{
    let mut most: u16 = 0;
    for group in field::words_of(clause.groups) {
        most = most.max(arrivals.group_level(group));
    }
    most
}

// The greatest of a level and of the levels of a body, or the cap where that is lower.
fn body_level(body: &[u8], from: u16, cap: u16, levels: &[u16]) -> u16
    requires { within 1 (length levels.now) (words body.now) ≡ true }
    ensures { result ≡ min cap (greatest (level_of levels.now) from (words body.now)) }
{
    let mut most = from;
    for variable in field::words_of(body) {
        if cap <= most {
            return cap;
        }
        most = most.max(levels[variable as usize - 1]);
    }
    most.min(cap)
}

// The level of a clause, or the cap where that is lower.
pub fn clause_level(clause: &Clause, arrivals: Arrivals, cap: u16, levels: &[u16]) -> u16
    requires { Fits (length levels.now) (clause_is clause.now) }
    ensures { result ≡ min cap (clause_level arrivals.kept arrivals.pool levels.now (clause_is clause.now)) }
{
    body_level(clause.body, groups_level(clause, arrivals), cap, levels)
}

// A clause makes the level of its head at most its own. By how much that level fell.
pub fn turn(clause: &Clause, arrivals: Arrivals, levels: &mut [u16]) -> u32
    requires fits { Fits (length levels.old) (clause_is clause.now) }
    requires head { clause.now.head ≤ length levels.old }
    ensures levels { levels.new ≡ turn' arrivals.kept arrivals.pool (clause_is clause.now) levels.old }
    ensures fell { result + total levels.new ≡ total levels.old }
{
    if clause.head == 0 {
        return 0;
    }
    let h = clause.head as usize - 1;
    let old = levels[h];
    let level = clause_level(clause, arrivals, old, levels);
    levels[h] = level;
    (old - level) as u32
}

// The least of a level and, where a clause is a goal, of the clause's level.
fn goal_turn(clause: &Clause, arrivals: Arrivals, least: u16, levels: &[u16]) -> u16
    requires { Fits (length levels.now) (clause_is clause.now) }
    ensures { result ≡ goal_level arrivals.kept arrivals.pool levels.now least (clause_is clause.now ∷ []) }
{
    if clause.head != 0 {
        return least;
    }
    clause_level(clause, arrivals, least, levels)
}

// A turn of each clause, one after the other. By how much the levels fell in sum.
fn sweep(book: &Book, arrivals: Arrivals, levels: &mut [u16]) -> u32
    requires { length levels.old ≡ (meant book.now).variables }
    ensures levels { levels.new ≡ turns arrivals.kept arrivals.pool (meant book.now).clauses levels.old }
    ensures fell { result + total levels.new ≡ total levels.old }
{
    let mut fell: u32 = 0;
    for clause in book.walk() {
        fell += turn(&clause, arrivals, levels);
    }
    fell
}

// The least level of the goals.
fn least_goal(book: &Book, arrivals: Arrivals, levels: &[u16]) -> u16
    requires { length levels.now ≡ (meant book.now).variables }
    ensures { result ≡ goal_level arrivals.kept arrivals.pool levels.now never (meant book.now).clauses }
{
    let mut least = NEVER;
    for clause in book.walk() {
        least = goal_turn(&clause, arrivals, least, levels);
    }
    least
}

// A level, or 0 of a variable that is left aside: it is taken for granted.
fn grant(level: u16) -> u16
    ensures { result ≡ granted_to level }
{
    if level <= NEVER {
        return level;
    }
    0
}

// Whether a variable of a body holds its clause up to a bound: the level that is granted to it is not below that.
fn is_held(body: &[u8], bound: u16, levels: &[u16]) -> bool
    requires { (1 ≤ bound) × (within 1 (length levels.now) (words body.now) ≡ true) }
    ensures { result ≡ leb bound (greatest (level_of (granted levels.now)) 0 (words body.now)) }
{
    field::words_of(body).any(|variable| bound <= grant(levels[variable as usize - 1]))
}

// Whether a clause lets the levels stand below a bound, where a choice holds: it is not in force, or its head has a level below the bound, or one of its body has
// none. What is left aside is taken for granted.
fn stands(clause: &Clause, choice: u32, bound: u16, levels: &[u16]) -> bool
    requires fits { Fits (length levels.now) (clause_is clause.now) }
    requires head { clause.now.head ≤ length levels.now }
    requires bound { 1 ≤ bound }
    ensures { result ≡ stands' choice bound (granted levels.now) (clause_is clause.now) }
{
    if !marks::in_force(clause, choice) {
        return true;
    }
    if clause.head > 0 {
        let h = clause.head as usize - 1;
        if grant(levels[h]) < bound {
            return true;
        }
    }
    is_held(clause.body, bound, levels)
}

// Whether every clause lets the granted levels stand below a bound.
pub fn is_closed(book: &Book, choice: u32, bound: u16, levels: &[u16]) -> bool
    requires { (length levels.now ≡ (meant book.now).variables) × (1 ≤ bound) }
    ensures { result ≡ closed_below choice bound (granted levels.now) (meant book.now).clauses }
{
    book.walk()
        .all(|clause| stands(&clause, choice, bound, levels))
}

// Sweeps until no level falls.
fn settle(book: &Book, arrivals: Arrivals, levels: &mut [u16])
    requires apart { Apart arrivals.kept arrivals.pool }
    requires levels { (length levels.old ≡ (meant book.now).variables) × Settling (meant book.now) arrivals.kept arrivals.pool levels.old }
    ensures { Settled (meant book.now) arrivals.kept arrivals.pool levels.new }
{
    while sweep(book, arrivals, levels) != 0 {}
}

// A level after a pass that ended at a group, for the next pass.
fn carry_level(level: u16, group: u16) -> u16
    requires { 1 ≤ group }
    ensures { result ≡ carried_to group level }
{
    if group < level {
        if NEVER < level {
            return level;
        }
        return NEVER;
    }
    if level < group {
        return level;
    }
    group - 1
}

// The levels after a pass that ended at a group, for the next pass. A `for` of its own, as in forcing: one function over both changes would be longer than the two.
pub fn carry(group: u16, levels: &mut [u16])
    requires { 1 ≤ group }
    ensures { levels.new ≡ carried group levels.old }
{
    for level in levels.iter_mut() {
        *level = carry_level(*level, group);
    }
}

// The group of the pool at which the kept groups and those of the pool up to it break a goal; 0 where the kept groups do so, and NEVER where all together do
// not. The levels that are there already may be any that are not too low.
pub fn goal_level(book: &Book, arrivals: Arrivals, levels: &mut [u16]) -> u16
    requires apart { Apart arrivals.kept arrivals.pool }
    requires levels { (length levels.old ≡ (meant book.now).variables) × Settling (meant book.now) arrivals.kept arrivals.pool levels.old }
    ensures { GoalLevel (meant book.now) arrivals.kept arrivals.pool result × Settling (meant book.now) arrivals.kept arrivals.pool levels.new }
{
    settle(book, arrivals, levels);
    least_goal(book, arrivals, levels)
}
