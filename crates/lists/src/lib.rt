// Lists of clauses in the working space. A clause is due, or it waits at a group or a variable; and variables from which no goal can be reached may be left
// aside. What lies in the lists decides no answer, and nothing is promised of it: only that levels, places and the words from 8,192 on stay as they are. So it
// is tested before it is used.
#![tactic(auto)]

ghost use Rattle.std.specs.Prelude.{◌≡◌, true, ◌+◌, ◌≤◌, ◌<◌, length, IfSome};
ghost use Rattle.field.specs.Words.{words, within};
ghost use Rattle.book.specs.Bytes.{most_variables, most_groups, most_clauses};
ghost use Rattle.lists.specs.Space.{Listed, Aside};

use book::Book;
use levels::NEVER;

// Where things lie in the working space. Levels come first, one word a variable, and then the places of the clauses, where each starts in the book. The words
// behind these are counted from there: the least level that a goal has got, and that goal; a bit for each variable, 1 for one that is left aside; the lists of
// clauses that are due, one for each level; the lists at which clauses wait, one for each group and one for each variable; and a link for each clause. A list
// is the number of its first clause plus 1, and 0 if there is none; the link of a clause is that of the next.
const GOAL: usize = 1;

const ASIDE: usize = 2;

const DUE: usize = 66;

const GROUPS: usize = 99;

const VARIABLES: usize = 132;

// How the working space is laid out for a book, by how many variables and clauses it has.
#[derive(Clone, Copy)]
pub struct Layout {
    pub variables: u16,
    pub clauses: u16,
    pub ghost few_variables: { variables ≤ most_variables },
    pub ghost few_clauses: { clauses ≤ most_clauses },
}

// The bit that tells of a variable whether it is left aside, in the word for that.
fn aside_bit(variable: u16) -> u16
    requires { 1 ≤ variable }
{
    1u16 << ((variable - 1) % 16)
}

impl Layout {
    // That of a book.
    pub fn of(book: &Book) -> Layout
        ensures variables { result.variables ≡ book.now.variables }
        ensures clauses { result.clauses ≡ book.now.clauses }
    {
        Layout {
            variables: book.variables,
            clauses: book.clauses,
        }
    }

    // The word that has the place of a clause, counted from 0.
    pub fn entry(self, clause: u16) -> usize
        ensures { result ≡ self.variables + clause }
    {
        self.variables as usize + clause as usize
    }

    // The first word behind levels and places. It holds the least level that a goal has got.
    fn lists(self) -> usize
        ensures { result ≡ self.variables + self.clauses }
    {
        self.variables as usize + self.clauses as usize
    }

    // The list of the clauses that are due at a level.
    pub fn due(self, level: u16) -> usize
        requires { level ≤ most_groups }
        ensures { Listed self.variables self.clauses result }
    {
        self.lists() + DUE + level as usize
    }

    // The list of the clauses that wait at a group.
    pub fn at_group(self, group: u16) -> usize
        requires { group ≤ most_groups }
        ensures { Listed self.variables self.clauses result }
    {
        self.lists() + GROUPS + group as usize
    }

    // The list of the clauses that wait at a variable.
    pub fn at_variable(self, variable: u16) -> usize
        requires { (1 ≤ variable) × (variable ≤ self.variables) }
        ensures { Listed self.variables self.clauses result }
    {
        self.lists() + VARIABLES + (variable as usize - 1)
    }

    // The link of a clause.
    fn link(self, clause: u16) -> usize
        requires { clause < self.clauses }
        ensures { Listed self.variables self.clauses result }
    {
        self.lists() + VARIABLES + self.variables as usize + clause as usize
    }

    // The first word behind the lists, which are the last thing in use here.
    pub fn end(self) -> usize
        ensures { result + 1024 ≤ 8192 }
    {
        self.lists() + VARIABLES + self.variables as usize + self.clauses as usize
    }

    // A clause becomes the first of a list.
    pub fn push(self, clause: u16, list: usize, work: &mut [u16])
        requires { (clause < self.clauses) × Listed self.variables self.clauses list × (8192 ≤ length work.old) }
        ensures { Aside self.variables self.clauses work.old work.new }
    {
        work[self.link(clause)] = work[list];
        work[list] = clause + 1;
    }

    // The first clause of a list, if there is one, is taken off.
    pub fn pop(self, list: usize, work: &mut [u16]) -> Option<u16>
        requires { Listed self.variables self.clauses list × (8192 ≤ length work.old) }
        ensures { IfSome result (λ clause. clause < self.clauses) × Aside self.variables self.clauses work.old work.new }
    {
        let clause = work[list].checked_sub(1)?;
        if self.clauses <= clause {
            return None;
        }
        work[list] = work[self.link(clause)];
        Some(clause)
    }

    // The clauses of one list go to another. No clause stands in two lists, so there are no more than the book has.
    fn move_all(self, from: usize, to: usize, work: &mut [u16])
        requires { Listed self.variables self.clauses from × Listed self.variables self.clauses to × (8192 ≤ length work.old) }
        ensures { Aside self.variables self.clauses work.old work.new }
    {
        for _ in 0..self.clauses {
            let Some(clause) = self.pop(from, work) else {
                return;
            };
            self.push(clause, to, work);
        }
    }

    // The clauses that wait at a variable become due at its level.
    pub fn wake(self, variable: u16, level: u16, work: &mut [u16])
        requires { (1 ≤ variable) × (variable ≤ self.variables) × (8192 ≤ length work.old) }
        ensures { Aside self.variables self.clauses work.old work.new }
    {
        if level < NEVER {
            self.move_all(self.at_variable(variable), self.due(level), work);
        }
    }

    // The lists become empty, and no goal has a level.
    pub fn empty_lists(self, work: &mut [u16])
        requires { 8192 ≤ length work.old }
        ensures { Aside self.variables self.clauses work.old work.new }
    {
        let first = self.lists();
        work[first + DUE..first + VARIABLES + self.variables as usize].fill(0);
        work[first] = NEVER;
    }

    // The list in which a clause begins whose groups have a level. Where they are there from the start it waits at the first variable of its body, which has no
    // level yet.
    pub fn first_list(self, body: &[u8], level: u16) -> usize
        requires { (within 1 self.variables (words body.now) ≡ true) × (level ≤ most_groups) }
        ensures { Listed self.variables self.clauses result }
    {
        match field::words_of(body).next() {
            Some(variable) if level == 0 => self.at_variable(variable),
            _ => self.due(level),
        }
    }

    // The least level that a goal has got.
    pub fn least(self, work: &[u16]) -> u16
        requires { 8192 ≤ length work.now }
    {
        work[self.lists()]
    }

    // The goal that has it, if there is one.
    pub fn goal(self, work: &[u16]) -> Option<u16>
        requires { 8192 ≤ length work.now }
        ensures { IfSome result (λ clause. clause < self.clauses) }
    {
        let clause = work[self.lists() + GOAL];
        if self.clauses <= clause {
            return None;
        }
        Some(clause)
    }

    // The least level of the goals, and the goal that has it, are remembered.
    pub fn note_goal(self, clause: u16, level: u16, work: &mut [u16])
        requires { 8192 ≤ length work.old }
        ensures { Aside self.variables self.clauses work.old work.new }
    {
        let least = self.lists();
        if level < work[least] {
            work[least] = level;
            work[least + GOAL] = clause;
        }
    }

    // The least level of the goals after a pass that ended at a group, for the next pass.
    pub fn lower_goal(self, group: u16, work: &mut [u16])
        requires { (1 ≤ group) × (8192 ≤ length work.old) }
        ensures { Aside self.variables self.clauses work.old work.new }
    {
        let least = self.lists();
        work[least] = work[least].min(group - 1);
    }

    // Whether a run need not go on: not the whole of it is asked for, and a goal has no higher level.
    pub fn is_enough(self, whole: bool, level: u16, work: &[u16]) -> bool
        requires { 8192 ≤ length work.now }
    {
        !whole && self.least(work) <= level
    }

    // The lists after a pass that ended at a group, for the next pass: what was left to do at the group and what waits at it is due at once; what was left
    // above it is of groups that are no longer in the pool.
    pub fn keep_lists(self, group: u16, work: &mut [u16])
        requires { (group ≤ most_groups) × (8192 ≤ length work.old) }
        ensures { Aside self.variables self.clauses work.old work.new }
    {
        let first = self.due(0);
        self.move_all(self.due(group), first, work);
        let lists = self.lists();
        work[lists + DUE + 1..lists + GROUPS].fill(0);
        self.move_all(self.at_group(group), first, work);
    }

    // The word that tells of a variable, among others, whether it is left aside.
    fn aside_word(self, variable: u16) -> usize
        requires { (1 ≤ variable) × (variable ≤ self.variables) }
        ensures { Listed self.variables self.clauses result }
    {
        self.lists() + ASIDE + (variable as usize - 1) / 16
    }

    // Whether a head is a variable that is left aside. A goal's is none.
    pub fn is_aside(self, head: u16, work: &[u16]) -> bool
        requires { (head ≤ self.variables) × (8192 ≤ length work.now) }
    {
        head != 0 && (work[self.aside_word(head)] & aside_bit(head)) != 0
    }

    // The words that tell it become this one: 65535 tells it of every variable, and 0 of none.
    fn put_aside(self, word: u16, work: &mut [u16])
        requires { 8192 ≤ length work.old }
        ensures { Aside self.variables self.clauses work.old work.new }
    {
        let lists = self.lists();
        work[lists + ASIDE..lists + DUE].fill(word);
    }

    // Every variable is left aside.
    pub fn leave_all_aside(self, work: &mut [u16])
        requires { 8192 ≤ length work.old }
        ensures { Aside self.variables self.clauses work.old work.new }
    {
        self.put_aside(65535, work);
    }

    // No variable is left aside.
    pub fn leave_none_aside(self, work: &mut [u16])
        requires { 8192 ≤ length work.old }
        ensures { Aside self.variables self.clauses work.old work.new }
    {
        self.put_aside(0, work);
    }

    // A variable is not left aside. Whether it was.
    fn bring_back(self, variable: u16, work: &mut [u16]) -> bool
        requires { (1 ≤ variable) × (variable ≤ self.variables) × (8192 ≤ length work.old) }
        ensures { Aside self.variables self.clauses work.old work.new }
    {
        let at = self.aside_word(variable);
        let bit = aside_bit(variable);
        // stored only where it changes: variables of one body often share a word
        if work[at] & bit == 0 {
            return false;
        }
        work[at] ^= bit;
        true
    }

    // The variables of a body are not left aside. Whether one of them was.
    pub fn bring_back_all(self, body: &[u8], work: &mut [u16]) -> bool
        requires { (within 1 self.variables (words body.now) ≡ true) × (8192 ≤ length work.old) }
        ensures { Aside self.variables self.clauses work.old work.new }
    {
        let mut found = false;
        for variable in field::words_of(body) {
            if self.bring_back(variable, work) {
                found = true;
            }
        }
        found
    }
}
