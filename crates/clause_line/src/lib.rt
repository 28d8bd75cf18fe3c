// What a line after the `p` line adds: nothing, a clause, or the refusal.
#![tactic(auto)]

ghost use Rattle.std.specs.Prelude.{◌≡◌, true, ◌||◌, ◌<◌, ◌≤◌, ltb, length, take};
ghost use Rattle.answer.specs.Answer.{first};
ghost use Rattle.answer.specs.Refusals.{wrong_is};
ghost use Rattle.answer.specs.Space.{over};
ghost use Rattle.field.specs.Words.{rising};
ghost use Rattle.text.specs.Lines.{tokens};
ghost use Rattle.text.specs.Forms.{literals};
ghost use Rattle.clause_line.specs.Steps.{capped, place_of, put_in, inserted_of, kept_of, scan_of, found_tests, told, step_from, step_of, body_after};

use answer::Cause;
use line::{Literal, Start};

// What a clause is tested against: how many variables and groups there are, none of them a number cut at 65,535, and for how many clauses room is left.
#[derive(Clone, Copy)]
pub struct Limits {
    pub variables: u16,
    pub groups: u16,
    pub left: u16,
    pub ghost exact: { (variables < 65535) × (groups < 65535) },
}

// A clause that a line adds. The first `count` of the words that were lent are its body.
#[derive(Clone, Copy)]
pub struct Clause {
    pub group: u16,
    pub head: u16,
    pub count: usize,
}

// What the literals of a clause are found to be: whether one is beyond the variables, whether there are two different heads, the head (0 for none),
// and how many different variables are in the body, up to 33.
#[derive(Clone, Copy)]
struct Scan {
    beyond: bool,
    several: bool,
    head: u16,
    count: usize,
}

// The place of n among rising words: the first that is not below it. It is sought from the back, where the next number of a text mostly goes.
fn place_of(words: &[u16], n: u16) -> usize
    requires { rising 0 words.now ≡ true }
    ensures { result ≡ place_of words.now n }
{
    words.len() - words.iter().rev().take_while(|w| **w >= n).count()
}

// Puts n at place k of the first `count` words.
#[tactic(auto, using(crate::proofs::Places::shift_end))]
fn shift_in(words: &mut [u16], count: usize, k: usize, n: u16)
    requires { (k ≤ count) × (count < length words.old) }
    ensures { words.new ≡ over (put_in k n (take count words.old)) words.old }
{
    words.copy_within(k..count, k + 1);
    words[k] = n;
}

// Puts n into the first `count` words, which rise, unless it is there or there are enough, and gives how many there are then.
// The count stands beside the words since these are lent by the caller, whom `step_of` tells what they hold after it (`body_after`).
#[tactic(auto, using(crate::proofs::Places::inserts_full, crate::proofs::Places::inserts_there, crate::proofs::Places::inserts_put, crate::proofs::Places::place_inside))]
fn insert(words: &mut [u16], count: usize, n: u16) -> usize
    requires { (count ≤ 33) × (33 ≤ length words.old) × (rising 0 (take count words.old) ≡ true) }
    ensures value { result ≡ length (inserted_of (take count words.old) n) }
    ensures words_after { words.new ≡ over (inserted_of (take count words.old) n) words.old }
{
    if count == 33 {
        return count;
    }
    let k = place_of(&words[..count], n);
    if k < count && words[k] == n {
        return count;
    }
    shift_in(words, count, k, n);
    count + 1
}

// The literals of a clause after its group, if they end as those of a clause do. The negative ones are put into the front of `body`, rising, each once.
#[tactic(auto, using(crate::proofs::Scans::scan_start))]
fn scan_literals(rest: &[u8], variables: u16, body: &mut [u16]) -> Option<Scan>
    requires { 33 ≤ length body.old }
    ensures value { result ≡ scan_of variables (tokens rest.now) }
    ensures body_after { body.new ≡ over (kept_of (capped (literals (tokens rest.now)))) body.old }
{
    let mut t = rest;
    let mut scan = Scan {
        beyond: false,
        several: false,
        head: 0,
        count: 0,
    };
    loop {
        let (literal, next) = line::next_literal(t)?;
        t = &t[next..];
        match literal {
            Literal::Head(n) => {
                let head = if scan.head == 0 { n } else { scan.head };
                scan.beyond |= variables < n;
                scan.several |= head != n;
                scan.head = head;
            }
            Literal::Body(n) => {
                scan.beyond |= variables < n;
                scan.count = insert(body, scan.count, n);
            }
            Literal::End => break,
        }
    }
    if line::is_blank(t) { Some(scan) } else { None }
}

// What is wrong with a clause of a group, if something is.
#[tactic(auto, unfolding(answer::specs::Answer::first))]
fn wrong_clause(group: u16, scan: Scan, limits: Limits) -> Result<(), Cause>
    ensures { wrong_is result ≡ first (found_tests (ltb limits.groups group || scan.beyond) scan.several limits.left scan.count) }
{
    if limits.groups < group || scan.beyond {
        return Err(Cause::OutOfRange);
    }
    if scan.several {
        return Err(Cause::SeveralHeads);
    }
    if limits.left == 0 {
        return Err(Cause::TooManyClauses);
    }
    if 32 < scan.count {
        return Err(Cause::BadLength);
    }
    Ok(())
}

// What a clause of a group adds, from the place after its group on.
#[tactic(auto, using(crate::proofs::Steps::from_none, crate::proofs::Steps::from_some, crate::proofs::Steps::unless_right, crate::proofs::Steps::unless_cause))]
fn clause_step(rest: &[u8], group: u16, limits: Limits, body: &mut [u16]) -> Result<Clause, Cause>
    requires { 33 ≤ length body.old }
    ensures value { told result ≡ step_from limits.groups limits.left group (scan_of limits.variables (tokens rest.now)) }
    ensures body_after { body.new ≡ over (kept_of (capped (literals (tokens rest.now)))) body.old }
{
    let Some(scan) = scan_literals(rest, limits.variables, body) else {
        return Err(Cause::Formless);
    };
    wrong_clause(group, scan, limits)?;
    Ok(Clause {
        group,
        head: scan.head,
        count: scan.count,
    })
}

// What a line after the `p` line adds.
#[tactic(auto, using(crate::proofs::Steps::step_by, crate::proofs::Steps::body_by, crate::proofs::Steps::clause_inside))]
pub fn step_of(line: &[u8], limits: Limits, body: &mut [u16]) -> Result<Option<Clause>, Cause>
    requires { 33 ≤ length body.old }
    ensures value { told result ≡ step_of limits.variables limits.groups limits.left line.now }
    ensures body_after { body.new ≡ body_after line.now body.old }
{
    if line::is_skipped(line) {
        return Ok(None);
    }
    match line::start_of(line) {
        Some(Start::Skipped) => Ok(None),
        Some(Start::Clause { group, next }) => {
            let clause = clause_step(&line[next..], group, limits, body)?;
            Ok(Some(clause))
        }
        Some(Start::Heading(_)) => Err(Cause::Formless),
        None => Err(Cause::Formless),
    }
}
