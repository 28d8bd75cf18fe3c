// A group CNF text turned into a rule book. First all of it is tested, and then its clauses are gone through again and written.
#![tactic(auto)]

ghost use Rattle.std.specs.Prelude.{◌≡◌, ◌+◌, ◌^◌, ◌<◌, ◌≤◌, MatchOption, length};
ghost use Rattle.answer.specs.Answer.{first};
ghost use Rattle.answer.specs.Refusals.{wrong_is, answer_is};
ghost use Rattle.answer.specs.Space.{written_is, counted, laid, Wrote};
ghost use Rattle.book.specs.Bytes.{clauses_bytes};
ghost use Rattle.text.specs.Lines.{lines};
ghost use Rattle.text.specs.Taking.{heading_tests, following};
ghost use Rattle.writer.specs.Steps.{taken_of};
ghost use Rattle.text_reader.specs.FromText.{from_rest, from_text};
ghost use Rattle.text_reader.specs.Steps.{past_of, line_in, after_line, heading_of, opening_of, clauses_of, AreClauses};

use answer::{Cause, Refusal};
use book::{MOST_CLAUSES, MOST_GROUPS, MOST_VARIABLES};
use clause_line::Limits;
use line::{Heading, Start};
use writer::Taken;

// The `p` line of a text: its numbers, its line's number, and the place after it.
#[derive(Clone, Copy)]
struct Opening {
    heading: Heading,
    line: usize,
    next: usize,
}

// Whether the numbers of a `p` line are right; else why not.
#[tactic(auto, unfolding(answer::specs::Answer::first))]
fn test_heading(heading: Heading) -> Result<(), Cause>
    ensures { wrong_is result ≡ first (heading_tests heading.variables heading.clauses heading.groups) }
{
    let Heading {
        variables,
        clauses,
        groups,
    } = heading;
    if variables < 1 {
        return Err(Cause::OutOfRange);
    }
    if MOST_VARIABLES < variables {
        return Err(Cause::OutOfRange);
    }
    if MOST_GROUPS < groups {
        return Err(Cause::OutOfRange);
    }
    if MOST_CLAUSES < clauses {
        return Err(Cause::OutOfRange);
    }
    Ok(())
}

// The place after a line of `length` bytes that stands first: past its line feed, if it has one.
#[tactic(auto, unfolding(crate::specs::Steps::past_of))]
fn past(text: &[u8], length: usize) -> usize
    ensures { result ≡ past_of text.now length }
{
    if length < text.len() {
        return length + 1;
    }
    length
}

// The first line of a text, and what follows its line feed. An empty text has none.
fn split_line(text: &[u8]) -> Option<(&[u8], &[u8])>
    ensures { MatchOption result (length text.now ≡ 0) (λ p. (p.0.now ≡ line_in text.now) × (p.1.now ≡ after_line text.now) × (0 < length text.now)) }
{
    if text.is_empty() {
        return None;
    }
    let end = line::line_length(text);
    let next = past(text, end);
    Some((&text[..end], &text[next..]))
}

// What a `p` line with these numbers is found to be.
fn open_heading(heading: Heading, line: usize, next: usize) -> Result<Opening, Refusal>
    ensures { answer_is (λ o. o) result ≡ heading_of heading line next }
{
    test_heading(heading).map_err(|cause| cause.at(line))?;
    Ok(Opening {
        heading,
        line,
        next,
    })
}

// The lines up to the `p` line.
fn open_text(text: &[u8]) -> Result<Opening, Refusal>
    ensures { answer_is (λ o. o) result ≡ opening_of text.now }
{
    let mut rest = text;
    let mut line: usize = 1;
    while let Some((first, later)) = split_line(rest) {
        match line::start_of(first) {
            Some(Start::Skipped) => {}
            Some(Start::Heading(heading)) => {
                return open_heading(heading, line, text.len() - later.len());
            }
            Some(Start::Clause { .. }) => return Err(Cause::Formless.at(line)),
            None => return Err(Cause::Formless.at(line)),
        }
        rest = later;
        line += 1;
    }
    Err(Cause::Formless.at(0))
}

// Clause by clause after the `p` line, which has these numbers and is line `opened`.
fn take_clauses(clauses: &[u8], heading: Heading, opened: usize) -> Result<Taken, Refusal>
    requires { (heading.variables < 65535) × (heading.groups < 65535) × (opened + length clauses.now ≤ 2 ^ 63) }
    ensures { answer_is (λ t. t) result ≡ taken_of (following heading.variables heading.clauses heading.groups opened (lines clauses.now)) }
{
    let Heading {
        variables,
        groups,
        ..
    } = heading;
    let mut body = [0u16; 33];
    let mut rest = clauses;
    let mut line = opened + 1;
    let mut left = MOST_CLAUSES;
    let mut length: usize = 10;
    while let Some((first, later)) = split_line(rest) {
        let limits = Limits {
            variables,
            groups,
            left,
        };
        let step = clause_line::step_of(first, limits, &mut body);
        if let Some(clause) = step.map_err(|cause| cause.at(line))? {
            length += 7 + 2 * clause.count;
            left -= 1;
        }
        rest = later;
        line += 1;
    }
    if MOST_CLAUSES - left != heading.clauses {
        return Err(Cause::WrongClauseCount.at(opened));
    }
    Ok(Taken {
        variables,
        groups,
        length,
    })
}

// Writes the clauses after the `p` line of a text that was taken, and the end, from 7 on.
fn put_clauses(clauses: &[u8], variables: u16, groups: u16, out: &mut [u8]) -> usize
    requires variables_bound { (variables < 65535) × (groups < 65535) × AreClauses variables groups clauses.now }
    requires rest_in_bounds { 7 + length (clauses_bytes (clauses_of variables groups clauses.now)) ≤ length out.old }
    ensures { Wrote out.old 7 (clauses_bytes (clauses_of variables groups clauses.now)) out.new result }
{
    let mut body = [0u16; 33];
    let mut rest = clauses;
    let mut left = MOST_CLAUSES;
    let mut at: usize = 7;
    while let Some((first, later)) = split_line(rest) {
        let limits = Limits {
            variables,
            groups,
            left,
        };
        // a text that was taken has no line that is refused
        let step = clause_line::step_of(first, limits, &mut body).unwrap();
        if let Some(clause) = step {
            at = writer::put_clause(clause.group, clause.head, &body[..clause.count], out, at);
            left -= 1;
        }
        rest = later;
    }
    field::put_front(0, 0, out, at)
}

// Writes the book whose `p` line is line `opened` and has these numbers, and whose clauses are in `rest`.
fn write_rest(
    rest: &[u8],
    heading: Heading,
    opened: usize,
    out: &mut [u8],
) -> Result<usize, Refusal>
    requires { (heading.variables < 65535) × (heading.groups < 65535) × (opened + length rest.now ≤ 2 ^ 63) }
    ensures { (written_is result ≡ counted (from_rest heading.variables heading.clauses heading.groups opened rest.now (length out.old)))
        × (out.new ≡ laid (from_rest heading.variables heading.clauses heading.groups opened rest.now (length out.old)) out.old) }
{
    let taken = take_clauses(rest, heading, opened)?;
    taken.test_room(out.len()).map_err(|cause| cause.at(0))?;
    writer::put_header(taken.variables, taken.groups, out);
    let count = put_clauses(rest, taken.variables, taken.groups, out);
    Ok(count)
}

// Turns a text into a book.
pub fn from_text(text: &[u8], out: &mut [u8]) -> Result<usize, Refusal>
    ensures { (written_is result ≡ counted (from_text text.now (length out.old))) × (out.new ≡ laid (from_text text.now (length out.old)) out.old) }
{
    let opening = open_text(text)?;
    write_rest(&text[opening.next..], opening.heading, opening.line, out)
}
