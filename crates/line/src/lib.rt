// Where the lines of a text and the tokens of a line lie, the numbers that tokens spell, and what a line begins as.
#![tactic(auto)]

ghost use Rattle.std.specs.Prelude.{◌≡◌, ◌∷◌, ◌≤◌, ◌<◌, ◌↔◌, Some, IfSome, IsTrue, true, length};
ghost use Rattle.text.specs.Lines.{ends, separates, tokens, same};
ghost use Rattle.text.specs.Forms.{none, heading_line, counts_line};
ghost use Rattle.line.specs.Tokens.{run_of, gap_of, next_of, spelt};
ghost use Rattle.line.specs.Starts.{token_in, group_in, literal_from, next_literal, next_count, groups_form, clauses_form, heading_form, start_from, start_of};
ghost use Rattle.line.specs.declared.Start.TheVariants as StartV;

// Where a token of a line begins and ends.
#[derive(Clone, Copy)]
pub struct Token {
    pub start: usize,
    pub end: usize,
}

// A literal of a line, as far as two bytes hold its number, or the 0 that ends a clause.
#[derive(Clone, Copy)]
pub enum Literal {
    Head(u16),
    Body(u16),
    End,
}

// The three numbers of a `p` line, as far as two bytes hold them.
#[derive(Clone, Copy)]
pub struct Heading {
    pub variables: u16,
    pub clauses: u16,
    pub groups: u16,
}

// What a line begins as. The literals of a clause stand from the place `next` on.
#[derive(Clone, Copy)]
pub enum Start {
    Skipped,
    Heading(Heading),
    Clause { group: u16, next: usize },
}

// How many bytes stand before the first line feed.
pub fn line_length(text: &[u8]) -> usize
    ensures { result ≡ run_of ends text.now }
{
    text.iter()
        .position(|byte| *byte == b'\n')
        .unwrap_or(text.len())
}

#[tactic(auto, unfolding(text::specs::Lines::separates))]
fn is_separator(byte: u8) -> bool
    ensures { result ≡ separates byte }
{
    byte == b' ' || byte == b'\t'
}

// How many blanks and tabs a line begins with.
fn gap(line: &[u8]) -> usize
    ensures { result ≡ gap_of line.now }
{
    line.iter()
        .position(|byte| !is_separator(*byte))
        .unwrap_or(line.len())
}

// How many bytes stand before the first blank or tab.
fn token_length(line: &[u8]) -> usize
    ensures { result ≡ run_of separates line.now }
{
    line.iter()
        .position(|byte| is_separator(*byte))
        .unwrap_or(line.len())
}

// The first token of a line.
#[tactic(auto, using(crate::proofs::Tokens::gap_bound, crate::proofs::Tokens::next_all, crate::proofs::Tokens::next_fits, crate::proofs::Tokens::next_some))]
pub fn next_token(line: &[u8]) -> Option<Token>
    ensures value { result ≡ next_of line.now }
    ensures inside { IfSome result (λ t. (t.start < t.end) × (t.end ≤ length line.now)) }
{
    let start = gap(line);
    if start == line.len() {
        return None;
    }
    let end = start + token_length(&line[start..]);
    Some(Token { start, end })
}

// The number that a token of digits spells, as far as two bytes hold it.
#[tactic(auto, using(crate::proofs::Spelling::spelt_nothing, crate::proofs::Spelling::reading_start, crate::proofs::Spelling::reading_other, crate::proofs::Spelling::reading_end))]
pub fn number_in(token: &[u8]) -> Option<u16>
    ensures { result ≡ spelt token.now }
{
    if token.is_empty() {
        return None;
    }
    let mut n: u32 = 0;
    for byte in token {
        if !byte.is_ascii_digit() {
            return None;
        }
        n = (10 * n + u32::from(byte - b'0')).min(65535);
    }
    Some(n as u16)
}

// Whether a token is a word.
#[tactic(auto, using(crate::proofs::Words::same_bytes))]
pub fn is_word(token: &[u8], word: &[u8]) -> bool
    ensures { result ≡ same token.now word.now }
{
    token == word
}

// Whether a line has no token.
#[tactic(auto, using(crate::proofs::Tokens::none_gap))]
pub fn is_blank(line: &[u8]) -> bool
    ensures { result ≡ none (tokens line.now) }
{
    gap(line) == line.len()
}

// Whether a line is a comment or has no token, so that it is skipped. A shorter way to know it than `start_of`: texts have many such lines.
#[tactic(auto, using(crate::proofs::Steps::comment_first, crate::proofs::Steps::start_comment))]
pub fn is_skipped(line: &[u8]) -> bool
    ensures { IsTrue result ↔ (start_of line.now ≡ Some StartV.Skipped) }
{
    if line.starts_with(b"c") {
        return true;
    }
    gap(line) == line.len()
}

// What a minus and these bytes after it are as a literal.
#[tactic(auto, using(crate::proofs::Steps::minus_by))]
fn minus_from(digits: &[u8]) -> Option<Literal>
    ensures { result ≡ literal_from (45 ∷ digits.now) }
{
    match number_in(digits)? {
        0 => None,
        n => Some(Literal::Body(n)),
    }
}

// What a token is as a literal.
#[tactic(auto, using(crate::proofs::Steps::empty_by, crate::proofs::Steps::minus_first, crate::proofs::Steps::plain_by))]
fn literal_from(token: &[u8]) -> Option<Literal>
    ensures { result ≡ literal_from token.now }
{
    match token {
        [] => None,
        [b'-', digits @ ..] => minus_from(digits),
        _ => match number_in(token)? {
            0 => Some(Literal::End),
            n => Some(Literal::Head(n)),
        },
    }
}

// The next literal of a line, and the place after it.
#[tactic(auto, unfolding(crate::specs::Starts::next_literal))]
pub fn next_literal(line: &[u8]) -> Option<(Literal, usize)>
    ensures value { result ≡ next_literal line.now }
    ensures inside { IfSome result (λ p. (0 < p.1) × (p.1 ≤ length line.now)) }
{
    let token = next_token(line)?;
    let literal = literal_from(&line[token.start..token.end])?;
    Some((literal, token.end))
}

// The group that a token names.
#[tactic(auto, using(crate::proofs::Steps::group_short, crate::proofs::Steps::group_open, crate::proofs::Steps::group_close, crate::proofs::Steps::group_inner))]
fn group_in(token: &[u8]) -> Option<u16>
    ensures { result ≡ group_in token.now }
{
    match token {
        [b'{', digits @ .., b'}'] => number_in(digits),
        _ => None,
    }
}

// The next number of a `p` line, and the place after it.
#[tactic(auto, unfolding(crate::specs::Starts::next_count))]
fn next_count(line: &[u8]) -> Option<(u16, usize)>
    ensures value { result ≡ next_count line.now }
    ensures inside { IfSome result (λ p. p.1 ≤ length line.now) }
{
    let token = next_token(line)?;
    let n = number_in(&line[token.start..token.end])?;
    Some((n, token.end))
}

// The last of the three numbers of a `p` line, and nothing after it.
#[tactic(auto, using(crate::proofs::Steps::groups_by))]
fn groups_from(line: &[u8], variables: u16, clauses: u16) -> Option<Heading>
    ensures { result ≡ groups_form variables clauses (tokens line.now) }
{
    let (groups, next) = next_count(line)?;
    if !is_blank(&line[next..]) {
        return None;
    }
    Some(Heading {
        variables,
        clauses,
        groups,
    })
}

// The second, and what follows.
#[tactic(auto, using(crate::proofs::Steps::clauses_by))]
fn clauses_from(line: &[u8], variables: u16) -> Option<Heading>
    ensures { result ≡ clauses_form variables (tokens line.now) }
{
    let (clauses, next) = next_count(line)?;
    groups_from(&line[next..], variables, clauses)
}

// The three numbers of a `p` line, and nothing after them.
#[tactic(auto, using(crate::proofs::Steps::counts_by))]
fn counts_from(line: &[u8]) -> Option<Heading>
    ensures { result ≡ heading_form (counts_line (tokens line.now)) }
{
    let (variables, next) = next_count(line)?;
    clauses_from(&line[next..], variables)
}

// The numbers of a line that begins with p, by what follows.
#[tactic(auto, using(crate::proofs::Steps::heading_by))]
fn heading_from(line: &[u8]) -> Option<Heading>
    ensures { result ≡ heading_form (heading_line (tokens line.now)) }
{
    let token = next_token(line)?;
    if !is_word(&line[token.start..token.end], b"gcnf") {
        return None;
    }
    counts_from(&line[token.end..])
}

// A line that is no comment, by its first token.
#[tactic(auto, using(crate::proofs::Steps::rest_after), unfolding(crate::specs::Starts::start_from))]
fn start_from(line: &[u8], token: Token) -> Option<Start>
    requires { (token.start ≤ token.end) × (token.end ≤ length line.now) }
    ensures { result ≡ start_from (token_in line.now token) token.end line.now }
{
    let word = &line[token.start..token.end];
    if is_word(word, b"p") {
        let heading = heading_from(&line[token.end..])?;
        return Some(Start::Heading(heading));
    }
    let group = group_in(word)?;
    Some(Start::Clause {
        group,
        next: token.end,
    })
}

// What a line begins as.
#[tactic(auto, using(crate::proofs::Steps::comment_first), unfolding(crate::specs::Starts::start_of))]
pub fn start_of(line: &[u8]) -> Option<Start>
    ensures { result ≡ start_of line.now }
{
    if line.starts_with(b"c") {
        return Some(Start::Skipped);
    }
    match next_token(line) {
        None => Some(Start::Skipped),
        Some(token) => start_from(line, token),
    }
}
