// Records in a space of 32-bit words. The layout of a record is known here only: the number of its kind, then its set.
#![tactic(auto)]

ghost use Rattle.std.specs.Prelude.{◌≡◌, ◌*◌, ◌≤◌, ◌<◌, length};
ghost use Rattle.choice.specs.Groups.{width};
ghost use Rattle.rounds.specs.Records.{allows, allowed};
ghost use Rattle.records.specs.Words.{room as room', kind_at as kind_at', set_at as set_at', record_from, records_of, kind_of, set_of, record_is, put_record as put_record', faulty, fault as fault'};

// What a record lists, with the number that stands for it in the first word.
#[derive(Clone, Copy, PartialEq, Eq)]
pub enum Kind {
    Explanation = 1,
    Repair = 2,
}

// An explanation or a repair that is listed: its kind and its groups.
#[derive(Clone, Copy)]
pub struct Record {
    pub kind: Kind,
    pub set: u32,
}

impl Record {
    // Whether the record leaves a choice: it does not contain the explanation, or it shares a group with the repair.
    #[tactic(auto, unfolding(rounds::specs::Records::allows))]
    fn allows(&self, choice: u32) -> bool
        ensures { result ≡ allows (record_is self.now) choice }
    {
        match self.kind {
            Kind::Explanation => (self.set & choice) != self.set,
            Kind::Repair => (self.set & choice) != 0,
        }
    }
}

// The first records of a space, and how many groups their book has.
#[derive(Clone, Copy)]
pub struct Listed<'a> {
    pub records: &'a [u32],
    pub count: usize,
    pub groups: u32,
    pub ghost in_space: { count ≤ room' records.now },
    pub ghost in_word: { groups ≤ width },
}

// How many words a record has.
const RECORD_WORDS: usize = 2;

// How many whole records a space holds.
pub fn room(records: &[u32]) -> usize
    ensures { result ≡ room' records.now }
{
    records.len() / RECORD_WORDS
}

// The kind of record i, counted from 0, as the number that stands there.
pub fn kind_at(records: &[u32], i: usize) -> u32
    requires { i < room' records.now }
    ensures { result ≡ kind_at' records.now i }
{
    records[RECORD_WORDS * i]
}

// Its set.
pub fn set_at(records: &[u32], i: usize) -> u32
    requires { i < room' records.now }
    ensures { result ≡ set_at' records.now i }
{
    records[RECORD_WORDS * i + 1]
}

// The record of a kind and a set, by the number that stands for the kind. Any number but an explanation's is read as a repair's.
#[tactic(auto, unfolding(crate::specs::Words::record_from))]
pub fn record_of(kind: u32, set: u32) -> Record
    ensures { record_is result ≡ record_from kind set }
{
    let kind = if kind == Kind::Explanation as u32 {
        Kind::Explanation
    } else {
        Kind::Repair
    };
    Record { kind, set }
}

// Record i. `fault` finds those whose kind is neither number.
pub fn record_at(records: &[u32], i: usize) -> Record
    requires { i < room' records.now }
    ensures { record_is result ≡ record_from (kind_at' records.now i) (set_at' records.now i) }
{
    record_of(kind_at(records, i), set_at(records, i))
}

// Record i is written, by the number of its kind. Any number can be written; `fault` finds those that are no kind.
#[tactic(auto, unfolding(crate::specs::Words::put_record))]
pub fn put(records: &mut [u32], i: usize, kind: u32, set: u32)
    requires { i < room' records.old }
    ensures { records.new ≡ put_record' records.old i kind set }
{
    records[RECORD_WORDS * i] = kind;
    records[RECORD_WORDS * i + 1] = set;
}

// Record i is written.
#[tactic(auto, unfolding(crate::specs::Words::kind_of, crate::specs::Words::set_of))]
pub fn put_record(records: &mut [u32], i: usize, listed: Record)
    requires { i < room' records.old }
    ensures { records.new ≡ put_record' records.old i (kind_of (record_is listed)) (set_of (record_is listed)) }
{
    put(records, i, listed.kind as u32, listed.set);
}

// Whether all of the first records leave a choice.
pub fn is_allowed(records: &[u32], count: usize, choice: u32) -> bool
    requires { count ≤ room' records.now }
    ensures { result ≡ allowed (records_of records.now count) choice }
{
    for i in 0..count {
        if !record_at(records, i).allows(choice) {
            return false;
        }
    }
    true
}

// Whether a word cannot stand at a place of the records of a book with so many groups.
#[tactic(auto, unfolding(crate::specs::Words::faulty))]
fn is_faulty(place: usize, word: u32, groups: u32) -> bool
    requires { groups ≤ width }
    ensures { result ≡ faulty groups place word }
{
    if place % RECORD_WORDS == 0 {
        return word != Kind::Explanation as u32 && word != Kind::Repair as u32;
    }
    choice::exceeds(word, groups)
}

// The place of the lowest faulty word of the first records; where there is none, how many words they have.
pub fn fault(records: &[u32], count: usize, groups: u32) -> usize
    requires { (count ≤ room' records.now) × (groups ≤ width) }
    ensures { result ≡ fault' groups records.now count }
{
    let words = RECORD_WORDS * count;
    for i in 0..words {
        if is_faulty(i, records[i], groups) {
            return i;
        }
    }
    words
}
