// The list of open records: record numbers in lent words, arranged so that the records that the last seed leaves open, group by group from above, stand in front.
// Words 0 to 31: for each group, how many of the records may still be open where the groups above it are as in the last seed; word 32: how many records are
// listed; then their numbers. No answer rests on the list: it is where a search looks first. But it loses no record. The words are a part of the caller's
// working space (nothing is allocated), lent to each call, so each call's contract says that they hold the head.
#![tactic(auto)]

ghost use Rattle.std.specs.Prelude.{◌≡◌, ℕ, ◌+◌, ◌-◌, ◌≤◌, ◌<◌, length, get_or};
ghost use Rattle.choice.specs.Groups.{width};
ghost use Rattle.records.specs.Words.{room};
ghost use Rattle.open_list.specs.Entries.{head, entry_at, capped as capped', bound_of, listed_of, Among, Beside, Keeps, exchanged};

use records::{Kind, Record};

// The word that says how many records are listed.
const LISTED: usize = choice::PLACES;

// Where the list starts.
const HEAD: usize = LISTED + 1;

// So many entries, or as many as there is room for.
fn capped(n: usize, list: &[u16]) -> usize
    requires { head ≤ length list.now }
    ensures { result ≡ capped' list.now n }
{
    n.min(list.len() - HEAD)
}

// How many of the records, from the front, a group bounds.
pub fn bound(g: u32, list: &[u16]) -> usize
    requires { (g < width) × (head ≤ length list.now) }
    ensures { result ≡ bound_of list.now g }
{
    capped(usize::from(list[g as usize]), list)
}

// How many records are listed.
pub fn listed(list: &[u16]) -> usize
    requires { head ≤ length list.now }
    ensures { result ≡ listed_of list.now }
{
    capped(usize::from(list[LISTED]), list)
}

// The record at a place.
pub fn record_at(k: usize, list: &[u16]) -> usize
    requires { head + k < length list.now }
    ensures { result ≡ entry_at list.now k }
{
    usize::from(list[HEAD + k])
}

// The records at two places change places.
#[tactic(auto, unfolding(crate::specs::Entries::exchanged))]
pub fn exchange(k: usize, m: usize, list: &mut [u16])
    requires { (head + k < length list.old) × (head + m < length list.old) }
    ensures { list.new ≡ exchanged k m list.old }
{
    list.swap(HEAD + k, HEAD + m);
}

// One more record within a group's bound: the first one beyond it moves to the free place p, and its own place is free.
fn shift(g: u32, p: usize, list: &mut [u16]) -> usize
    requires { (g < width) × (head + p < length list.old) × (length list.old ≤ 8192) }
    ensures { (result ≤ p) × (length list.new ≡ length list.old)
        × ((n i : ℕ) → p < n → Beside n p list.old i → Beside n result list.new i) }
{
    let b = bound(g, list);
    if p < b {
        return p;
    }
    list[HEAD + p] = list[HEAD + b];
    list[g as usize] = (b + 1) as u16;
    b
}

// The record that follows those listed joins them, within every bound, where there is room.
pub fn insert(i: usize, groups: u32, list: &mut [u16])
    requires { (groups ≤ width) × (head ≤ length list.old) × (length list.old ≤ 8192) }
    ensures { (length list.new ≡ length list.old)
        × (listed_of list.old ≡ i → head + i < length list.old → (listed_of list.new ≡ i + 1) × Among (i + 1) list.new i
        × ((j : ℕ) → Among i list.old j → Among (i + 1) list.new j)) }
{
    let n = listed(list);
    if n != i || list.len() - HEAD <= n {
        return;
    }
    let mut p = n;
    for g in (0..groups).rev() {
        p = shift(g, p, list);
    }
    list[HEAD + p] = i as u16;
    list[LISTED] = (n + 1) as u16;
}

// Whether a seed settles a record at a group, a choice of one: an explanation has it and the seed does not, or a repair and the seed have it.
fn is_settled(listed: Record, seed: u32, group: u32) -> bool {
    if listed.set & group == 0 {
        return false;
    }
    match listed.kind {
        Kind::Explanation => seed & group == 0,
        Kind::Repair => seed & group != 0,
    }
}

// Of the first n records, those that a seed settles at a group go behind the others. How many others there are.
fn part(records: &[u32], count: usize, seed: u32, g: u32, n: usize, list: &mut [u16]) -> usize
    requires { (count ≤ room records.now) × (g < width) × (head + n ≤ length list.old) }
    ensures { (result ≤ n) × Keeps n list.old list.new }
{
    let group = choice::bit(g);
    let mut m = n;
    for k in (0..n).rev() {
        let i = record_at(k, list);
        if i < count && is_settled(records::record_at(records, i), seed, group) {
            m -= 1;
            exchange(k, m, list);
        }
    }
    m
}

// The records within a group's bound are arranged by a seed, from the group down.
pub fn arrange(records: &[u32], count: usize, seed: u32, top: u32, list: &mut [u16])
    requires { (count ≤ room records.now) × (top < width) × (head ≤ length list.old) × (length list.old ≤ 8192) }
    ensures { Keeps (bound_of list.old top) list.old list.new }
{
    let mut n = bound(top, list);
    for g in (0..=top).rev() {
        list[g as usize] = n as u16;
        n = part(records, count, seed, g, n, list);
    }
}

// The first n records are listed in their order.
fn number(n: usize, list: &mut [u16])
    requires { (head + n ≤ length list.old) × (length list.old ≤ 8192) }
    ensures { (length list.new ≡ length list.old) × (listed_of list.new ≡ n) × ((k : ℕ) → k < n → entry_at list.new k ≡ k) }
{
    for k in 0..n {
        list[HEAD + k] = k as u16;
    }
    list[LISTED] = n as u16;
}

// Every group bounds n records.
fn widen(n: usize, groups: u32, list: &mut [u16])
    requires { (groups ≤ width) × (head ≤ length list.old) × (n ≤ 8192) }
    ensures { (length list.new ≡ length list.old) × ((j : ℕ) → width ≤ j → get_or list.new j 0 ≡ get_or list.old j 0) }
{
    list[..groups as usize].fill(n as u16);
}

// The first records are listed, as many as there is room for, and each may be open.
pub fn fill(count: usize, groups: u32, list: &mut [u16])
    requires { (groups ≤ width) × (head ≤ length list.old) × (length list.old ≤ 8192) }
    ensures { (length list.new ≡ length list.old) × (listed_of list.new ≡ capped' list.old count)
        × ((i : ℕ) → i < capped' list.old count → Among (capped' list.old count) list.new i) }
{
    let n = capped(count, list);
    number(n, list);
    widen(n, groups, list);
}
