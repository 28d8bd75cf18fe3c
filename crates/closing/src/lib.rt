// What the records decide, until none decides any more, looking at those that may still be open. These stand in front of a list; behind them are those that are
// settled, and records that are not listed are looked at as well. Which records are looked at, and when, is a matter of speed alone: each decision is right.
#![tactic(auto)]

ghost use Rattle.std.specs.Prelude.{◌≡◌, true, ◌+◌, ◌-◌, ◌≤◌, ◌<◌, min, length};
ghost use Rattle.open_list.specs.Entries.{head};
ghost use Rattle.path.specs.Paths.{Leaves, Parts};
ghost use Rattle.closing.specs.Passes.{Passing};

use path::Sides;
use records::{Listed, Record};

// What records decided, and how many of the first records of the list may still be open.
#[derive(Clone, Copy)]
pub struct Open {
    pub sides: Sides,
    pub most: usize,
}

// The places of a pass: the first ones of the list, and behind them the records that are not listed, where the list has so many.
#[derive(Clone, Copy)]
struct Places {
    front: usize,
    listed: usize,
}

// Whether there is such a record, and it has one of the groups decided last. Where every group counts as decided last, a search begins, and every record is
// looked at, also one without a group.
fn is_touched(listed: Listed, i: usize, fresh: u32) -> bool
    ensures { result ≡ true → i < listed.entry.count }
{
    if listed.count <= i {
        return false;
    }
    fresh == !0u32 || (records::record_at(listed.records, i).set & fresh) != 0
}

// The record at place k.
fn entry(count: usize, places: Places, k: usize, list: &[u16]) -> usize
    requires { (k < places.front + (count - places.listed)) × (head + places.front ≤ length list.now) }
{
    if k < places.front {
        return open_list::record_at(k, list);
    }
    places.listed + (k - places.front)
}

// A settled record at place k, if it is listed, goes behind the first m. How many of the first n may still be open, as far as they are looked at.
fn set_aside(k: usize, n: usize, m: usize, list: &mut [u16]) -> usize
    requires { (min (k + 1) n ≤ m) × (m ≤ n) × (head + n ≤ length list.old) }
    ensures { (min k n ≤ result) × (result ≤ m) × (length list.new ≡ length list.old) }
{
    if n <= k {
        return m;
    }
    open_list::exchange(k, m - 1, list);
    m - 1
}

// One place of a pass: a record that has none of the groups decided last is passed over, and so is one that decides nothing and stays open.
fn visit(
    listed: Listed,
    places: Places,
    fresh: u32,
    k: usize,
    before: Open,
    list: &mut [u16],
    why: &mut [u32],
) -> Result<Open, u32>
    requires { (listed.groups ≤ length why.old) × Parts listed.groups before.sides.taken before.sides.left before.sides.free
        × (k < places.front + (listed.count - places.listed)) × (min (k + 1) places.front ≤ before.most) × (before.most ≤ places.front)
        × (head + places.front ≤ length list.old) }
    ensures { Passing listed.entry.groups (Leaves listed.entry) before.sides.taken before.sides.left before.sides.free why.old (min k places.front) before.most result why.new
        × (length list.new ≡ length list.old) }
{
    let i = entry(listed.count, places, k, list);
    if !is_touched(listed, i, fresh) {
        return Ok(before);
    }
    let record = records::record_at(listed.records, i);
    if before.sides.settles(record) {
        let most = set_aside(k, places.front, before.most, list);
        return Ok(Open { most, ..before });
    }
    if !path::is_tight(record, before.sides) {
        return Ok(before);
    }
    let sides = path::advance(listed, i, before.sides, why)?;
    if !sides.settles(record) {
        return Ok(Open { sides, ..before });
    }
    let most = set_aside(k, places.front, before.most, list);
    Ok(Open { sides, most })
}

// What the first records of the list that may be open, and the records that are not listed, decide, each looked at once. Those that are settled go behind the
// others.
fn pass(
    listed: Listed,
    fresh: u32,
    before: Open,
    list: &mut [u16],
    why: &mut [u32],
) -> Result<Open, u32>
    requires { (listed.groups ≤ length why.old) × Parts listed.groups before.sides.taken before.sides.left before.sides.free
        × (head + before.most ≤ length list.old) × (length list.old ≤ 8192) }
    ensures { Passing listed.entry.groups (Leaves listed.entry) before.sides.taken before.sides.left before.sides.free why.old 0 before.most result why.new
        × (length list.new ≡ length list.old) }
{
    let places = Places {
        front: before.most,
        listed: open_list::listed(list),
    };
    let mut now = before;
    for k in (0..places.front + listed.count.saturating_sub(places.listed)).rev() {
        now = visit(listed, places, fresh, k, now, list, why)?;
    }
    Ok(now)
}

// What the records decide, until none decides any more: each pass looks at the records of the groups that the pass before decided. Or the trials that rule the
// path out.
pub fn close(
    listed: Listed,
    fresh: u32,
    before: Open,
    list: &mut [u16],
    why: &mut [u32],
) -> Result<Open, u32>
    requires { (listed.groups ≤ length why.old) × Parts listed.groups before.sides.taken before.sides.left before.sides.free
        × (head + before.most ≤ length list.old) × (length list.old ≤ 8192) }
    ensures { Passing listed.entry.groups (Leaves listed.entry) before.sides.taken before.sides.left before.sides.free why.old 0 before.most result why.new
        × (length list.new ≡ length list.old) }
{
    let mut last = fresh;
    let mut now = before;
    loop {
        let next = pass(listed, last, now, list, why)?;
        if next.sides.free == now.sides.free {
            return Ok(next);
        }
        last = now.sides.free - next.sides.free;
        now = next;
    }
}
