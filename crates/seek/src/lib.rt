// The seed: the largest choice that contains no listed explanation and shares a group with every listed repair. The search decides the highest group that is
// still free, first in, then out, and lets the records decide what follows. Each decided group keeps the trials that it rests on, so a branch that fails names the
// trials that made it fail, and the search goes back to the last of them. Every choice is tested against all records before it is answered. The records that may
// still be open stand in front of a list, so that a branch looks only at those that its first part left open.
#![tactic(auto)]

ghost use Rattle.std.specs.Prelude.{◌≡◌, ℕ, suc, ◌+◌, ◌^◌, ◌≤◌, ◌<◌, length};
ghost use Rattle.meaning.specs.Choice.{Inside};
ghost use Rattle.rounds.specs.Rounds.{seed};
ghost use Rattle.choice.specs.Groups.{width};
ghost use Rattle.records.specs.Words.{room, records_of};
ghost use Rattle.open_list.specs.Entries.{head};
ghost use Rattle.path.specs.Paths.{Fits, Leaves, Parts, Reasons, Same};
ghost use Rattle.seek.specs.Paths.{leaf_of, Seeks, sought_is, reason_of, Along, Clear, Tries};

use closing::Open;
use path::Sides;
use records::Listed;

// Every group is decided: the choice, if all records leave it; or the trials, which rule it out.
#[tactic(auto, unfolding(crate::specs::Paths::leaf_of))]
fn leaf(listed: Listed, held: u32, taken: u32) -> Result<u32, u32>
    ensures { result ≡ leaf_of (records_of listed.entry.records.now listed.entry.count) held taken }
{
    if records::is_allowed(listed.records, listed.count, taken) {
        return Ok(taken);
    }
    Err(held)
}

// The largest choice that fits and contains the trials: with the highest free group, else without it; or the trials that rule out every choice that contains them.
// Deeper searches only change the order of the records that may be open.
fn search(
    listed: Listed,
    held: u32,
    fresh: u32,
    before: Open,
    list: &mut [u16],
    why: &mut [u32],
) -> Result<u32, u32>
    requires { (listed.groups ≤ length why.old) × Parts listed.groups before.sides.taken before.sides.left before.sides.free
        × Reasons (Leaves listed) held before.sides.taken before.sides.left why.old × (head + before.most ≤ length list.old) × (length list.old ≤ 8192) }
    ensures { Seeks (Leaves listed.entry) held result × Same before.sides.free why.old why.new × (length list.new ≡ length list.old) }
{
    let now = closing::close(listed, fresh, before, list, why)?;
    let Sides { free, taken, left } = now.sides;
    if free == 0 {
        return leaf(listed, held, taken);
    }
    let group = choice::highest(free, listed.groups);
    let b = choice::bit(group);
    why[group as usize] = b;
    let sides = Sides {
        free: free - b,
        taken: taken + b,
        left,
    };
    let ruled = match search(listed, held + b, b, Open { sides, ..now }, list, why) {
        Ok(choice) => return Ok(choice),
        Err(ruled) => ruled,
    };
    if (ruled & b) == 0 {
        return Err(ruled);
    }
    why[group as usize] = ruled - b;
    let sides = Sides {
        free: free - b,
        taken,
        left: left + b,
    };
    search(listed, held, b, Open { sides, ..now }, list, why)
}

// The list is arranged by a seed, from the highest group down.
fn arrange_all(listed: Listed, seed: u32, list: &mut [u16])
    requires { (head ≤ length list.old) × (length list.old ≤ 8192) }
{
    if listed.groups == 0 {
        return;
    }
    open_list::arrange(listed.records, listed.count, seed, listed.groups - 1, list);
}

// The seed, by a search that starts with no group decided. All records may be open; the list is arranged for the search below this seed.
pub fn seek(records: &[u32], count: usize, groups: u32, list: &mut [u16]) -> Option<u32>
    requires { (count ≤ room records.now) × (groups ≤ width) × (head ≤ length list.old) × (length list.old ≤ 8192) }
    ensures { sought_is result ≡ seed groups (records_of records.now count) }
{
    let listed = Listed {
        records,
        count,
        groups,
    };
    let mut why = [0u32; choice::PLACES];
    open_list::fill(count, groups, list);
    let before = Open {
        sides: Sides {
            free: choice::all(groups),
            taken: 0,
            left: 0,
        },
        most: open_list::listed(list),
    };
    match search(listed, 0, !0u32, before, list, &mut why) {
        Ok(choice) => {
            arrange_all(listed, choice, list);
            Some(choice)
        }
        Err(_) => None,
    }
}

// What a group rests on along the last seed.
#[tactic(auto, unfolding(crate::specs::Paths::reason_of))]
fn reason(last: u32, g: u32) -> u32
    requires { g < width }
    ensures { result ≡ reason_of last g }
{
    if choice::has(last, g) {
        return choice::bit(g);
    }
    choice::above(last, g)
}

// The reasons of all groups along the last seed.
fn lay(last: u32, groups: u32, why: &mut [u32])
    requires { (groups ≤ width) × (groups ≤ length why.old) }
    ensures { Along last groups 0 why.new × (length why.new ≡ length why.old) }
{
    for g in 0..groups {
        why[g as usize] = reason(last, g);
    }
}

// The largest choice that agrees with the last seed above a group and lacks the group, unless the groups ruled out rule it out.
fn try_below(
    listed: Listed,
    last: u32,
    ruled: u32,
    g: u32,
    list: &mut [u16],
    why: &mut [u32],
) -> Result<u32, u32>
    requires { (listed.groups ≤ length why.old) × (g < listed.groups) × (last < 2 ^ listed.groups) × Along last listed.groups g why.old
        × ((z : ℕ) → Leaves listed z → z < last) × ((z : ℕ) → Leaves listed z → Inside ruled z → ⊥)
        × Clear (Leaves listed) last g × (head ≤ length list.old) × (length list.old ≤ 8192) }
    ensures { Tries (Leaves listed.entry) last g result × Along last listed.entry.groups (suc g) why.new
        × (length why.new ≡ length why.old) × (length list.new ≡ length list.old) }
{
    if !choice::has(last, g) {
        return Err(ruled);
    }
    let held = choice::above(last, g);
    if (ruled & held) == ruled {
        return Err(ruled);
    }
    let free = choice::bit(g) - 1;
    why[g as usize] = held;
    let left = choice::all(listed.groups) - held - free;
    let before = Open {
        sides: Sides {
            free,
            taken: held,
            left,
        },
        most: open_list::bound(g, list),
    };
    search(listed, held, !0u32, before, list, why)
}

// Groups of the last seed that no choice that fits contains: those that the newest record rests on, which rules the last seed out, or all of them.
fn newest(listed: Listed, last: u32, why: &mut [u32]) -> u32
    requires { (listed.groups ≤ length why.old) × (last < 2 ^ listed.groups) × Along last listed.groups 0 why.old
        × ((z : ℕ) → Leaves listed z → z < last) }
    ensures { ((z : ℕ) → Leaves listed.entry z → Inside result z → ⊥) × Along last listed.entry.groups 0 why.new × (length why.new ≡ length why.old) }
{
    if listed.count == 0 {
        return last;
    }
    let left = choice::all(listed.groups) - last;
    let sides = Sides {
        free: 0,
        taken: last,
        left,
    };
    match path::advance(listed, listed.count - 1, sides, why) {
        Ok(_) => last,
        Err(ruled) => ruled,
    }
}

// The newest record joins the list.
fn join(count: usize, groups: u32, list: &mut [u16])
    requires { (groups ≤ width) × (head ≤ length list.old) × (length list.old ≤ 8192) }
    ensures { length list.new ≡ length list.old }
{
    if count == 0 {
        return;
    }
    open_list::insert(count - 1, groups, list);
}

// The seed below the last one, which every choice that fits is less than: those that agree with the last seed the longest come first.
pub fn seek_below(
    records: &[u32],
    count: usize,
    groups: u32,
    last: u32,
    list: &mut [u16],
) -> Option<u32>
    requires { (count ≤ room records.now) × (groups ≤ width) × (last < 2 ^ groups)
        × ((z : ℕ) → Fits groups (records_of records.now count) z → z < last) × (head ≤ length list.old) × (length list.old ≤ 8192) }
    ensures { sought_is result ≡ seed groups (records_of records.now count) }
{
    let listed = Listed {
        records,
        count,
        groups,
    };
    let mut why = [0u32; choice::PLACES];
    lay(last, groups, &mut why);
    let mut ruled = newest(listed, last, &mut why);
    join(count, groups, list);
    for g in 0..groups {
        match try_below(listed, last, ruled, g, list, &mut why) {
            Ok(choice) => {
                open_list::arrange(records, count, choice, g, list);
                return Some(choice);
            }
            Err(more) => ruled = more,
        }
    }
    None
}
