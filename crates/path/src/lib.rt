// What one record decides: a record all of whose groups but one are decided against it decides the last one, and one all of whose groups are rules the path out.
// Each decided group keeps the trials that it rests on, so that a record that rules the path out names the trials that made it.
#![tactic(auto)]

ghost use Rattle.std.specs.Prelude.{◌≡◌, ◌+◌, ◌^◌, ◌≤◌, ◌<◌, length};
ghost use Rattle.choice.specs.Groups.{width};
ghost use Rattle.rounds.specs.Records.{meets};
ghost use Rattle.path.specs.Paths.{Leaves, Parts, in_favour, against, decided, gathered, Pressing, Closing};

use records::{Kind, Listed, Record};

// The groups of a book along a path: free, or decided, in or out. That each is on one side (`Parts`) stays in the contracts: it is about how many groups there are,
// which the sides do not say.
#[derive(Clone, Copy)]
pub struct Sides {
    pub free: u32,
    pub taken: u32,
    pub left: u32,
}

impl Sides {
    // The groups decided in favour of the records of a kind: a record that has one of them is settled.
    fn in_favour(self, kind: Kind) -> u32
        ensures { result ≡ in_favour kind self }
    {
        match kind {
            Kind::Explanation => self.left,
            Kind::Repair => self.taken,
        }
    }

    // The groups decided against the records of a kind: no record has these groups alone.
    fn against(self, kind: Kind) -> u32
        ensures { result ≡ against kind self }
    {
        match kind {
            Kind::Explanation => self.taken,
            Kind::Repair => self.left,
        }
    }

    // A free group is decided in favour of a record.
    fn decide(self, kind: Kind, g: u32) -> Sides
        requires { (g < width) × (2 ^ g ≤ self.free) × (self.taken + 2 ^ g < 2 ^ width) × (self.left + 2 ^ g < 2 ^ width) }
        ensures { result ≡ decided kind g self }
    {
        let b = choice::bit(g);
        let free = self.free - b;
        match kind {
            Kind::Explanation => Sides {
                free,
                left: self.left + b,
                ..self
            },
            Kind::Repair => Sides {
                free,
                taken: self.taken + b,
                ..self
            },
        }
    }

    // Whether one of a record's groups is decided in its favour, so that it leaves every choice of this branch.
    pub fn settles(self, record: Record) -> bool
        ensures { result ≡ meets «record».set (in_favour «record».kind self) }
    {
        (record.set & self.in_favour(record.kind)) != 0
    }
}

// What the groups of a set rest on.
fn gather(set: u32, groups: u32, why: &[u32]) -> u32
    requires { (groups ≤ width) × (groups ≤ length why.now) × (set < 2 ^ groups) }
    ensures { result ≡ gathered why.now set groups }
{
    let mut all: u32 = 0;
    let mut rest = set;
    // It goes from group to group of the set; a `for` over all groups would visit the others too.
    while rest != 0 {
        let g = choice::highest(rest, groups);
        let i = g as usize;
        all |= why[i];
        rest -= choice::bit(g);
    }
    all
}

// Whether a record may decide a group, or rule the path out: none of its groups is decided in its favour, and at most one is free. A hint, on which no answer
// rests.
pub fn is_tight(record: Record, sides: Sides) -> bool {
    let rest = record.set & !sides.against(record.kind);
    !sides.settles(record) && (rest == 0 || (rest & (rest - 1)) == 0)
}

// A record's groups cannot all be on one side. If all are, what put them there rules the path out; if all but one are, and that one is free, it goes to the other
// side: the group is answered, and keeps what it rests on.
fn press(set: u32, side: u32, free: u32, groups: u32, why: &mut [u32]) -> Result<Option<u32>, u32>
    requires { (groups ≤ width) × (groups ≤ length why.old) }
    ensures { Pressing groups set side free why.old result why.new }
{
    if choice::exceeds(set, groups) {
        return Ok(None);
    }
    let reason = gather(set & side, groups, why);
    let rest = set - (set & side);
    if rest == 0 {
        return Err(reason);
    }
    let group = choice::highest(rest, groups);
    if choice::bit(group) != rest || !choice::has(free, group) {
        return Ok(None);
    }
    let i = group as usize;
    why[i] = reason;
    Ok(Some(group))
}

// What one record decides; or the trials that rule the path out.
pub fn advance(listed: Listed, i: usize, sides: Sides, why: &mut [u32]) -> Result<Sides, u32>
    requires { (i < listed.count) × (listed.groups ≤ length why.old) × Parts listed.groups sides.taken sides.left sides.free }
    ensures { Closing listed.entry.groups (Leaves listed.entry) sides.taken sides.left sides.free why.old result why.new }
{
    let record = records::record_at(listed.records, i);
    let side = sides.against(record.kind);
    let last = press(record.set, side, sides.free, listed.groups, why)?;
    Ok(match last {
        None => sides,
        Some(group) => sides.decide(record.kind, group),
    })
}
