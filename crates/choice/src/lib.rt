// A choice of groups in a word of 32 bits: how wide it is, is known here. Groups are counted from 0: group g + 1 of the book adds 2 ^ g.
// A group is a plain number here: callers count it up and down, and index by it; a type for it would be opened at each of these places.
#![tactic(auto)]

ghost use Rattle.std.specs.Prelude.{◌≡◌, ◌≢◌, not, suc, ◌-◌, ◌*◌, ◌/◌, ◌^◌, ◌≤◌, ◌<◌, eqb, ltb};
ghost use Rattle.meaning.specs.Choice.{digit};
ghost use Rattle.choice.specs.Groups.{width, Highest};

// The most groups that a choice can have.
const WIDTH: u32 = u32::BITS;

// The same as a size.
pub const PLACES: usize = WIDTH as usize;

// The choice of one group.
pub fn bit(g: u32) -> u32
    requires { g < width }
    ensures { result ≡ 2 ^ g }
{
    1 << g
}

// Whether a choice has a group.
pub fn has(x: u32, g: u32) -> bool
    requires { g < width }
    ensures { result ≡ eqb (digit x g) 1 }
{
    (x >> g) % 2 == 1
}

// The choice of all groups, of n.
pub fn all(n: u32) -> u32
    requires { n ≤ width }
    ensures { result ≡ 2 ^ n - 1 }
{
    if n < WIDTH { bit(n) - 1 } else { u32::MAX }
}

// Whether a word names a group beyond n.
pub fn exceeds(x: u32, n: u32) -> bool
    requires { n ≤ width }
    ensures { result ≡ not (ltb x (2 ^ n)) }
{
    all(n) < x
}

// The highest group of a choice that has one.
pub fn highest(x: u32, n: u32) -> u32
    requires { (n ≤ width) × (x < 2 ^ n) × (x ≢ 0) }
    ensures { (result < n) × Highest x result }
{
    x.ilog2()
}

// The groups of a choice above one.
pub fn above(x: u32, g: u32) -> u32
    requires { g < width }
    ensures { result ≡ x / 2 ^ suc g * 2 ^ suc g }
{
    let b = bit(g);
    x / b / 2 * 2 * b
}
