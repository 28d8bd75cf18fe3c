// The order in which groups come.

use crate::NEVER;

// Groups that are kept, and there from the start; and those of a pool, which come one after the other, the lowest first.
#[derive(Clone, Copy)]
pub struct Arrivals {
    pub kept: u32,
    pub pool: u32,
}

impl Arrivals {
    ghost use Rattle.std.specs.Prelude.{◌≡◌, ◌-◌, ◌≤◌};
    ghost use Rattle.meaning.specs.Choice.{Apart};
    ghost use Rattle.book.specs.Bytes.{most_groups};
    ghost use Rattle.levels.specs.Levels.{never, up_to, group_level};

    // The level of a group.
    pub fn group_level(self, group: u16) -> u16
        requires { group ≤ most_groups }
        ensures { result ≡ group_level self.kept self.pool group }
    {
        if group == 0 {
            return 0;
        }
        let g = (group - 1) as u32;
        if choice::has(self.kept, g) {
            return 0;
        }
        if choice::has(self.pool, g) {
            return group;
        }
        NEVER
    }

    // The kept groups, and those of the pool whose numbers are below a bound.
    pub fn choice_below(self, bound: u16) -> u32
        requires apart { Apart self.kept self.pool }
        requires bound { (1 ≤ bound) × (bound ≤ never) }
        ensures { result ≡ up_to self.kept self.pool (bound - 1) }
    {
        if NEVER <= bound {
            return self.kept | self.pool;
        }
        self.kept | (self.pool % choice::bit((bound - 1) as u32))
    }
}
