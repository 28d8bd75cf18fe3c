// A walk by places: what stands first in some bytes, and where the parts of a clause lie in it.

ghost use Rattle.std.specs.Prelude.{◌≡◌};
ghost use Rattle.book.specs.Front.{front_of as front};

// What stands first in the bytes of an accepted book, after the header. Of a clause: its groups are the numbers from `groups` to the head, which stands before
// `body`; its body is the part from `body` to `size`; what follows the clause starts at `size`.
#[derive(Clone, Copy, Debug, PartialEq, Eq)]
pub enum Front {
    Clause {
        groups: usize,
        head: u16,
        body: usize,
        size: usize,
    },
    End,
}

pub fn front_of(rest: &[u8]) -> Front
    ensures { result ≡ front rest.now }
{
    if rest.len() < 7 {
        return Front::End;
    }
    Front::Clause {
        groups: 3,
        head: field::word_at(rest, 5),
        body: 7,
        size: field::size_of(rest),
    }
}
