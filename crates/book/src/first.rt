// The clause whose field stands first in some bytes.

ghost use Rattle.std.specs.Prelude.{◌≡◌, ◌+◌, ◌-◌, ◌≤◌, length, take, drop};
ghost use Rattle.field.specs.Field.{size};
ghost use Rattle.book.specs.Reading.{clause_of};
ghost use Rattle.book.specs.Clauses.{clause_is};

use crate::accepted::Clause;
use crate::front::{Front, front_of};

pub fn first_clause(rest: &[u8]) -> Clause<'_>
    requires { (7 ≤ size rest.now) × (size rest.now ≤ length rest.now) }
    ensures clause { clause_is result ≡ clause_of rest.now }
    ensures size { 5 + length result.groups.now + length result.body.now ≡ size rest.now }
    ensures groups { result.groups.now ≡ take 2 (drop 3 rest.now) }
    ensures body { result.body.now ≡ take (size rest.now - 7) (drop 7 rest.now) }
{
    let Front::Clause {
        groups,
        head,
        body,
        size,
    } = front_of(rest)
    else {
        unreachable!()
    };
    let (groups, body) = (&rest[groups..body - 2], &rest[body..size]);
    Clause { groups, head, body }
}
