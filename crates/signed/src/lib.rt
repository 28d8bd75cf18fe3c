// The only functions of the calls that compute with signed numbers: whoever calls them works on numbers without a sign.
#![tactic(auto)]

ghost use Rattle.std.specs.Prelude.{◌≡◌, ◌<◌, ◌%◌, pos, neg_ℤ, nat_abs, length, get_or, set};
ghost use Rattle.signed.specs.Signed.{signed_of};

// `Plus(n)` is n, and `Minus(n)` is -n.
#[derive(Clone, Copy, Debug, PartialEq, Eq)]
pub enum Signed {
    Plus(u32),
    Minus(u32),
}

impl From<i32> for Signed {
    ghost from_gives = { λ x r. r ≡ signed_of x };

    fn from(x: i32) -> Signed {
        if x < 0 {
            Signed::Minus(x.unsigned_abs())
        } else {
            Signed::Plus(x.unsigned_abs())
        }
    }
}

// The number that stands at `at`.
pub fn number_at(s: &[i32], at: usize) -> Signed
    requires { at < length s.now }
    ensures { result ≡ signed_of (get_or s.now at (pos 0)) }
{
    Signed::from(s[at])
}

// n as it is.
pub fn plus(n: u16) -> i32
    ensures { result ≡ pos n }
{
    i32::from(n)
}

// -n.
pub fn minus(n: u16) -> i32
    ensures { result ≡ neg_ℤ (pos n) }
{
    -i32::from(n)
}

// Writes n at `at`.
pub fn put_plus(n: u16, out: &mut [i32], at: usize)
    requires { at < length out.old }
    ensures { out.new ≡ set out.old at (pos n) }
{
    out[at] = plus(n);
}

// A number without its sign, as far as 16 bits hold it.
pub fn amount(x: i32) -> u16
    ensures { result ≡ nat_abs x % 65536 }
{
    (x.unsigned_abs() % 65536) as u16
}

// The same of the number that stands at `at`.
pub fn amount_at(s: &[i32], at: usize) -> u16
    requires { at < length s.now }
    ensures { result ≡ nat_abs (get_or s.now at (pos 0)) % 65536 }
{
    amount(s[at])
}
