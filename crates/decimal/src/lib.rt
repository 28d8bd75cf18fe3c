// Numbers in decimal digits, and bytes, written into lent bytes. A call that writes gives the place after what it wrote. Bytes and place go as
// two arguments, not as a struct: callers lend the whole of their space, write at places of their own, and speak of both in their contracts.
#![tactic(auto)]

ghost use Rattle.std.specs.Prelude.{◌≡◌, [], ◌∷◌, suc, ◌+◌, ◌≤◌, ◌<◌, length};
ghost use Rattle.answer.specs.Space.{Wrote};
ghost use Rattle.decimal.specs.Digits.{number, after};

// One byte.
pub fn put_byte(byte: u8, out: &mut [u8], at: usize) -> usize
    requires { at < length out.old }
    ensures { Wrote out.old at (byte ∷ []) out.new result }
{
    out[at] = byte;
    at + 1
}

// Bytes as they are.
pub fn put_text(text: &[u8], out: &mut [u8], at: usize) -> usize
    requires { at + length text.now ≤ length out.old }
    ensures { Wrote out.old at text.now out.new result }
{
    let end = at + text.len();
    out[at..end].copy_from_slice(text);
    end
}

// A number in decimal.
pub fn put_number(n: usize, out: &mut [u8], at: usize) -> usize
    requires { at + length (number n) ≤ length out.old }
    ensures { Wrote out.old at (number n) out.new result }
{
    // a number of one digit is that digit
    if n < 10 {
        return put_byte(b'0' + n as u8, out, at);
    }
    let end = at + number_length(n);
    itoa::write_digits(n as u64, out, end);
    end
}

// A blank and a number.
pub fn put_after(n: usize, out: &mut [u8], at: usize) -> usize
    requires { at + suc (length (number n)) ≤ length out.old }
    ensures { Wrote out.old at (after n) out.new result }
{
    let next = put_byte(b' ', out, at);
    put_number(n, out, next)
}

// How many digits a number has: 0 has one, as 1 has.
pub fn number_length(n: usize) -> usize
    ensures { result ≡ length (number n) }
{
    if n < 10 {
        return 1;
    }
    n.ilog10() as usize + 1
}
