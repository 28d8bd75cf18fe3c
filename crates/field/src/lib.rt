// Numbers of two bytes, the high byte first, and tagged fields made of them. Nothing here is about rule books.
#![tactic(auto)]

ghost use Rattle.std.specs.Prelude.{◌≡◌, ◌&&◌, [], ◌∷◌, ◌+◌, ◌<◌, ◌≤◌, length};
ghost use Rattle.answer.specs.Space.{Wrote};
ghost use Rattle.field.specs.Words.{word_at, words, word_bytes, within, rising};
ghost use Rattle.field.specs.Field.{size, short};

// The number that stands at `at`.
pub fn word_at(s: &[u8], at: usize) -> u16
    requires { at + 1 < length s.now }
    ensures { result ≡ word_at s.now at }
{
    u16::from_be_bytes([s[at], s[at + 1]])
}

// Writes a number at `at`, and gives the place after it.
#[tactic(auto, unfolding(crate::specs::Words::word_bytes))]
pub fn put_word(w: u16, out: &mut [u8], at: usize) -> usize
    requires { at + 2 ≤ length out.old }
    ensures { Wrote out.old at (word_bytes (w ∷ [])) out.new result }
{
    let [high, low] = w.to_be_bytes();
    out[at] = high;
    out[at + 1] = low;
    at + 2
}

// Writes the front of a field at `at`: its tag, and the length of its value; and gives the place of the value.
pub fn put_front(tag: u8, n: u16, out: &mut [u8], at: usize) -> usize
    requires { at + 3 ≤ length out.old }
    ensures { Wrote out.old at (tag ∷ word_bytes (n ∷ [])) out.new result }
{
    out[at] = tag;
    put_word(n, out, at + 1)
}

// The numbers of a part, from the first on. A last odd byte is none.
#[derive(Clone, Copy)]
pub struct Numbers<'a> {
    part: &'a [u8],
}

impl<'a> Iterator for Numbers<'a> {
    type Item = u16;

    ghost use Rattle.std.specs.Iterator.{YieldsFirst, item_count};
    ghost use Rattle.field.specs.Left.{words_left};

    ghost next_gives = { YieldsFirst words_left };

    ghost remaining = { item_count words_left };

    fn next(&mut self) -> Option<u16> {
        if self.part.len() < 2 {
            return None;
        }
        let w = word_at(self.part, 0);
        self.part = &self.part[2..];
        Some(w)
    }
}

ghost use Rattle.field.specs.Left.{words_left};

pub fn words_of(part: &[u8]) -> Numbers<'_>
    ensures { words_left result ≡ words part.now }
{
    Numbers { part }
}

// Whether each number of a part is from `low` to `high`.
pub fn all_within(part: &[u8], low: u16, high: u16) -> bool
    ensures { result ≡ within low high (words part.now) }
{
    words_of(part).all(|w| low <= w && w <= high)
}

// Whether the numbers of a part rise strictly, the first from above 0.
pub fn is_rising(part: &[u8]) -> bool
    ensures { result ≡ rising 0 (words part.now) }
{
    let mut last = 0;
    for w in words_of(part) {
        if w <= last {
            return false;
        }
        last = w;
    }
    true
}

// Both in one pass: whether the numbers of a part rise strictly, the first from above 0, and none is above `high`.
pub fn is_rising_to(part: &[u8], high: u16) -> bool
    ensures { result ≡ (within 1 high (words part.now) && rising 0 (words part.now)) }
{
    let mut last = 0;
    for w in words_of(part) {
        if last >= w {
            return false;
        }
        if high < w {
            return false;
        }
        last = w;
    }
    true
}

// How many bytes the field that stands first in `rest` takes, by the length that it states.
pub fn size_of(rest: &[u8]) -> usize
    requires { 3 ≤ length rest.now }
    ensures { result ≡ size rest.now }
{
    3 + word_at(rest, 1) as usize
}

// Whether `rest` has fewer bytes than a field takes that is to stand first in it.
pub fn is_short(rest: &[u8]) -> bool
    ensures { result ≡ short rest.now }
{
    if rest.len() < 3 {
        return true;
    }
    rest.len() < size_of(rest)
}
