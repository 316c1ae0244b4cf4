// Decimal text and words into a lent buffer, one behind the other; the promises say the whole buffer.
#![tactic(auto)]

ghost use Rattle.std.specs.Prelude.{◌≡◌, ◌++◌, ◌≤◌, length};
ghost use Rattle.decimal.specs.Decimal.{decimal};
ghost use Rattle.decimal.specs.inside.Placed.{Room, Writes};

// How many bytes the decimal text of x has, ten at most.
pub fn width(x: u32) -> usize
    ensures { (result ≡ length (decimal x)) × (result ≤ 10) }
{
    if x < 10 {
        return 1;
    }
    width(x / 10) + 1
}

// The decimal text of x, from its last digit back.
fn put_digits(digits: &mut [u8], x: u32)
    requires { length digits.old ≡ length (decimal x) }
    ensures { digits.new ≡ decimal x }
{
    if x < 10 {
        digits[0] = b'0' + x as u8;
        return;
    }
    let last = digits.len() - 1;
    digits[last] = b'0' + (x % 10) as u8;
    put_digits(&mut digits[..last], x / 10);
}

// A lent buffer, and the place behind what has been written to it.
#[derive(Drop)]
pub struct Written<'a> {
    buf: &'a mut [u8],
    at: usize,
}

impl<'a> Written<'a> {
    // From the place `at` on.
    pub fn new(buf: &'a mut [u8], at: usize) -> Self
        ensures same_buffer { result.buf.ghost_name ≡ buf.entry.ghost_name }
        ensures whole { result.buf.now ≡ buf.old }
        ensures first { result.at ≡ at }
    {
        Written { buf, at }
    }

    // The place behind what has been written.
    pub fn at(&self) -> usize
        ensures { result ≡ self.now.at }
    {
        self.at
    }

    // A word.
    pub fn word(&mut self, word: &[u8])
        requires { Room self.old word.now }
        ensures { Writes self.old word.now self.new }
    {
        let behind = self.at + word.len();
        self.buf[self.at..behind].copy_from_slice(word);
        self.at = behind;
    }

    // A number in decimal.
    pub fn number(&mut self, x: u32)
        requires { Room self.old (decimal x) }
        ensures { Writes self.old (decimal x) self.new }
    {
        let behind = self.at + width(x);
        put_digits(&mut self.buf[self.at..behind], x);
        self.at = behind;
    }

    // A word and a number behind it.
    pub fn field(&mut self, word: &[u8], x: u32)
        requires { Room self.old (word.now ++ decimal x) }
        ensures { Writes self.old (word.now ++ decimal x) self.new }
    {
        self.word(word);
        self.number(x);
    }
}
