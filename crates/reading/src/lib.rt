// Readers of a text from a cursor on: one word, and one number with the byte that ends it.
#![tactic(auto)]

ghost use Rattle.std.specs.Prelude.{◌≡◌, ◌+◌, ◌≤◌, length};
ghost use Rattle.reading.specs.inside.Grow.{Grows};

// A text, and the place up to which it has been read.
#[derive(Clone, Copy)]
pub struct Cursor<'a> {
    pub text: &'a [u8],
    pub at: usize,
    pub ghost within: { at ≤ length text.now },
}

// A number that was read, and the byte that ends it.
#[derive(Clone, Copy)]
pub struct Number {
    pub value: u64,
    pub end: u8,
}

impl<'a> Cursor<'a> {
    ghost use Rattle.reading.specs.inside.Piece.{BelowDigits};
    ghost use Rattle.reading.specs.inside.Read.{ReadsWord, ReadsNumber, EndsNumber};

    // Past the word; or the place at which the text differs from it or ends.
    pub fn word(&mut self, word: &[u8]) -> Result<(), usize>
        ensures { ReadsWord word.now self.old self.new result }
    {
        for (i, byte) in word.iter().enumerate() {
            let place = self.at + i;
            if self.text.get(place) != Some(byte) {
                return Err(place);
            }
        }
        self.at += word.len();
        Ok(())
    }

    // Past a number of least to most, where least is 0 or 1, and the byte that ends it, one of `ends`; or the place up
    // to which some such number could stand there.
    pub fn number(&mut self, least: u64, most: u64, ends: &[u8]) -> Result<Number, usize>
        requires { (least ≤ 1) × (1 ≤ most) × (most ≤ 1000000000) × (1 ≤ length ends.now)
            × BelowDigits ends.now }
        ensures { ReadsNumber least most ends.now self.old self.new result }
    {
        let text = self.text;
        let mut value: u64 = 0;
        for at in self.at..text.len() {
            let byte = text[at];
            let Some(more) = grow(value, byte, most) else {
                if 0 < value {
                    return self.end(at, value, ends);
                }
                // No digit before it: only 0 itself begins with the digit 0.
                if least < 1 && byte == b'0' {
                    return self.end(at + 1, 0, ends);
                }
                return Err(at);
            };
            value = more;
        }
        Err(text.len())
    }

    // Past the byte that ends the number `value`, where it stands at the place behind the number.
    fn end(&mut self, place: usize, value: u64, ends: &[u8]) -> Result<Number, usize>
        requires { place ≤ length self.old.text.now }
        ensures { EndsNumber value ends.now place self.old self.new result }
    {
        match self.text.get(place) {
            Some(end) if ends.contains(end) => {
                self.at = place + 1;
                Ok(Number { value, end: *end })
            }
            _ => Err(place),
        }
    }
}

// The number v with the digit `byte` behind it; none where the byte is no digit or the number would be 0 or above the
// largest.
fn grow(v: u64, byte: u8, most: u64) -> Option<u64>
    requires { (v ≤ most) × (most ≤ 1000000000) }
    ensures { Grows most v byte result }
{
    if !byte.is_ascii_digit() {
        return None;
    }
    let more = 10 * v + u64::from(byte - b'0');
    if more < 1 || most < more {
        return None;
    }
    Some(more)
}
