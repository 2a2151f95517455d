// Text put into a lent buffer: bytes, words, decimal numbers, and lines of a word and two numbers.
//
// A `Text` is the buffer and the place where the next byte goes. Each call puts its bytes from that place on, as far as
// the buffer reaches, leaves every other byte as it was, and moves the place behind them, also where that lies past the
// buffer's end. So calls one after another put one text, and the place is at the end the length of the whole.
#![tactic(auto)]

ghost use Rattle.std.specs.Prelude.{◌≡◌, [], ◌∷◌, ◌+◌, ◌≤◌, ◌<◌, length};
ghost use Rattle.lines.specs.Digits.{digit_byte, digits};
ghost use Rattle.lines.specs.Line.{numbers_line};
ghost use Rattle.lines.specs.Put.{last_place};

// How many digits the greatest u64 has: 18446744073709551615.
const MOST_DIGITS: usize = 20;

// Numbers are written in base ten.
const BASE: u64 = 10;

pub const BLANK: u8 = b' ';

pub const LINE_END: u8 = b'\n';

// A text that is put into the room, and the place after it.
pub struct Text<'a> {
    room: &'a mut [u8],
    place: usize,
    ghost reach: { length room.now ≤ last_place },
    ghost within: { place ≤ last_place },
}

impl<'a> Text<'a> {
    ghost use Rattle.lines.specs.Promise.{Puts};

    // No text yet, from the front of the buffer on.
    pub fn new(out: &'a mut [u8]) -> Text<'a>
        ensures same { result.room.ghost_name ≡ out.entry.ghost_name }
        ensures room { result.room.now ≡ out.old }
        ensures place { result.place ≡ 0 }
    {
        Text::at(out, 0)
    }

    // No text yet, from a place on, which may lie past the buffer's end.
    pub fn at(out: &'a mut [u8], from: usize) -> Text<'a>
        ensures same { result.room.ghost_name ≡ out.entry.ghost_name }
        ensures room { result.room.now ≡ out.old }
        ensures place { result.place ≡ from }
    {
        Text {
            room: out,
            place: from,
        }
    }

    // Puts one byte, as a blank or the end of a line.
    pub fn byte(&mut self, b: u8)
        ensures { Puts self.old (b ∷ []) self.new }
    {
        let at = self.place;
        self.place = at.saturating_add(1);
        if at < self.room.len() {
            self.room[at] = b;
        }
    }

    // Puts the bytes of w.
    pub fn word(&mut self, w: &[u8])
        ensures { Puts self.old w.now self.new }
    {
        for b in w {
            self.byte(*b);
        }
    }

    // Puts the decimal digits of n, with no zeros in front.
    pub fn number(&mut self, n: u64)
        ensures { Puts self.old (digits n) self.new }
    {
        let mut text = [0u8; MOST_DIGITS];
        self.word(spell(&mut text, n));
    }

    // Puts the decimal digits of a 32-bit number. One `number` for both would be generic over what turns into a u64, with a law
    // of that conversion in its promise, and be no plainer.
    pub fn figure(&mut self, n: u32)
        ensures { Puts self.old (digits n) self.new }
    {
        self.number(u64::from(n));
    }

    // Puts a line of the word w, which ends in a blank, and two 32-bit numbers.
    pub fn numbers_line(&mut self, w: &[u8], m: u32, n: u32)
        ensures puts { Puts self.old (numbers_line w.now m n) self.new }
        ensures short { length (numbers_line w.now m n) ≤ 22 + length w.now }
    {
        self.word(w);
        self.figure(m);
        self.byte(BLANK);
        self.figure(n);
        self.byte(LINE_END);
    }

    // The place after the text: of one from `new` on its length, where a usize can name that.
    pub fn place(&self) -> usize
        ensures { result ≡ self.now.place }
    {
        self.place
    }
}

impl Drop for Text<'_> {
    // The buffer ends as the text left it.
    fn drop(self)
        ensures { self.exit.0.now ≡ self.entry.room.now }
    {
        let Text { room: _, place: _ } = self;
    }
}

// Writes the digits of n to the end of the text, the last digit first, and answers them. By hand: `to_string` needs a heap,
// and the laws of digits are the project's own.
fn spell(text: &mut [u8; MOST_DIGITS], n: u64) -> &[u8]
    ensures { result.now ≡ digits n }
{
    let mut rest = n;
    for first in (0..MOST_DIGITS).rev() {
        text[first] = digit(rest % BASE);
        if rest < BASE {
            return &text[first..];
        }
        rest /= BASE;
    }
    text
}

// The byte of one digit.
fn digit(d: u64) -> u8
    requires { d < 10 }
    ensures { result ≡ digit_byte d }
{
    b'0' + d as u8
}
