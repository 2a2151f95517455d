// What `bind` says and how it reads an id, proved to the byte.
//
// id_of          an id: decimal digits that name a number of 32 bits
// Message::put   what is said, a line each: how a binding ended, why there was none, or how the program is called
// beside         the name of a file in the log's folder
//
// Each text is put from the front of the buffer on, as far as it reaches, and its whole length is answered.
#![tactic(auto)]

ghost use Rattle.std.specs.Prelude.{◌≡◌, ◌+◌, ◌*◌, ◌≤◌, ◌<◌, IfSome, SomeIff, length, take};
ghost use Rattle.binding.specs.Ids.{limit, id_of, id_seen};
ghost use Rattle.binding.specs.Beside.{folder_end, beside_name};
ghost use Rattle.binding.specs.Said.{name_line, text_of, name_of};
ghost use Rattle.binding.specs.Promise.{longest, Said};
ghost use Rattle.binding.specs.Inside.{next as Inside·next, next_seen, IsLastSlash};
ghost use Rattle.lines.specs.Promise.{Puts};

use lines::Text;

// No text has more bytes beside the name in it.
pub const LONGEST: usize = 64;

// Ids are written in base ten.
const BASE: u32 = 10;

const SLASH: u8 = b'/';

const DASH: u8 = b'-';

// The id that the text is: one or more digits, whose number is below 2^32. Zeros may stand in front. Read digit by digit, as
// std's `parse` would take a sign.
pub fn id_of(text: &[u8]) -> Option<u32>
    ensures { id_seen result ≡ id_of text.now }
{
    if text.is_empty() {
        return None;
    }
    let mut value = 0;
    for b in text {
        value = next(value, *b)?;
    }
    Some(value)
}

// The value with one more digit behind it; none where that is too great, or b is no digit.
fn next(value: u32, b: u8) -> Option<u32>
    ensures value { next_seen result ≡ Inside·next value b }
    ensures below { IfSome result (λ v. v < limit) }
{
    let digit = char::from(b).to_digit(BASE)?;
    longer(value, digit)
}

// The value with the digit behind it; none where that is too great.
fn longer(value: u32, digit: u32) -> Option<u32>
    ensures { SomeIff result (value * 10 + digit < limit) (value * 10 + digit) }
{
    value.checked_mul(BASE)?.checked_add(digit)
}

// What `bind` says.
#[derive(Clone, Copy)]
pub enum Message<'a> {
    // How many replicates were bound, and the bytes of the log.
    Bound { replicates: u32, bytes: u32 },
    // The refusal and its entry. Two numbers and no `Fault`: the function `refused_line`, in whose place it stands, took any
    // two, and no less may be taken.
    Refused { refusal: u32, entry: u32 },
    // A file that cannot be read.
    Unread(&'a [u8]),
    // A log that cannot be written.
    Unwritten(&'a [u8]),
    // A text that is no id.
    BadId(&'a [u8]),
    // How the program is called.
    Usage,
}

impl Message<'_> {
    // Puts the line, and answers its length.
    pub fn put(self, out: &mut [u8]) -> usize
        ensures text { Said (text_of self.entry) out.old result out.new }
        ensures short { result ≤ longest + length (name_of self.entry) }
        ensures said { 0 < result }
    {
        let mut text = Text::new(out);
        self.line(&mut text);
        text.place()
    }

    // Its line.
    fn line(self, text: &mut Text<'_>)
        ensures puts { Puts text.old (text_of self.entry) text.new }
        ensures size { length (text_of self.entry) ≤ longest + length (name_of self.entry) }
    {
        match self {
            Message::Bound { replicates, bytes } => {
                text.numbers_line(b"bound ", replicates, bytes)
            }
            Message::Refused { refusal, entry } => {
                text.numbers_line(b"refused ", refusal, entry)
            }
            Message::Unread(file) => named(text, b"cannot read ", file),
            Message::Unwritten(log) => named(text, b"cannot write ", log),
            Message::BadId(given) => named(text, b"bad id ", given),
            Message::Usage => text.word(b"usage: bind LOG ID FILE ID FILE ..\n"),
        }
    }
}

// A line of a word and a name.
fn named(text: &mut Text<'_>, word: &[u8], name: &[u8])
    ensures { Puts text.old (name_line word.now name.now) text.new }
{
    text.word(word);
    text.word(name);
    text.byte(lines::LINE_END);
}

// A name beside the log, in its folder: with two numbers, so that others are unlikely to have it.
pub fn beside(out: &mut [u8], log: &[u8], m: u64, n: u64) -> usize
    ensures text { Said (beside_name log.now m n) out.old result out.new }
    ensures short { result ≤ longest + length log.now }
{
    let mut text = Text::new(out);
    text.word(folder(log));
    text.word(b".bind-");
    text.number(m);
    text.byte(DASH);
    text.number(n);
    text.place()
}

// The folder of the path: up to the last slash, with it.
fn folder(path: &[u8]) -> &[u8]
    ensures { result.now ≡ take (folder_end path.now) path.now }
{
    match last_slash(path) {
        Some(i) => &path[..=i],
        None => &[],
    }
}

// Where the last slash stands.
fn last_slash(path: &[u8]) -> Option<usize>
    ensures { IsLastSlash path.now result }
{
    path.iter().rposition(|b| *b == SLASH)
}
