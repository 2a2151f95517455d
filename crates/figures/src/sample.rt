// Draw logs, each put from the front of the room on. By hand and not by `writer`, so that what the calls are shown on is not
// made by a call.
use lines::Text;

// The bytes of document 01's log: 32, 40 and 5 draws, three entries of the directory, and the trailer.
pub(crate) const SIZE: usize = 664;

// Puts a log of two replicates, 1 and 2, with these blocks.
pub(crate) fn two(log: &mut [u8], first: &[u8], second: &[u8]) {
    let mut text = Text::new(log);
    text.word(first);
    let start = text.place();
    text.word(second);
    let end = text.place();
    entry(&mut text, 1, 0, first.len());
    entry(&mut text, 2, start, second.len());
    trailer(&mut text, end, 2);
}

// Puts document 01's log: replicate 3 has draws 0 to 31; 7 has 100 to 107, then 0 to 31; 9 has five draws of 0. Answered is
// how many bytes it has.
pub(crate) fn put(log: &mut [u8]) -> usize {
    let mut text = Text::new(log);
    blocks(&mut text);
    entry(&mut text, 3, 0, 256);
    entry(&mut text, 7, 256, 320);
    entry(&mut text, 9, 576, 40);
    trailer(&mut text, 616, 3);
    text.place()
}

// Puts the three blocks, back to back.
fn blocks(text: &mut Text<'_>) {
    draws(text, 0, 32);
    draws(text, 100, 108);
    draws(text, 0, 32);
    text.word(&[0u8; 40]);
}

// Puts the draws from `first` on, below `end`, each in 8 bytes.
fn draws(text: &mut Text<'_>, first: u8, end: u8) {
    for draw in first..end {
        text.byte(draw);
        text.word(&[0u8; 7]);
    }
}

// Puts an entry of the directory.
fn entry(text: &mut Text<'_>, id: usize, start: usize, length: usize) {
    number(text, id);
    number(text, start);
    number(text, length);
}

// Puts the trailer, which points back to the directory.
fn trailer(text: &mut Text<'_>, start: usize, count: usize) {
    number(text, start);
    number(text, count);
    text.word(b"DRAW");
}

// Puts a number in 4 bytes, low byte first; those of these logs are below 2^16.
fn number(text: &mut Text<'_>, n: usize) {
    text.word(&((n % 65536) as u32).to_le_bytes());
}
