// The first table: the three tables of a probe.
use crate::pieces::{labelled, numbers};
use lines::Text;

// The most bytes of a probe in these rows.
const MOST: usize = 8;

// A byte that is in none of these probes.
const OTHER: u8 = b'z';

// Puts the first table: each row's probe, and the bytes whose occurrence entries the row names.
pub(crate) fn put(text: &mut Text<'_>) {
    text.word(b"Tables of a probe\n");
    row(text, b"b", b"b");
    row(text, b"aab", b"ab");
    row(text, b"abab", b"ab");
    row(text, b"aaaa", b"a");
    row(text, b"caaa", b"ac");
}

// Puts one row. None of these probes is refused.
fn row(text: &mut Text<'_>, probe: &[u8], named: &[u8]) {
    let mut room = [0u32; MOST];
    text.word(probe);
    if tables::suffix(probe, &mut room).is_ok() {
        text.word(b": suffix");
        numbers(text, &room, probe.len());
    }
    if tables::shift(probe, &mut room).is_ok() {
        text.word(b"; shift");
        numbers(text, &room, probe.len());
    }
    if let Ok(table) = tables::occurrence(probe) {
        text.word(b"; occurrence");
        entries(text, &table, named);
        labelled(text, b" others ", entry_of(&table, OTHER));
    }
    text.byte(b'\n');
}

// Puts each named byte with its entry.
fn entries(text: &mut Text<'_>, table: &[u32; 256], named: &[u8]) {
    for b in named {
        text.byte(b' ');
        text.byte(*b);
        labelled(text, b" ", entry_of(table, *b));
    }
}

// The entry of a byte.
fn entry_of(table: &[u32; 256], b: u8) -> u64 {
    u64::from(table[usize::from(b)])
}
