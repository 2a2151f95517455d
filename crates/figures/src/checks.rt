// The overlap check of two replicates beside a search: places inside a draw are occurrences, and no overlap.
use crate::pieces::{listed, names, places, verdict};
use crate::sample;
use lines::Text;

// What a probe of one draw takes of a room with an entry for each byte, and of the room for both tables.
const DRAW: usize = 8;

const PAIRED: usize = 2 * DRAW;

// The most positions in these rows.
const MOST: usize = 16;

// The numbers that the pairs of two replicates take: 4 * 2 * 1.
const RESULT: usize = 8;

// Puts the checks: an occurrence inside a draw; one before another that begins with a draw; many, among equal bytes; and one
// that begins with a draw. The room is just as long as the log.
pub(crate) fn put(text: &mut Text<'_>) {
    text.word(
        b"\nChecks of replicates 1 and 2, probes of 1 draw; that of 1 is searched for in 2\n",
    );
    row(text, b"abcdefgh", b"012abcdefgh34567", &mut [0u8; 60]);
    row(
        text,
        b"abcdefgh",
        b"012abcdefgh34567abcdefgh",
        &mut [0u8; 68],
    );
    row(
        text,
        b"aaaaaaaa",
        b"0aaaaaaaaaaaaaaaaaaaaaaa",
        &mut [0u8; 68],
    );
    row(text, b"abcdefgh", b"01234567abcdefgh", &mut [0u8; 60]);
}

// Puts one row: where the first block occurs in the second, and the pairs of their log.
fn row(text: &mut Text<'_>, first: &[u8], second: &[u8], log: &mut [u8]) {
    names(text, first, second);
    searched(text, first, second);
    text.word(b"; ");
    sample::two(log, first, second);
    checked(text, log);
    text.byte(b'\n');
}

// Puts where a probe occurs in a stream.
fn searched(text: &mut Text<'_>, probe: &[u8], stream: &[u8]) {
    let mut tables = [0u16; PAIRED];
    let mut memory = [0u32; DRAW];
    let mut positions = [0u32; MOST];
    match scans::remember(probe, stream, &mut tables, &mut memory, &mut positions) {
        Ok(answer) => places(text, &positions, answer),
        Err(refusal) => verdict(text, Some(refusal)),
    }
}

// Puts the pairs of a log, four numbers each.
fn checked(text: &mut Text<'_>, log: &[u8]) {
    let mut tables = [0u16; PAIRED];
    let mut memory = [0u32; DRAW];
    let mut result = [0u32; RESULT];
    match pairs::check(log, 1, &mut tables, &mut memory, &mut result) {
        Ok(checked) => {
            text.word(b"pairs");
            listed(text, &result, pairs::PAIR * checked.pairs as usize);
        }
        Err(fault) => verdict(text, Some(fault.refusal)),
    }
}
