// The second table and further rows: a stream searched for a probe.
use crate::pieces::{counted, found, labelled, names};
use basics::Refusal;
use lines::Text;
use scans::Answer;

// The most bytes of a probe, and the most positions, in the rows that list positions.
const MOST: usize = 16;

// The long row: so many equal bytes, and how many of them are the probe.
const STREAM: usize = 61440;

const PROBE: usize = 256;

// What both tables of a probe take that is no longer than the longest one here, and its memory.
const PAIRED: usize = 2 * PROBE;

// Puts the second table: four rows in which the probe occurs, and two in which it does not.
pub(crate) fn put(text: &mut Text<'_>) {
    text.word(b"\nSearches by both scans; the bound is 2n - m + 1\n");
    row(text, b"aaaa", b"aaaaaa");
    row(text, b"abab", b"ababab");
    row(text, b"abab", b"abbabab");
    row(text, b"caaa", b"xcaaa");
    row(text, b"caaa", b"xbaaaa");
    row(text, b"aab", b"aa");
}

// Puts the further rows.
pub(crate) fn put_further(text: &mut Text<'_>) {
    text.word(b"\nFurther searches\n");
    further(text, b"a", b"ab");
    further(text, b"aaabaabaa", b"aaaaaabaaabaabaa");
    further(text, b"aabaa", b"aaababaa");
    long(text, &[b'a'; PROBE], &[b'a'; STREAM]);
}

// Puts a row of the second table: both scans, and the bound of the remembering one. Probe and stream are what a row is of; a
// struct for the two would be no plainer.
fn row(text: &mut Text<'_>, probe: &[u8], stream: &[u8]) {
    let mut positions = [0u32; MOST];
    names(text, probe, stream);
    text.word(b"plain ");
    let outcome = plain(probe, stream, &mut positions);
    found(text, &positions, outcome);
    text.word(b"; remembering ");
    let outcome = remember(probe, stream, &mut positions);
    found(text, &positions, outcome);
    bound(text, probe.len(), stream.len());
    text.byte(b'\n');
}

// Puts a further row: the remembering scan.
fn further(text: &mut Text<'_>, probe: &[u8], stream: &[u8]) {
    let mut positions = [0u32; MOST];
    names(text, probe, stream);
    text.word(b"remembering ");
    let outcome = remember(probe, stream, &mut positions);
    found(text, &positions, outcome);
    text.byte(b'\n');
}

// Puts the long row, in numbers alone: equal bytes, searched for their own first ones.
fn long(text: &mut Text<'_>, probe: &[u8], stream: &[u8]) {
    text.number(probe.len() as u64);
    labelled(text, b" equal bytes in ", stream.len() as u64);
    text.word(b": plain ");
    counted(text, plain(probe, stream, &mut []));
    text.word(b"; remembering ");
    counted(text, remember(probe, stream, &mut []));
    text.byte(b'\n');
}

// What the plain scan answers.
fn plain(probe: &[u8], stream: &[u8], positions: &mut [u32]) -> Result<Answer, Refusal> {
    scans::plain(probe, stream, &mut [0u16; PAIRED], positions)
}

// What the remembering scan answers.
fn remember(probe: &[u8], stream: &[u8], positions: &mut [u32]) -> Result<Answer, Refusal> {
    let mut tables = [0u16; PAIRED];
    let mut memory = [0u32; PROBE];
    scans::remember(probe, stream, &mut tables, &mut memory, positions)
}

// Puts 2n - m + 1, the most comparisons of the remembering scan; none is said of a stream that is shorter than the probe.
fn bound(text: &mut Text<'_>, m: usize, n: usize) {
    if n < m || scans::LARGEST < n {
        text.word(b"; bound -");
    } else {
        labelled(text, b"; bound ", (n + (n - m) + 1) as u64);
    }
}
