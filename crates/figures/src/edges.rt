// The edges: for each, what is just accepted and what is just refused, by the number of document 01's table.
use crate::pieces::{labelled, verdict};
use crate::sample;
use basics::Refusal;
use lines::Text;
use scans::Answer;

// What the longest probe needs of a room with an entry for each byte, and of the room for both tables.
const WORK: usize = 4096;

const PAIRED: usize = 2 * WORK;

// The numbers that the pairs of three replicates take: 4 * 3 * 2.
const RESULT: usize = 24;

// Puts the edges: the longest probe; the shortest rooms of a scan; the shortest log, and the longest; and the most draws of a
// probe.
pub(crate) fn put(text: &mut Text<'_>) {
    text.word(b"\nEdges\n");
    probe(text, &[b'a'; 4096]);
    probe(text, &[b'a'; 4097]);
    paired(text, b"abab", &mut [0u16; 8]);
    paired(text, b"abab", &mut [0u16; 7]);
    memory(text, b"abab", &mut [0u32; 4]);
    memory(text, b"abab", &mut [0u32; 3]);
    log(text, &[0u8; 11]);
    log(text, &[0u8; 65537]);
    draws(text, 512);
    draws(text, 513);
}

// Puts what the table calls and the scans say to a probe.
fn probe(text: &mut Text<'_>, x: &[u8]) {
    labelled(text, b"probe of ", x.len() as u64);
    by_tables(text, x);
    said(text, b", plain ", plain(x, &mut [0u16; PAIRED]).err());
    said(
        text,
        b", remembering ",
        remember(x, &mut [0u32; WORK]).err(),
    );
    text.byte(b'\n');
}

// Puts what the table calls say to a probe.
fn by_tables(text: &mut Text<'_>, x: &[u8]) {
    said(
        text,
        b" bytes: suffix ",
        tables::suffix(x, &mut [0u32; WORK]).err(),
    );
    said(text, b", shift ", tables::shift(x, &mut [0u32; WORK]).err());
    said(text, b", both ", tables::both(x, &mut [0u16; PAIRED]).err());
    said(text, b", occurrence ", tables::occurrence(x).err());
}

// Puts a word and a verdict.
fn said(text: &mut Text<'_>, label: &[u8], refusal: Option<Refusal>) {
    text.word(label);
    verdict(text, refusal);
}

// The plain scan of an empty stream for a probe, with a room for both tables. This and `remember` are lent the room that a row
// is about; those of `searches` have rooms of their own. One function for both would take every room, and be no plainer.
fn plain(x: &[u8], tables: &mut [u16]) -> Result<Answer, Refusal> {
    scans::plain(x, b"", tables, &mut [])
}

// The remembering scan of an empty stream for a probe, with a memory room.
fn remember(x: &[u8], memory: &mut [u32]) -> Result<Answer, Refusal> {
    scans::remember(x, b"", &mut [0u16; PAIRED], memory, &mut [])
}

// Puts what a scan says to a room: so many numbers or entries.
fn room(
    text: &mut Text<'_>,
    x: &[u8],
    what: &[u8],
    n: usize,
    unit: &[u8],
    outcome: Result<Answer, Refusal>,
) {
    labelled(text, b"probe of ", x.len() as u64);
    text.word(b" bytes, ");
    labelled(text, what, n as u64);
    said(text, unit, outcome.err());
    text.byte(b'\n');
}

// Puts what the plain scan says to a room for both tables.
fn paired(text: &mut Text<'_>, x: &[u8], tables: &mut [u16]) {
    let outcome = plain(x, tables);
    room(
        text,
        x,
        b"room for both tables of ",
        tables.len(),
        b" numbers: ",
        outcome,
    );
}

// Puts what the remembering scan says to a memory room.
fn memory(text: &mut Text<'_>, x: &[u8], entries: &mut [u32]) {
    let outcome = remember(x, entries);
    room(
        text,
        x,
        b"memory room of ",
        entries.len(),
        b" entries: ",
        outcome,
    );
}

// Puts what the log test says to a log.
fn log(text: &mut Text<'_>, bytes: &[u8]) {
    labelled(text, b"log of ", bytes.len() as u64);
    said(
        text,
        b" bytes: ",
        drawlog::test(bytes).err().map(|fault| fault.refusal),
    );
    text.byte(b'\n');
}

// Puts what the overlap check of document 01's log says to probes of p draws.
fn draws(text: &mut Text<'_>, p: u32) {
    let mut log = [0u8; sample::SIZE];
    let size = sample::put(&mut log);
    labelled(text, b"log of ", size as u64);
    labelled(text, b" bytes, probes of ", u64::from(p));
    said(text, b" draws: ", check(&log, p));
    text.byte(b'\n');
}

// Why the overlap check of a log refuses probes of p draws, if it does.
fn check(log: &[u8], p: u32) -> Option<Refusal> {
    let mut tables = [0u16; PAIRED];
    let mut memory = [0u32; WORK];
    let mut result = [0u32; RESULT];
    let outcome = pairs::check(log, p, &mut tables, &mut memory, &mut result);
    outcome.err().map(|fault| fault.refusal)
}
