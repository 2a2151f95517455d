// Document 01's figures and edges, and checks after request Two, as the calls answer them: what this program writes is held
// to the file `stdout`.
//
// pieces    numbers, verdicts and searches put into the page
// probes    the first table: the tables of a probe
// searches  the second table, by both scans, and further rows
// checks    the overlap check beside a search
// edges     what is just accepted, and what is just refused
// sample    document 01's log of three replicates, and logs of two
//
// Each row is put into one page, as `lines::Text` has it. Each number that is printed is a call's answer, or says what the
// call was given: a length, or the draws of a probe. The bound is reckoned from the two lengths.
#![tactic(auto)]

mod checks; // checks.rt: the overlap check of two replicates
mod edges; // edges.rt: the edges
mod pieces; // pieces.rt: what rows are made of
mod probes; // probes.rt: the rows of the first table
mod sample; // sample.rt: draw logs
mod searches; // searches.rt: the rows of the second table, and further ones

use lines::Text;

// The most bytes that the text may have.
const PAGE: usize = 4096;

fn main(rt: HostRuntime) {
    let mut page = [0u8; PAGE];
    let size = put(&mut page);
    write(rt, page.get(..size));
}

// Puts the whole text to the front of the page, and answers its length.
fn put(page: &mut [u8]) -> usize {
    let mut text = Text::new(page);
    probes::put(&mut text);
    searches::put(&mut text);
    searches::put_further(&mut text);
    checks::put(&mut text);
    edges::put(&mut text);
    text.place()
}

// Writes the text to standard output, if the page held it. A write that fails is not told.
fn write(rt: HostRuntime, text: Option<&[u8]>) {
    let _ = rt.write_all(text.unwrap_or(b"the page is too short\n"));
}
