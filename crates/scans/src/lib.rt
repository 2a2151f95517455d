// The two scans of a stream for a probe: the plain Boyer-Moore scan, and the remembering scan after Apostolico and
// Giancarlo.
//
// Names follow source document 001 (Crochemore, Hancart, Lecroq: A unifying look at the Apostolico-Giancarlo
// string-matching algorithm): the probe is x and has m bytes, the stream is y and has n, a window starts at j, and an
// index i of the probe stands at the text position h = j + i.
//
// A search goes in four steps:
// 1. `prepare` looks for a cause to refuse, and writes the tables: suffix and shift entries in pairs to one room, and the
//    occurrence table.
// 2. `loops` visits window after window, from j = 0 on while one fits.
// 3. `windows` compares within a window, from the last index downward: all of it in the plain scan, and in the
//    remembering scan what `memory` does not tell.
// 4. `moves` moves the window, `hits` notes where the probe occurs, and `closeness` how close the windows came.
//
// The remembering scan departs from figure 18 of the source, as document 01 has it:
// 1. What a window remembers stands at its last position, j + m - 1.
// 2. A window that stops without a comparison remembers m - 1 - i, with i before the suffix entry is taken off, and not
//    the longer length, with which what is remembered would cross.
// 3. It stops so where the remembered length is above the suffix entry, not below it.
// And as we have it, without any change to the steps or to their number:
// 4. Only the last m positions are remembered, in a room of m entries that is cleared once before and once after: an
//    entry carries the position for which it was written (`memory`).
// 5. Above the last position where a length was remembered nothing is looked up (`other_bytes`).
// 6. The last byte of a window, of which nothing can be remembered, is compared by itself (`last_byte`).
#![tactic(auto)]

ghost use Rattle.std.specs.Prelude.{◌≡◌, ◌<◌, IfOk, IfSome};
ghost use Rattle.basics.specs.Refusal.{refusal_seen};
ghost use Rattle.scans.specs.Refusal.{refusal_of};
ghost use Rattle.scans.specs.Promise.{answer_seen, tally_seen, Plainly, Rememberingly, Aligning};
ghost use Rattle.scans.specs.inside.Search.{Searching, Preparing};

mod closeness; // closeness.rt: the closest window
mod hits; // hits.rt: the occurrences, noted and counted
mod loops; // loops.rt: from window to window
mod memory; // memory.rt: the remembered lengths
mod moves; // moves.rt: from one window to the next
mod scan; // scan.rt: what a scan looks into, and a window of it
mod windows; // windows.rt: one window, where bytes are compared

use basics::Refusal;
use loops::Run;
use scan::Scan;

// The most bytes that a probe, and that a stream, may have.
pub const LONGEST: usize = tables::LONGEST;

pub const LARGEST: usize = 16777216;

// What a search answers. The last two say how close it came: the most trailing bytes of the probe that equal the stream in
// a window visited, and where the first window with so many starts.
#[derive(Clone, Copy, Debug, PartialEq, Eq)]
pub struct Answer {
    pub occurrences: u64,
    pub written: u64,
    pub windows: u64,
    pub comparisons: u64,
    pub closest: u64,
    pub closest_at: u64,
}

// The occurrences at multiples of a step, where there are any: their number, and the first of them.
#[derive(Clone, Copy, Debug, PartialEq, Eq)]
pub struct Tally {
    pub number: u64,
    pub first: u64,
}

// Searches the stream for the probe by the plain scan. It has no memory room, so none is too short. Probe, stream and rooms
// stand side by side in the searches: so C lends them to `plain` and `remember`, and a struct of them for `aligned` alone would
// be no plainer.
pub fn plain(
    probe: &[u8],
    stream: &[u8],
    tables: &mut [u16],
    positions: &mut [u32],
) -> Result<Answer, Refusal>
    ensures { Plainly probe.now stream.now tables.old positions.old (answer_seen result)
        tables.new positions.new }
{
    let occ = prepare(probe, stream.len(), probe.len(), tables)?;
    let scan = Scan {
        probe,
        stream,
        tables,
        occ: &occ,
    };
    let run = scan.plainly(positions);
    Ok(run.answer(positions.len()))
}

// Searches the stream for the probe by the remembering scan.
pub fn remember(
    probe: &[u8],
    stream: &[u8],
    tables: &mut [u16],
    memory: &mut [u32],
    positions: &mut [u32],
) -> Result<Answer, Refusal>
    ensures { Rememberingly probe.now stream.now tables.old memory.old positions.old (answer_seen result)
        tables.new memory.new positions.new }
{
    let run = search(probe, stream, tables, memory, positions, 1)?;
    Ok(run.answer(positions.len()))
}

// Searches the stream as `remember` does, for the occurrences at multiples of the step.
pub fn aligned(
    probe: &[u8],
    stream: &[u8],
    tables: &mut [u16],
    memory: &mut [u32],
    step: usize,
) -> Result<Option<Tally>, Refusal>
    ensures told { Aligning probe.now stream.now tables.old memory.old step (tally_seen result)
        tables.new memory.new }
    ensures some { IfOk result (λ o. IfSome o (λ t. 0 < t.number)) }
{
    let mut first = [0u32; 1];
    let run = search(probe, stream, tables, memory, &mut first, step)?;
    Ok(run.tally(first[0]))
}

// The remembering search, which notes the places at multiples of the step: what `remember` and `aligned` have in common.
fn search(
    probe: &[u8],
    stream: &[u8],
    tables: &mut [u16],
    memory: &mut [u32],
    positions: &mut [u32],
    step: usize,
) -> Result<Run, Refusal>
    ensures { Searching probe.now stream.now tables.old memory.old positions.old step result
        tables.new memory.new positions.new }
{
    let occ = prepare(probe, stream.len(), memory.len(), tables)?;
    let scan = Scan {
        probe,
        stream,
        tables,
        occ: &occ,
    };
    Ok(scan.remembering(memory, positions, step))
}

// Looks for a cause to refuse, and writes the tables where there is none: the occurrence table is what it gives. The stream
// has n bytes, the memory room e entries.
fn prepare(probe: &[u8], n: usize, e: usize, tables: &mut [u16]) -> Result<[u32; 256], Refusal>
    ensures { Preparing probe.now n e tables.old result tables.new }
{
    causes(probe.len(), n, tables.len(), e)?;
    tables::both(probe, tables)?;
    tables::occurrence(probe)
}

// The first cause to refuse a probe of m bytes, a stream of n, a room of t numbers for both tables, and a memory room of e
// entries. The tables test 1, 2 and 4 too; here 3 stands between, so the order is this function's own.
fn causes(m: usize, n: usize, t: usize, e: usize) -> Result<(), Refusal>
    ensures { refusal_seen result ≡ refusal_of m n t e }
{
    if m == 0 {
        return Err(Refusal::ProbeEmpty);
    }
    if LONGEST < m {
        return Err(Refusal::ProbeLong);
    }
    if LARGEST < n {
        return Err(Refusal::StreamLarge);
    }
    let paired = 2 * m;
    if t < paired {
        return Err(Refusal::RoomShort);
    }
    if e < m {
        return Err(Refusal::RoomShort);
    }
    Ok(())
}
