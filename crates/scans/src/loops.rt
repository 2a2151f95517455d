// From window to window, while one fits into the stream.
ghost use Rattle.std.specs.Prelude.{◌≡◌, ◌≤◌, length, drop, replicate};
ghost use Rattle.basics.specs.Rooms.{front};
ghost use Rattle.scans.specs.Plain.{plain};
ghost use Rattle.scans.specs.Remember.{remembering};
ghost use Rattle.scans.specs.Promise.{reported};
ghost use Rattle.scans.specs.inside.Hits.{places_of, run_of};
ghost use Rattle.scans.specs.inside.Search.{answer_by, tally_by};

use crate::closeness::Closest;
use crate::memory::Place;
use crate::scan::Scan;
use crate::{Answer, Tally, closeness, hits};

// What a scan gives: how many places it noted, its windows, its comparisons, and the closest window.
#[derive(Clone, Copy)]
pub(crate) struct Run {
    pub hits: usize,
    pub windows: u64,
    pub comparisons: u64,
    pub closest: Closest,
}

impl Run {
    // What it gives before its first window.
    const NONE: Run = Run {
        hits: 0,
        windows: 0,
        comparisons: 0,
        closest: Closest { equal: 0, at: 0 },
    };

    // The six numbers of a search whose position room has n entries.
    pub(crate) fn answer(self, n: usize) -> Answer
        ensures { result ≡ answer_by self n }
    {
        let written = self.hits.min(n);
        Answer {
            occurrences: self.hits as u64,
            written: written as u64,
            windows: self.windows,
            comparisons: self.comparisons,
            closest: self.closest.equal as u64,
            closest_at: self.closest.at as u64,
        }
    }

    // The number of the places noted, and the first of them.
    pub(crate) fn tally(self, first: u32) -> Option<Tally>
        ensures { result ≡ tally_by self first }
    {
        if self.hits == 0 {
            return None;
        }
        Some(Tally {
            number: self.hits as u64,
            first: first as u64,
        })
    }
}

// Two loops: what a scan keeps from window to window differs, and one loop for both would ask in each window which it is.
impl Scan<'_> {
    // The plain scan; it notes every place.
    pub(crate) fn plainly(&self, room: &mut [u32]) -> Run
        ensures run { result ≡ run_of 1 (plain self.now.probe.now self.now.stream.now) }
        ensures room { room.new ≡ reported (places_of 1 (plain self.now.probe.now self.now.stream.now)) room.old }
    {
        let m = self.probe.len();
        let mut j = 0;
        let mut run = Run::NONE;
        while let Some(window) = self.window(j) {
            let stop = window.all_bytes(&mut run.comparisons);
            run.windows += 1;
            run.hits = hits::note(room, run.hits, 1, j, stop);
            let d = window.advance(stop);
            // With `after` in its place a scan of equal bytes took 1.1 times as long.
            run.closest = run.closest.closer(closeness::trailing(m, stop), j);
            j += d;
        }
        run
    }

    // The remembering scan with its memory room cleared before and after; it notes the places at multiples of the step.
    pub(crate) fn remembering(&self, mem: &mut [u32], room: &mut [u32], step: usize) -> Run
        requires { length self.now.probe.now ≤ length mem.old }
        ensures run { result ≡ run_of step (remembering self.now.probe.now self.now.stream.now) }
        ensures room { room.new ≡ reported (places_of step (remembering self.now.probe.now self.now.stream.now)) room.old }
        ensures zeros { mem.new ≡ front (replicate (length self.now.probe.now) 0) mem.old }
    {
        let used = &mut mem[..self.probe.len()];
        used.fill(0);
        let run = self.through(used, room, step);
        used.fill(0);
        run
    }

    // The same over a memory room that is clear.
    fn through(&self, mem: &mut [u32], room: &mut [u32], step: usize) -> Run
        requires room { length self.now.probe.now ≤ length mem.old }
        requires mem_value { mem.old ≡ front (replicate (length self.now.probe.now) 0) mem.old }
        ensures run { result ≡ run_of step (remembering self.now.probe.now self.now.stream.now) }
        ensures room { room.new ≡ reported (places_of step (remembering self.now.probe.now self.now.stream.now)) room.old }
        ensures rest { drop (length self.now.probe.now) mem.new ≡ drop (length self.now.probe.now) mem.old }
    {
        let m = self.probe.len();
        let mut p = Place { at: 0, slot: 0 };
        let mut top = 0;
        let mut run = Run::NONE;
        while let Some(window) = self.window(p.at) {
            let j = p.at;
            run.windows += 1;
            if window.last_byte(&mut run.comparisons) {
                let w = window.other_bytes(mem, p.slot, top, &mut run.comparisons);
                run.closest = run.closest.after(m, w.stop, j);
                // The next window waits for the move alone, so the move comes before the notes. With the closest window behind it
                // too, a scan of equal bytes took 1.08 times as long.
                let next = self.on(p, window.advance(w.stop));
                run.hits = hits::note(room, run.hits, step, j, w.stop);
                top = self.keep(mem, p, top, w.kept);
                p = next;
            } else {
                // Most windows stop here, with nothing to note.
                p = self.on(p, window.advance(Some(m - 1)));
            }
        }
        run
    }
}
