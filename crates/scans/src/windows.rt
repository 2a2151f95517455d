// One window: where stream bytes are compared with probe bytes, and where the comparisons are counted.
//
// A window's end is told by its stop: the index where it stopped, or none where it matched.
ghost use Rattle.std.specs.Prelude.{◌≡◌, ◌+◌, ◌-◌, ◌<◌, ◌≤◌, eqb, length};
ghost use Rattle.basics.specs.Lists.{at};
ghost use Rattle.scans.specs.Plain.{plain_pass};
ghost use Rattle.scans.specs.inside.Window.{size, Starts, pass_down, seen_as, seen_of, passed_by, passed_of, Within, Ahead, Quiet};

use crate::memory::Place;
use crate::scan::Window;

// How a window ended, and the length to remember of it.
#[derive(Drop)]
pub(crate) struct Passed {
    pub stop: Option<usize>,
    pub kept: usize,
}

// THE comparison of a stream byte with a probe byte: both scans compare here and nowhere else, and each call adds one to
// the count. How far the count has come is a clause of each function here, with the bound that it needs: a type for a count
// that has so far to go would need one for each bound, and be no plainer.
fn meet(a: u8, b: u8, count: &mut u64) -> bool
    requires { count.old < 2199023255552 }
    ensures equal { result ≡ eqb a b }
    ensures count { count.new ≡ count.old + 1 }
{
    *count += 1;
    a == b
}

impl Window<'_> {
    // Compares from index `high` - 1 down to `low`: where two bytes differ first.
    fn ahead(&self, high: usize, low: usize, count: &mut u64) -> Option<usize>
        requires low_le_high { (low ≤ high) × (high ≤ size self.now) × (count.old < 1099511631872) }
        ensures { Ahead self.now.scan.probe.now self.now.scan.stream.now self.now.at high low count.old result count.new }
    {
        // Counted up, by the bytes that are equal so far: over `(low..high).rev()` the plain scan took 1.3 times as long.
        for equal in 0..high - low {
            let i = high - 1 - equal;
            if !meet(self.scan.stream[self.at + i], self.scan.probe[i], count) {
                return Some(i);
            }
        }
        None
    }

    // The plain window.
    pub(crate) fn all_bytes(&self, count: &mut u64) -> Option<usize>
        requires count_bound { count.old < 1099511627776 }
        ensures pass { seen_as result count.new ≡ seen_of (plain_pass self.now.scan.probe.now self.now.scan.stream.now self.now.at) count.old }
        ensures within { Within (size self.now) result }
    {
        self.ahead(self.scan.probe.len(), 0, count)
    }

    // The last byte of the window. Nothing is remembered of it, so it is compared in any case.
    pub(crate) fn last_byte(&self, count: &mut u64) -> bool
        requires count_bound { count.old < 1099511627776 }
        ensures equal { result ≡ eqb (at self.now.scan.stream.now (self.now.at + (size self.now - 1))) (at self.now.scan.probe.now (size self.now - 1)) }
        ensures count { count.new ≡ count.old + 1 }
    {
        let i = self.scan.probe.len() - 1;
        meet(self.scan.stream[self.at + i], self.scan.probe[i], count)
    }

    // The remembering window before its last byte; its start has that slot. At `top` and above it nothing is remembered, so
    // nothing is looked up.
    pub(crate) fn other_bytes(
        &self,
        mem: &[u32],
        slot: usize,
        top: usize,
        count: &mut u64,
    ) -> Passed
        requires room { size self.now ≤ length mem.now }
        requires stands { Starts self.now slot }
        requires quiet { Quiet (size self.now) mem.now self.now.at top }
        requires count_bound { count.old ≤ 1099511627776 }
        ensures pass { passed_by result count.new ≡ passed_of (pass_down self.now mem.now (size self.now - 1)) count.old }
        ensures within { Within (size self.now) result.stop }
        ensures kept { result.kept ≤ size self.now }
    {
        let last = self.scan.probe.len() - 1;
        let low = top.saturating_sub(self.at);
        // Counted down, and not by `ahead`: that made 1.07 times as many instructions of a stream of period 3.
        for i in (low..last).rev() {
            if !meet(self.scan.stream[self.at + i], self.scan.probe[i], count) {
                return Passed {
                    stop: Some(i),
                    kept: last - i,
                };
            }
        }
        self.below(mem, slot, low, count)
    }

    // The rest of the window, from index `from` - 1 down, by the four rules.
    fn below(&self, mem: &[u32], slot: usize, from: usize, count: &mut u64) -> Passed
        requires room { size self.now ≤ length mem.now }
        requires stands { Starts self.now slot }
        requires from_in_bounds { (from ≤ size self.now) × (count.old < 1099511631872) }
        ensures { passed_by result count.new ≡ passed_of (pass_down self.now mem.now from) count.old }
    {
        let m = self.scan.probe.len();
        let start = Place { at: self.at, slot };
        let mut k = from;
        // No `for`: it goes down by one, or by the length remembered.
        while 0 < k {
            let i = k - 1;
            let h = self.scan.on(start, i);
            let r = self.scan.recall(mem, h);
            if r == 0 {
                if !meet(self.scan.stream[h.at], self.scan.probe[i], count) {
                    return Passed {
                        stop: Some(i),
                        kept: m - k,
                    };
                }
                k = i;
            } else {
                let s = self.scan.suffix(i);
                if r <= s {
                    k -= r;
                } else if s == k {
                    return Passed {
                        stop: None,
                        kept: m,
                    };
                } else {
                    let stop = i - s;
                    // Counted from i, before the suffix entry is taken off.
                    let behind = m - k;
                    return Passed {
                        stop: Some(stop),
                        kept: behind,
                    };
                }
            }
        }
        Passed {
            stop: None,
            kept: m,
        }
    }
}
