// The remembered lengths. Only the last m positions are needed: position h stands at slot h mod m of the memory room. Its
// entry is h and the length added. What an earlier position left in the slot is at most h, since it lies m or more before
// h and a length is at most m: it reads as 0. So nothing is cleared while a scan runs.
//
// The slot goes along with the position: no division is made.
ghost use Rattle.std.specs.Prelude.{◌≡◌, ◌+◌, ◌<◌, ◌≤◌, length};
ghost use Rattle.scans.specs.inside.Slots.{recalled, Stands};
ghost use Rattle.scans.specs.inside.Window.{Kept};

use crate::scan::Scan;

// A text position and its slot in the memory room. That the slot is the position's is a clause, and no ghost field: a loop that
// moves a place holds it in parts, and would have to state the fact all the same (tried). That the room is long enough is a
// clause too: a struct that lends it would say in every contract that it still does.
#[derive(Clone, Copy)]
pub(crate) struct Place {
    pub at: usize,
    pub slot: usize,
}

impl Scan<'_> {
    // The place d on from p.
    pub(crate) fn on(&self, p: Place, d: usize) -> Place
        requires d_in_bounds { (d ≤ length self.now.probe.now) × (p.at ≤ 33554432) }
        requires stands { Stands (length self.now.probe.now) p.at p }
        ensures { Stands (length self.now.probe.now) (p.at + d) result }
    {
        let m = self.probe.len();
        let at = p.at + d;
        let slot = p.slot + d;
        if slot < m {
            Place { at, slot }
        } else {
            Place { at, slot: slot - m }
        }
    }

    // The length remembered at a place.
    pub(crate) fn recall(&self, mem: &[u32], p: Place) -> usize
        requires room { length self.now.probe.now ≤ length mem.now }
        requires stands { Stands (length self.now.probe.now) p.at p }
        ensures { result ≡ recalled mem.now (length self.now.probe.now) p.at }
    {
        let slot = p.slot;
        (mem[slot] as usize).saturating_sub(p.at)
    }

    // Remembers v at the last position of the window at `start`: one past the last position where anything is remembered.
    // A length of 0 need not be written, since nothing was remembered there.
    pub(crate) fn keep(&self, mem: &mut [u32], start: Place, top: usize, v: usize) -> usize
        requires room { (length self.now.probe.now ≤ length mem.old) × (v ≤ length self.now.probe.now) }
        requires start_in_bounds { (start.at ≤ 16777216) × (top < start.at + length self.now.probe.now) }
        requires stands { Stands (length self.now.probe.now) start.at start }
        ensures { Kept (length self.now.probe.now) mem.old start.at top v mem.new result }
    {
        if v == 0 {
            return top;
        }
        let last = self.on(start, self.probe.len() - 1);
        let slot = last.slot;
        mem[slot] = (last.at + v) as u32;
        last.at + 1
    }
}
