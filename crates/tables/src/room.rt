// Both tables of a probe in one room, in pairs: entry i of the suffix table is the first of pair i, and entry i of the shift
// table the second.
ghost use Rattle.std.specs.Prelude.{◌≡◌, ◌*◌, ◌<◌, ◌≤◌, length, set};
ghost use Rattle.basics.specs.Lists.{at};
ghost use Rattle.basics.specs.Rooms.{front};
ghost use Rattle.tables.specs.Both.{firsts, seconds};
ghost use Rattle.tables.specs.Refusal.{longest};

use crate::probe::Probe;

// A probe, and a room that is long enough for its pairs.
#[derive(Drop)]
pub(crate) struct Pairs<'a> {
    pub x: Probe<'a>,
    pub room: &'a mut [u16],
    ghost reaches: { 2 * length x.bytes.now ≤ length room.now },
}

impl<'a> Pairs<'a> {
    ghost use Rattle.tables.specs.Inside.{Stays, every_second};

    // Entry i of the suffix table.
    pub(crate) fn suffix(&self, i: usize) -> usize
        requires { i < length self.now.x.bytes.now }
        ensures { result ≡ at (firsts self.now.room.now) i }
    {
        usize::from(self.room[2 * i])
    }

    // Sets entry i of the suffix table. The two tables have a setter each, since each promises what it leaves of the other.
    pub(crate) fn set_suffix(&mut self, i: usize, n: usize)
        requires { (i < length self.old.x.bytes.now) × (n ≤ longest) }
        ensures stays { Stays self.old self.new }
        ensures firsts { firsts self.new.room.now ≡ set (firsts self.old.room.now) i n }
        ensures seconds { seconds self.new.room.now ≡ seconds self.old.room.now }
    {
        self.room[2 * i] = n as u16;
    }

    // Sets entry i of the shift table.
    pub(crate) fn set_shift(&mut self, i: usize, n: usize)
        requires { (i < length self.old.x.bytes.now) × (n ≤ longest) }
        ensures stays { Stays self.old self.new }
        ensures firsts { firsts self.new.room.now ≡ firsts self.old.room.now }
        ensures seconds { seconds self.new.room.now ≡ set (seconds self.old.room.now) i n }
    {
        self.room[2 * i + 1] = n as u16;
    }

    // Takes the pairs apart: writes every second number, from number `from` on, to the front of a room.
    pub(crate) fn every_second(&self, from: usize, room: &mut [u32])
        requires { (from ≤ 1) × (length self.now.x.bytes.now ≤ length room.old) }
        ensures { room.new ≡ front (every_second from self.now.room.now (length self.now.x.bytes.now)) room.old }
    {
        for i in 0..self.x.len() {
            room[i] = u32::from(self.room[from + 2 * i]);
        }
    }
}
