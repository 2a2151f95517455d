// The parts of a log, put into a room one after another, each where the last one ended.
ghost use Rattle.std.specs.Prelude.{◌≡◌, ◌++◌, ◌+◌, ◌*◌, ◌≤◌, length};
ghost use Rattle.basics.specs.laws.Inlaid.{Inlaid};
ghost use Rattle.drawlog.specs.Log.{entry_size, trailer_size, longest};
ghost use Rattle.drawlog.specs.Number.{bytes_of};
ghost use Rattle.writer.specs.Made.{sum_to, directory_bytes, trailer_bytes, made};
ghost use Rattle.writer.specs.Inside.{Fit, Put, Puts};

use crate::refusal::Replicates;
use drawlog::Log;

// Puts the log of these replicates to the front of a room that holds it. Answers its length.
pub(crate) fn log(room: &mut [u8], replicates: Replicates) -> usize
    requires { Fit replicates.blocks.now replicates.ids.now replicates.lengths.now (length room.old) }
    ensures { Put room.old 0 (made replicates.entry.blocks.now replicates.entry.ids.now replicates.entry.lengths.now) result room.new }
{
    let mut cursor = Cursor { room, place: 0 };
    cursor.bytes(replicates.blocks);
    let start = cursor.place;
    cursor.directory(replicates);
    cursor.trailer(start as u32, replicates.ids.len() as u32);
    cursor.place
}

// A room, and the place in it where the next part goes. No `lines::Text`: that cuts off what does not fit, and this is lent
// a room that holds all, which its promises say.
#[derive(Drop)]
struct Cursor<'a> {
    room: &'a mut [u8],
    place: usize,
}

impl Cursor<'_> {
    // The entries, one after another. Each block starts where the previous one ended.
    fn directory(&mut self, replicates: Replicates)
        requires short { sum_to replicates.lengths.now (length replicates.ids.now) ≤ longest }
        requires held { self.old.place + entry_size * length replicates.ids.now ≤ length self.old.room.now }
        ensures { Puts self.old (directory_bytes replicates.entry.ids.now replicates.entry.lengths.now (length replicates.entry.ids.now)) self.new }
    {
        let mut start = 0;
        for (id, size) in replicates.ids.iter().zip(replicates.lengths) {
            self.entry(*id, start, *size);
            start += *size;
        }
    }

    // An entry: id, start, length.
    #[tactic(auto, using(crate::specs::laws::Put::puts_number))]
    fn entry(&mut self, id: u32, start: u32, size: u32)
        requires { self.old.place + entry_size ≤ length self.old.room.now }
        ensures { Puts self.old (bytes_of id ++ (bytes_of start ++ bytes_of size)) self.new }
    {
        self.number(id);
        self.number(start);
        self.number(size);
    }

    // The trailer: directory start, count, mark.
    #[tactic(auto, using(crate::specs::laws::Put::puts_number))]
    fn trailer(&mut self, directory: u32, count: u32)
        requires { self.old.place + trailer_size ≤ length self.old.room.now }
        ensures { Puts self.old (trailer_bytes directory count) self.new }
    {
        self.number(directory);
        self.number(count);
        self.bytes(&Log::MARK);
    }

    // A 32-bit number, low byte first.
    #[tactic(auto, using(crate::specs::laws::Put::word_bytes))]
    fn number(&mut self, n: u32)
        requires { self.old.place + 4 ≤ length self.old.room.now }
        ensures { Puts self.old (bytes_of n) self.new }
    {
        self.bytes(&n.to_le_bytes());
    }

    // The bytes w.
    fn bytes(&mut self, w: &[u8])
        requires { self.old.place + length w.now ≤ length self.old.room.now }
        ensures { Puts self.old w.now self.new }
    {
        let end = self.place + w.len();
        lay(self.room, self.place, w);
        self.place = end;
    }
}

// Lays the bytes w into a room, from a place on. By hand: std's `copy_from_slice` becomes a call of `memmove`, which the
// archive would then need of whoever links it.
fn lay(room: &mut [u8], at: usize, w: &[u8])
    requires { at + length w.now ≤ length room.old }
    ensures { Inlaid room.old at w.now room.new }
{
    for (i, b) in w.iter().enumerate() {
        room[at + i] = *b;
    }
}
