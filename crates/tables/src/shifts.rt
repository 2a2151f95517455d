// The shift table in linear time, out of the suffix table: STRONG-MATCHING, figure 11 of source document 001.
//
// 1. The page's i runs downward to -1; here s = m - 1 - i runs upward, so that no index is negative.
// 2. Lines 1 to 6 give each entry the least shift above it whose rest is a suffix of x.
// 3. Lines 7 and 8 then set the entries at which a shift fits below them, the smallest shift last.
//
// The numbers behind the lines are the figure's. The page's tables suf and sMatch share one room: entry i of suf is the first
// of pair i, and entry i of sMatch the second.
ghost use Rattle.std.specs.Prelude.{◌≤◌, length};
ghost use Rattle.basics.specs.Lists.{table};
ghost use Rattle.basics.specs.Rooms.{Begins};
ghost use Rattle.tables.specs.Suffix.{suffix_table};
ghost use Rattle.tables.specs.Shift.{shift_table};
ghost use Rattle.tables.specs.Both.{firsts, seconds};
ghost use Rattle.tables.specs.Refusal.{longest};
ghost use Rattle.tables.specs.Inside.{Secondly, Stays};
ghost use Rattle.tables.specs.laws.Figure11.{spread_at};

use crate::room::Pairs;

// Fills the second place of each pair, in a room that has the suffix table at the first places.
pub(crate) fn fill(pairs: &mut Pairs)
    requires { Begins (suffix_table pairs.old.x.bytes.now) (firsts pairs.old.room.now) }
    ensures stays { Stays pairs.old pairs.new }
    ensures table { Secondly (shift_table pairs.old.x.bytes.now) pairs.old.room.now pairs.new.room.now }
{
    let m = pairs.x.len();
    let mut j = 0; // 1
    for s in 1..m { // 2
        let to = if pairs.suffix(m - 1 - s) == m - s { // 3
            s
        } else {
            j
        };
        spread(pairs, j, to, s); // 4 to 6
        j = to;
    }
    spread(pairs, j, m, m); // 3 to 6, where i is -1
    for i in 0..m - 1 { // 7
        pairs.set_shift(m - 1 - pairs.suffix(i), m - 1 - i); // 8
    }
}

// Lines 4 to 6: sets the entries from `from` to `to` to s.
fn spread(pairs: &mut Pairs, from: usize, to: usize, s: usize)
    requires { (from ≤ to) × (to ≤ length pairs.old.x.bytes.now) × (s ≤ longest) }
    ensures stays { Stays pairs.old pairs.new }
    ensures written { Secondly (table to (spread_at (seconds pairs.old.room.now) from s)) pairs.old.room.now pairs.new.room.now }
{
    for q in from..to {
        pairs.set_shift(q, s);
    }
}
