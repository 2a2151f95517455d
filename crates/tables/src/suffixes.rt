// The suffix table in linear time: SUFFIXES, figure 9 of source document 001, section 4.1.
//
// Entry i is the length of the longest common suffix of x[0..i] and x. The entries are set from the last one down. Of the
// suffixes found so far, v = x[g + 1..f] is one that reaches down furthest:
//
//     x  . . a v v v v v v . . . . b v v v v v v      v stands again at the end of x; a and b differ, or there is no a
//            g     i     f               j     m-1    j = i + m - 1 - f
//
// What ends at i within v ends at j as well, and entry j is set already: lemma 4.1 (specs/laws/Lemma41.antt).
//
// The numbers behind the lines are the figure's; suf[i] is the first of pair i. Two departures from the page:
// 1. f starts at m - 1. On the page it has no value before line 7; line 4 reads it only where i > g, and so never before.
// 2. g falls to -1, so g + 1 is kept, as `g1`: i > g is g1 <= i, i - g is i + 1 - g1, and f - g is f + 1 - g1.
//
// Line 8 compares fewer than 2m times (theorem 4.3). The count is kept for that promise alone: `fill` drops it.
ghost use Rattle.std.specs.Prelude.{◌≡◌, ◌+◌, ◌*◌, ◌-◌, ◌<◌, ◌≤◌, length};
ghost use Rattle.tables.specs.Suffix.{suffix_table};
ghost use Rattle.tables.specs.Refusal.{longest};
ghost use Rattle.tables.specs.Inside.{Firstly, Stays};
ghost use Rattle.tables.specs.Comparisons.{falls, compared, comparisons};

use crate::probe::Probe;
use crate::room::Pairs;

// Where g + 1 stands after line 9, and the comparisons made so far.
#[derive(Drop)]
pub(crate) struct Fallen {
    pub g1: usize,
    pub count: usize,
}

// Fills the first place of each pair.
pub(crate) fn fill(pairs: &mut Pairs)
    ensures stays { Stays pairs.old pairs.new }
    ensures table { Firstly (suffix_table pairs.old.x.bytes.now) pairs.old.room.now pairs.new.room.now }
{
    suffixes(pairs);
}

// SUFFIXES(x, m); answers how many comparisons line 8 made.
fn suffixes(pairs: &mut Pairs) -> usize
    ensures stays { Stays pairs.old pairs.new }
    ensures table { Firstly (suffix_table pairs.old.x.bytes.now) pairs.old.room.now pairs.new.room.now }
    ensures count { result ≡ comparisons pairs.old.x.bytes.now }
    ensures few { result < 2 * length pairs.old.x.bytes.now }
{
    let x = pairs.x;
    let last = x.len() - 1;
    let mut f = last;
    let mut count = 0;
    pairs.set_suffix(last, x.len()); // 1
    let mut g1 = x.len(); // 2
    for i in (0..last).rev() { // 3
        if g1 <= i && pairs.suffix(i + last - f) < i + 1 - g1 { // 4
            pairs.set_suffix(i, pairs.suffix(i + last - f)); // 5
        } else {
            g1 = (i + 1).min(g1); // 6
            f = i; // 7
            let fallen = fall(x, f, g1, count); // 8 and 9
            g1 = fallen.g1;
            count = fallen.count;
            pairs.set_suffix(i, f + 1 - g1); // 10
        }
    }
    count
}

// Lines 8 and 9: g falls while x[g] = x[g + m - 1 - f]. The filling compares bytes here and nowhere else.
fn fall(x: Probe, f: usize, g1: usize, count: usize) -> Fallen
    requires { (f < length x.bytes.now) × (g1 ≤ f + 1) × (count ≤ 2 * longest) }
    ensures low { result.g1 ≡ g1 - falls x.entry.bytes.now f g1 }
    ensures count { result.count ≡ count + compared x.entry.bytes.now f g1 }
{
    let last = x.len() - 1;
    let mut count = count;
    for g in (0..g1).rev() { // 9
        count += 1;
        if x.bytes[g] != x.bytes[g + last - f] { // 8
            return Fallen { g1: g + 1, count };
        }
    }
    Fallen { g1: 0, count }
}
