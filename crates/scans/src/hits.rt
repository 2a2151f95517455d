// The places that are noted: written to the position room as far as it reaches, and counted.
ghost use Rattle.std.specs.Prelude.{◌≡◌, ◌<◌, set};
ghost use Rattle.scans.specs.Occurrences.{on_step};
ghost use Rattle.scans.specs.inside.Window.{end_of};
ghost use Rattle.scans.specs.inside.Hits.{counted_by, noted_by};

// Notes the window at j, if it matched and j is a multiple of the step: how many places are noted then, of which `hits`
// were before. The room is the caller's and may be too short for them, so their number is kept beside it.
pub(crate) fn note(
    room: &mut [u32],
    hits: usize,
    step: usize,
    j: usize,
    stop: Option<usize>,
) -> usize
    requires { (j < 4294967296) × (hits < 4294967296) }
    ensures hits { result ≡ counted_by step j (end_of stop) hits }
    ensures room { room.new ≡ noted_by step j (end_of stop) hits room.old }
{
    if stop.is_some() {
        return hits;
    }
    if !on_step(step, j) {
        return hits;
    }
    put(room, hits, j);
    hits + 1
}

// Puts v at k, where the room reaches so far.
fn put(room: &mut [u32], k: usize, v: usize)
    requires { v < 4294967296 }
    ensures { room.new ≡ set room.old k v }
{
    if k < room.len() {
        room[k] = v as u32;
    }
}

// Whether j is a multiple of the step; of 0, only 0 is. A search for all places has step 1 and divides nothing.
fn on_step(step: usize, j: usize) -> bool
    ensures { result ≡ on_step step j }
{
    if step == 1 {
        return true;
    }
    if step == 0 { j == 0 } else { j % step == 0 }
}
