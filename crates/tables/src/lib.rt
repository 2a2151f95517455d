// The tables of a probe: what a Boyer-Moore scan looks up. Bytes are compared as bytes.
//
// Names follow source document 001 (Crochemore, Hancart, Lecroq: A unifying look at the Apostolico-Giancarlo
// string-matching algorithm), sections 2 and 4: the probe is x and has m bytes.
//
// suffix     entry i: the longest common suffix of x[0..i] and x            module suffixes, figure 9
// shift      entry i: how far the probe may move after a stop at i          module shifts, figure 11
// occurrence entry a: how far before the last place byte a stands last      module places
//
// The suffix and shift tables are filled in one room of 16-bit numbers, suffix entry then shift entry for each index: that
// is what a scan takes (`both`). `suffix` and `shift` take the pairs apart.
//
// Each call refuses what it cannot serve, by a refusal of document 01's table, and leaves every room as it was.
#![tactic(auto)]

ghost use Rattle.std.specs.Prelude.{◌≡◌};
ghost use Rattle.basics.specs.Refusal.{refusal_seen};
ghost use Rattle.tables.specs.Suffix.{suffix_table};
ghost use Rattle.tables.specs.Shift.{shift_table};
ghost use Rattle.tables.specs.Both.{both_tables};
ghost use Rattle.tables.specs.Promise.{Written, occurrence_of, occurrences_seen};

use basics::Refusal;

mod places; // places.rt: the occurrence table
mod probe; // probe.rt: what a probe is, and what is refused
mod room; // room.rt: both tables in one room, in pairs
mod shifts; // shifts.rt: the shift table, out of the suffix table
mod suffixes; // suffixes.rt: the suffix table

use probe::Probe;
use room::Pairs;

// The most bytes that a probe may have.
pub const LONGEST: usize = 4096;

// The numbers that both tables of such a probe take: two for each byte.
const PAIRED: usize = 2 * LONGEST;

// Writes the suffix table of the probe to the front of the room.
pub fn suffix(probe: &[u8], room: &mut [u32]) -> Result<(), Refusal>
    ensures { Written 1 (suffix_table probe.now) probe.now room.old (refusal_seen result) room.new }
{
    let x = Probe::of(probe)?;
    x.within(1, room.len())?;
    let mut numbers = [0u16; PAIRED];
    let mut pairs = Pairs {
        x,
        room: &mut numbers,
    };
    suffixes::fill(&mut pairs);
    pairs.every_second(0, room);
    Ok(())
}

// Writes the shift table of the probe to the front of the room. It differs from `suffix` by a step in between: one function
// for both would be no plainer, as it would take a flag for that step.
pub fn shift(probe: &[u8], room: &mut [u32]) -> Result<(), Refusal>
    ensures { Written 1 (shift_table probe.now) probe.now room.old (refusal_seen result) room.new }
{
    let x = Probe::of(probe)?;
    x.within(1, room.len())?;
    let mut numbers = [0u16; PAIRED];
    let mut pairs = Pairs {
        x,
        room: &mut numbers,
    };
    suffixes::fill(&mut pairs);
    shifts::fill(&mut pairs);
    pairs.every_second(1, room);
    Ok(())
}

// Writes both tables of the probe to the front of one room, suffix entry then shift entry for each index.
pub fn both(probe: &[u8], room: &mut [u16]) -> Result<(), Refusal>
    ensures { Written 2 (both_tables probe.now) probe.now room.old (refusal_seen result) room.new }
{
    let x = Probe::of(probe)?;
    x.within(2, room.len())?;
    let mut pairs = Pairs { x, room };
    suffixes::fill(&mut pairs);
    shifts::fill(&mut pairs);
    Ok(())
}

// The occurrence table of the probe, by value, with an entry for each byte. It takes no room, so none can be too short.
pub fn occurrence(probe: &[u8]) -> Result<[u32; 256], Refusal>
    ensures { occurrences_seen result ≡ occurrence_of probe.now }
{
    let x = Probe::of(probe)?;
    Ok(places::by_byte(x))
}
