// The tables of a probe, for C.
ghost use Rattle.std.specs.Prelude.{◌≡◌};
ghost use Rattle.tables.specs.Suffix.{suffix_table};
ghost use Rattle.tables.specs.Shift.{shift_table};
ghost use Rattle.tables.specs.Both.{both_tables};
ghost use Rattle.tables.specs.Promise.{Written, occurrence_of};
ghost use Rattle.basics.specs.Refusal.{refusal_seen};
ghost use Rattle.capi.specs.Seen.{occurrences_seen, FromTable};

use basics::Refusal;

// nahui_occurrences. The refusal is a number, 0 for none: the C interface.
#[repr(C)]
#[derive(Drop)]
pub struct Occurrences {
    pub refusal: u32,
    pub table: [u32; 256],
}

impl From<Result<[u32; 256], Refusal>> for Occurrences {
    ghost from_gives = { FromTable };

    fn from(outcome: Result<[u32; 256], Refusal>) -> Occurrences {
        match outcome {
            Ok(table) => Occurrences { refusal: 0, table },
            Err(refusal) => Occurrences {
                refusal: refusal.number(),
                table: [0u32; 256],
            },
        }
    }
}

// Answers the refusal's number alone, 0 for none: the C interface.
#[unsafe(no_mangle)]
pub extern "C" fn nahui_suffix(probe: &[u8], room: &mut [u32]) -> u32
    ensures { Written 1 (suffix_table probe.now) probe.now room.old result room.new }
{
    number(tables::suffix(probe, room))
}

// Answers the refusal's number alone, 0 for none: the C interface.
#[unsafe(no_mangle)]
pub extern "C" fn nahui_shift(probe: &[u8], room: &mut [u32]) -> u32
    ensures { Written 1 (shift_table probe.now) probe.now room.old result room.new }
{
    number(tables::shift(probe, room))
}

// Answers the refusal's number alone, 0 for none: the C interface.
#[unsafe(no_mangle)]
pub extern "C" fn nahui_tables(probe: &[u8], room: &mut [u16]) -> u32
    ensures { Written 2 (both_tables probe.now) probe.now room.old result room.new }
{
    number(tables::both(probe, room))
}

#[unsafe(no_mangle)]
pub extern "C" fn nahui_occurrence(probe: &[u8]) -> Occurrences
    ensures { occurrences_seen result ≡ occurrence_of probe.now }
{
    Occurrences::from(tables::occurrence(probe))
}

// The refusal's number; 0 where nothing was refused: the C interface.
fn number(outcome: Result<(), Refusal>) -> u32
    ensures { result ≡ refusal_seen outcome }
{
    match outcome {
        Ok(()) => 0,
        Err(refusal) => refusal.number(),
    }
}
