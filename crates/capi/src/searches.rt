// The two scans, for C.
ghost use Rattle.std.specs.Prelude.{◌≡◌};
ghost use Rattle.scans.specs.Promise.{Plainly, Rememberingly};
ghost use Rattle.capi.specs.Seen.{answer_seen, FromAnswer};

use basics::Refusal;
use scans::Answer;

// nahui_searched. The refusal is a number, 0 for none: the C interface. A search has no entries, so its entry number is
// always 0.
#[repr(C)]
#[derive(Drop)]
pub struct Searched {
    pub refusal: u32,
    pub entry: u32,
    pub occurrences: u64,
    pub written: u64,
    pub windows: u64,
    pub comparisons: u64,
    pub closest: u64,
    pub closest_at: u64,
}

// The answer to a search that finds and does nothing.
const NONE: Searched = Searched {
    refusal: 0,
    entry: 0,
    occurrences: 0,
    written: 0,
    windows: 0,
    comparisons: 0,
    closest: 0,
    closest_at: 0,
};

impl From<Result<Answer, Refusal>> for Searched {
    ghost from_gives = { FromAnswer };

    fn from(outcome: Result<Answer, Refusal>) -> Searched {
        match outcome {
            Ok(a) => Searched {
                refusal: 0,
                entry: 0,
                occurrences: a.occurrences,
                written: a.written,
                windows: a.windows,
                comparisons: a.comparisons,
                closest: a.closest,
                closest_at: a.closest_at,
            },
            Err(refusal) => Searched {
                refusal: refusal.number(),
                ..NONE
            },
        }
    }
}

#[unsafe(no_mangle)]
pub extern "C" fn nahui_plain(
    probe: &[u8],
    stream: &[u8],
    tables: &mut [u16],
    positions: &mut [u32],
) -> Searched
    ensures answer { Plainly probe.now stream.now tables.old positions.old (answer_seen result)
        tables.new positions.new }
    ensures entry { result.entry ≡ 0 }
{
    Searched::from(scans::plain(probe, stream, tables, positions))
}

#[unsafe(no_mangle)]
pub extern "C" fn nahui_remember(
    probe: &[u8],
    stream: &[u8],
    tables: &mut [u16],
    memory: &mut [u32],
    positions: &mut [u32],
) -> Searched
    ensures answer { Rememberingly probe.now stream.now tables.old memory.old positions.old (answer_seen result)
        tables.new memory.new positions.new }
    ensures entry { result.entry ≡ 0 }
{
    Searched::from(scans::remember(probe, stream, tables, memory, positions))
}
