// The draw log's own type: its sizes, mark and limits, and how its trailer is read.
// Reader, writer and salvage use these and no other numbers.
ghost use Rattle.std.specs.Prelude.{◌≡◌, ◌+◌, ◌*◌, ◌≤◌, length};
ghost use Rattle.drawlog.specs.Number.{number};
ghost use Rattle.drawlog.specs.Log.{entry_size, trailer_size, log_of};

// What a log's trailer says.
#[derive(Clone, Copy)]
pub struct Log {
    pub(crate) directory: u32,
    pub(crate) count: u32,
}

impl Log {
    // A number takes 4 bytes, low byte first, and so does the mark.
    pub const WORD: usize = 4;

    // A directory entry: id, start, length.
    pub const ENTRY: usize = 12;

    pub const START_AT: usize = 4;

    pub const LENGTH_AT: usize = 8;

    // The trailer: directory start, count, mark. No log is shorter.
    pub const TRAILER: usize = 12;

    pub const COUNT_AT: usize = 4;

    pub const MARK_AT: usize = 8;

    pub const MARK: [u8; 4] = *b"DRAW";

    // The most bytes of a log.
    pub const LONGEST: usize = 65536;

    // The fewest and the most replicates.
    pub const FEWEST: u32 = 1;

    pub const MOST: u32 = 64;

    // The bytes of a draw.
    pub const DRAW: u32 = 8;

    // What the trailer of s says.
    #[tactic(auto, unfolding(crate::specs::Log::directory, crate::specs::Log::count))]
    pub(crate) fn of(s: &[u8]) -> Self
        requires { trailer_size ≤ length s.now }
        ensures { result ≡ log_of s.now }
    {
        let at = s.len() - Log::TRAILER;
        Log {
            directory: number(s, at),
            count: number(s, at + Log::COUNT_AT),
        }
    }

    // Where entry k stands. Two 32-bit numbers cannot wrap here.
    pub(crate) fn place(self, k: u32) -> usize
        ensures { result ≡ self.directory + entry_size * k }
    {
        self.directory as usize + Log::ENTRY * k as usize
    }

    // The length of a log with this trailer.
    pub(crate) fn size(self) -> usize
        ensures { result ≡ self.directory + entry_size * self.count + trailer_size }
    {
        self.place(self.count) + Log::TRAILER
    }
}

// A block's start and length in bytes.
#[derive(Clone, Copy, Debug, PartialEq, Eq)]
pub struct Span {
    pub start: u32,
    pub length: u32,
}

// An entry: its id, and its block's start and length. It stands here and not in lib.rt, where its name would differ from `entry` in case alone.
#[derive(Clone, Copy, Debug, PartialEq, Eq)]
pub struct Entry {
    pub id: u32,
    pub start: u32,
    pub length: u32,
}

// The 32-bit number at byte o, low byte first.
#[tactic(auto, unfolding(crate::specs::Number::number))]
pub(crate) fn number(s: &[u8], o: usize) -> u32
    requires { o + 4 ≤ length s.now }
    ensures { result ≡ number s.now o }
{
    u32::from_le_bytes([s[o], s[o + 1], s[o + 2], s[o + 3]])
}
