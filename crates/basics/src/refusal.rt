// Why a call refuses: the refusals of document 01's table and of the requests, each with its number there.
ghost use Rattle.std.specs.Prelude.{◌≡◌};
ghost use Rattle.basics.specs.Refusal.{number_of};

#[derive(Clone, Copy, Debug, PartialEq, Eq)]
pub enum Refusal {
    ProbeEmpty = 1,
    ProbeLong = 2,
    StreamLarge = 3,
    RoomShort = 4,
    ResultShort = 5,
    LogShort = 10,
    LogLong = 11,
    NoMark = 12,
    BadCount = 13,
    BadSize = 14,
    NotRising = 15,
    NotJoined = 16,
    NotWhole = 17,
    NoSuchId = 18,
    BadProbe = 20,
    SumDiffers = 22,
    OutputShort = 23,
    CountsDiffer = 31,
}

impl Refusal {
    // Its number; 0 is none's.
    pub fn number(self) -> u32
        ensures { result ≡ number_of self }
    {
        self as u32
    }
}

// A refusal, and the number of the log's entry at fault; 0 where no entry is.
#[derive(Clone, Copy, Debug, PartialEq, Eq)]
pub struct Fault {
    pub refusal: Refusal,
    pub entry: u32,
}

impl Fault {
    // The refusal of a whole log or call, by the fault of no entry.
    pub fn of_whole(refusal: Refusal) -> Fault
        ensures { result ≡ record { refusal = refusal; entry = 0 } }
    {
        Fault { refusal, entry: 0 }
    }
}
