// The log test, the lookup and the writer, for C.
ghost use Rattle.std.specs.Prelude.{◌≡◌};
ghost use Rattle.drawlog.specs.Promise.{tested_of, found_of};
ghost use Rattle.writer.specs.Promise.{Writing};
ghost use Rattle.capi.specs.Seen.{tested_seen, found_seen, written_seen, FromTested, FromFound, FromWritten};

use basics::Fault;
use drawlog::Span;

// nahui_tested. The refusal is a number, 0 for none: the C interface.
#[repr(C)]
#[derive(Drop)]
pub struct Tested {
    pub refusal: u32,
    pub entry: u32,
    pub count: u32,
}

impl From<Result<u32, Fault>> for Tested {
    ghost from_gives = { FromTested };

    fn from(outcome: Result<u32, Fault>) -> Tested {
        match outcome {
            Ok(count) => Tested {
                refusal: 0,
                entry: 0,
                count,
            },
            Err(fault) => Tested {
                refusal: fault.refusal.number(),
                entry: fault.entry,
                count: 0,
            },
        }
    }
}

// nahui_found. The refusal is a number, 0 for none: the C interface.
#[repr(C)]
#[derive(Drop)]
pub struct Found {
    pub refusal: u32,
    pub entry: u32,
    pub start: u32,
    pub length: u32,
}

impl From<Result<Span, Fault>> for Found {
    ghost from_gives = { FromFound };

    fn from(outcome: Result<Span, Fault>) -> Found {
        match outcome {
            Ok(span) => Found {
                refusal: 0,
                entry: 0,
                start: span.start,
                length: span.length,
            },
            Err(fault) => Found {
                refusal: fault.refusal.number(),
                entry: fault.entry,
                start: 0,
                length: 0,
            },
        }
    }
}

// nahui_written. The refusal is a number, 0 for none: the C interface.
#[repr(C)]
#[derive(Drop)]
pub struct Written {
    pub refusal: u32,
    pub entry: u32,
    pub length: u32,
}

impl From<Result<u32, Fault>> for Written {
    ghost from_gives = { FromWritten };

    fn from(outcome: Result<u32, Fault>) -> Written {
        match outcome {
            Ok(length) => Written {
                refusal: 0,
                entry: 0,
                length,
            },
            Err(fault) => Written {
                refusal: fault.refusal.number(),
                entry: fault.entry,
                length: 0,
            },
        }
    }
}

#[unsafe(no_mangle)]
pub extern "C" fn nahui_log_test(log: &[u8]) -> Tested
    ensures { tested_seen result ≡ tested_of log.now }
{
    Tested::from(drawlog::test(log))
}

#[unsafe(no_mangle)]
pub extern "C" fn nahui_log_find(log: &[u8], id: u32) -> Found
    ensures { found_seen result ≡ found_of log.now id }
{
    Found::from(drawlog::find(log, id))
}

#[unsafe(no_mangle)]
pub extern "C" fn nahui_log_write(
    blocks: &[u8],
    ids: &[u32],
    lengths: &[u32],
    room: &mut [u8],
) -> Written
    ensures { Writing blocks.now ids.now lengths.now room.old (written_seen result) room.new }
{
    Written::from(writer::write(blocks, ids, lengths, room))
}
