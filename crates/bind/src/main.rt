// bind LOG ID FILE ID FILE ..: binds the draws of some replicates, each with its id and in a file of its own, into one
// draw log, and says in a line how it went.
//
// main       writes the line
// message    what the line says
// run        the arguments' number
// bind       ids, then blocks, then the log
// take_ids   the ids, out of the arguments
// stored     the log made and stored, or why not
//            the blocks, out of the files       module files
//            the log's file                     module store
//
// Nothing is written before everything is read, so a FILE may be LOG itself.
#![tactic(auto)]

ghost use Rattle.std.specs.Prelude.{◌≡◌, ◌+◌, ◌≤◌, length};
ghost use Rattle.writer.specs.Made.{sum_to};
ghost use Rattle.binding.specs.Said.{name_of};
ghost use Rattle.binding.specs.Promise.{longest};
ghost use Rattle.bind.specs.declared.Failure.TheVariants.{Refused};
ghost use Rattle.bind.specs.Inside.{most, too_many, word_size, line_size};

mod files; // files.rt: reads the blocks
mod store; // store.rt: writes the log

use basics::Fault;
use binding::Message;
use drawlog::Log;
use std::env::{Env, FillError};

// The arguments: the log's name, and from the first id on an id and a file for each replicate.
const LOG: usize = 1;

const FIRST_ID: usize = 2;

const PAIR: usize = 2;

// The most bytes of an argument on Linux, so that each is read whole. Who is handed the word, but `argument`, asks for its size by a
// clause: the type of an array would take its length from here, whatever it is.
const WORD: usize = 131072;

// A line holds one argument at most.
const LINE: usize = WORD + binding::LONGEST;

// One replicate more than a log may have: enough for the writer to refuse their number.
const REPLICATES: usize = Log::MOST as usize + 1;

// The blocks' bytes: a whole draw more than a log may have. What does not fit makes the log too long, so reading ends
// there; and since blocks are whole draws, the last length that was read is one too.
const BLOCKS: usize = Log::LONGEST + Log::DRAW as usize;

const ROOM: usize = Log::LONGEST;

// Why nothing was bound. An argument is told by its number.
#[derive(Clone, Copy, Debug, PartialEq, Eq)]
enum Failure {
    Usage,
    BadId(usize),
    Unread(usize),
    Refused(Fault),
    Unwritten,
}

impl From<Fault> for Failure {
    ghost from_gives = { λ fault failure. failure ≡ Refused fault };

    fn from(fault: Fault) -> Failure {
        Failure::Refused(fault)
    }
}

// How many replicates were bound, and the bytes of the log.
#[derive(Clone, Copy, Debug, PartialEq, Eq)]
struct Bound {
    replicates: u32,
    bytes: u32,
}

fn main(rt: HostRuntime) {
    let mut word = [0u8; WORD];
    let mut line = [0u8; LINE];
    let outcome = run(rt, &mut word);
    let said = message(rt, outcome, &mut word).put(&mut line);
    // A write that fails is not told.
    let _ = rt.write_all(&line[..said]);
}

// What is said of the outcome; an argument that it names is put into the word once more. So no line is longer than
// `line_size`.
fn message<'a>(rt: HostRuntime, outcome: Result<Bound, Failure>, word: &'a mut [u8]) -> Message<'a>
    requires { length word.old ≡ word_size }
    ensures { longest + length (name_of result) ≤ line_size }
{
    match outcome {
        Ok(Bound { replicates, bytes }) => Message::Bound { replicates, bytes },
        Err(Failure::Usage) => Message::Usage,
        Err(Failure::BadId(i)) => Message::BadId(argument(rt, i, word)),
        Err(Failure::Unread(i)) => Message::Unread(argument(rt, i, word)),
        Err(Failure::Refused(fault)) => Message::Refused {
            refusal: fault.refusal.number(),
            entry: fault.entry,
        },
        Err(Failure::Unwritten) => Message::Unwritten(argument(rt, LOG, word)),
    }
}

// Binds what the arguments name.
fn run(rt: HostRuntime, word: &mut [u8]) -> Result<Bound, Failure>
    requires { length word.old ≡ word_size }
{
    let given = arguments(rt);
    if given < FIRST_ID || (given - FIRST_ID) % PAIR != 0 {
        return Err(Failure::Usage);
    }
    bind(rt, ((given - FIRST_ID) / PAIR).min(REPLICATES), word)
}

// How many arguments there are, with the program's name.
fn arguments(rt: HostRuntime) -> usize {
    for i in 0..usize::MAX {
        if let Err(FillError::NotPresent) = rt.arg(i, &mut []) {
            return i;
        }
    }
    usize::MAX
}

// Argument i, put to the front of the word; an empty text where there is none, or one that is too long.
fn argument(rt: HostRuntime, i: usize, word: &mut [u8]) -> &[u8]
    ensures { length result.now ≤ length word.old }
{
    match rt.arg(i, word) {
        Ok(n) => &word[..n],
        Err(_) => &word[..0],
    }
}

// Binds so many replicates. That they are at most `too_many` is a clause: two contracts say it of a number and two of the
// length of a slice, and a type for each would be no plainer.
fn bind(rt: HostRuntime, replicates: usize, word: &mut [u8]) -> Result<Bound, Failure>
    requires { (replicates ≤ too_many) × (length word.old ≡ word_size) }
{
    let mut ids = [0u32; REPLICATES];
    let mut lengths = [0u32; REPLICATES];
    let mut blocks = [0u8; BLOCKS];
    take_ids(rt, &mut ids[..replicates], word)?;
    let end = files::take(rt, &mut lengths[..files_of(replicates)], &mut blocks, word)?;
    stored(
        rt,
        &blocks[..end],
        &ids[..replicates],
        &lengths[..replicates],
        word,
    )
}

// How many files are read: none where the replicates are too many, since the writer refuses their number.
fn files_of(replicates: usize) -> usize
    requires { replicates ≤ too_many }
    ensures upper_bound { result ≤ most }
    ensures within { result ≤ replicates }
    ensures value { replicates ≤ most → result ≡ replicates }
{
    if replicates < REPLICATES {
        replicates
    } else {
        0
    }
}

// Reads an id for each entry of the room.
fn take_ids(rt: HostRuntime, ids: &mut [u32], word: &mut [u8]) -> Result<(), Failure>
    requires { (length ids.old ≤ too_many) × (length word.old ≡ word_size) }
{
    for k in 0..ids.len() {
        let i = FIRST_ID + PAIR * k;
        ids[k] = binding::id_of(argument(rt, i, word)).ok_or(Failure::BadId(i))?;
    }
    Ok(())
}

// Makes the log and stores it.
fn stored(
    rt: HostRuntime,
    blocks: &[u8],
    ids: &[u32],
    lengths: &[u32],
    word: &mut [u8],
) -> Result<Bound, Failure>
    requires few { (length ids.now ≤ too_many) × (length word.old ≡ word_size) }
    requires whole { (length ids.now ≡ length lengths.now) × (length ids.now ≤ most → sum_to lengths.now (length ids.now) ≡ length blocks.now) }
{
    let mut room = [0u8; ROOM];
    let bytes = writer::write(blocks, ids, lengths, &mut room)?;
    store::replace(rt, argument(rt, LOG, word), &room[..bytes as usize]).map_err(
        |_| Failure::Unwritten,
    )?;
    Ok(Bound {
        replicates: ids.len() as u32,
        bytes,
    })
}
