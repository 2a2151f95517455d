// The draw log: the blocks of up to 64 replicates back to back, a directory of them, and a trailer that points back.
//
// test       the number of replicates, or the first cause of refusal    module refusal
// find       start and length of the block with this id
// block      that block itself, being that stretch of the caller's log
// entry      id, start and length of the entry with this number
// block_at   that entry's block itself
// Reader     a reader held open over one log                            module reader
// Log        the log's sizes, mark and limits                           module layout
//
// Every call tests the log. Bytes are read where they lie, never copied.
#![tactic(auto)]

ghost use Rattle.std.specs.Prelude.{◌≡◌, ◌+◌, ◌≤◌, length};
ghost use Rattle.drawlog.specs.Promise.{tested_of, tested_seen, found_of, found_seen, listed_of, listed_seen, Stretch, BlockOf, BlockAt};

mod directory; // directory.rt: a log's directory, once it is known to lie within the log
pub mod layout; // layout.rt: the log's own type
pub mod reader; // reader.rt: the reader held open
mod refusal; // refusal.rt: the causes of refusal, in their order

use basics::{Fault, Refusal};
pub use layout::{Entry, Log, Span};
use refusal::accepted;

// The log test: the number of replicates, or the first cause of refusal.
#[tactic(auto, using(crate::proofs::Outcomes::tested))]
pub fn test(log: &[u8]) -> Result<u32, Fault>
    ensures { tested_seen result ≡ tested_of log.now }
{
    Ok(accepted(log)?.count())
}

// The lookup by id: the log tests, then 18; the block's start and length.
#[tactic(auto, using(crate::proofs::Outcomes::found))]
pub fn find(log: &[u8], id: u32) -> Result<Span, Fault>
    ensures { found_seen result ≡ found_of log.now id }
{
    accepted(log)?
        .find(id)
        .ok_or(Fault::of_whole(Refusal::NoSuchId))
}

// The block itself, being that stretch of the log; an empty one where the lookup refuses, and no Option: `BlockOf` and the
// theorem `block_given` may not change.
#[tactic(auto, using(crate::proofs::Promise::found_within))]
pub fn block(log: &[u8], id: u32) -> &[u8]
    ensures { BlockOf log.entry id result }
{
    match find(log, id) {
        Ok(span) => stretch(log, span.start, span.length),
        Err(_) => stretch(log, 0, 0),
    }
}

// Entry k: its id, and its block's start and length. From the count on there is none.
#[tactic(auto, using(crate::proofs::Outcomes::listed))]
pub fn entry(log: &[u8], k: u32) -> Result<Option<Entry>, Fault>
    ensures { listed_seen result ≡ listed_of log.now k }
{
    Ok(accepted(log)?.entry(k))
}

// The block of entry k, being that stretch of the log; an empty one where there is none. It stays beside `block`:
// each has its promise, which may not change (`BlockOf`, `BlockAt`), and so has the empty stretch.
#[tactic(auto, using(crate::proofs::Promise::listed_within))]
pub fn block_at(log: &[u8], k: u32) -> &[u8]
    ensures { BlockAt log.entry k result }
{
    match entry(log, k) {
        Ok(Some(e)) => stretch(log, e.start, e.length),
        _ => stretch(log, 0, 0),
    }
}

// That stretch of the log.
fn stretch(log: &[u8], start: u32, size: u32) -> &[u8]
    requires { start + size ≤ length log.now }
    ensures { Stretch log.entry start size result }
{
    let from = start as usize;
    &log[from..from + size as usize]
}
