// The overlap check: which replicates' blocks have, from one of their draws on, the first draws of another one's block.
//
// check      refuses, or searches for the probe of each owner in every other block
// accepted   the log's number of replicates, or the first cause of refusal
// Run        a check that nothing refuses, owner after owner                            module run
#![tactic(auto)]

ghost use Rattle.std.specs.Prelude.{◌≡◌, ◌≤◌, IfOk};
ghost use Rattle.basics.specs.Refusal.{refusal_seen, cause_seen};
ghost use Rattle.drawlog.specs.Log.{most};
ghost use Rattle.drawlog.specs.Promise.{tested_of};
ghost use Rattle.pairs.specs.Check.{probe_size};
ghost use Rattle.pairs.specs.Refusal.{longest, needed, own_cause, cause_of};
ghost use Rattle.pairs.specs.Promise.{Checking, checked_seen};

mod run; // run.rt: a check under way

use basics::{Fault, Refusal};
use drawlog::Log;
use run::Run;

// The fewest and the most draws of a probe.
pub const SHORTEST: u32 = 1;

pub const LONGEST: u32 = 512;

// An offset counts where a draw begins: at the multiples of its bytes.
pub const STEP: usize = Log::DRAW as usize;

// The numbers that a pair takes in the result room: owner, searched, first offset, occurrences.
pub const PAIR: usize = 4;

// What the check finds: the pairs that overlap, and the owners left unprobed.
#[derive(Clone, Copy, Debug, PartialEq, Eq)]
pub struct Checked {
    pub pairs: u32,
    pub unprobed: u32,
}

// Searches for the first p draws of each block in every other block of the log.
pub fn check(
    log: &[u8],
    p: u32,
    tables: &mut [u16],
    memory: &mut [u32],
    res: &mut [u32],
) -> Result<Checked, Fault>
    ensures { Checking log.now p tables.old memory.old res.old (checked_seen result)
        tables.new memory.new res.new }
{
    let count = accepted(log, p, tables.len(), memory.len(), res.len())?;
    let mut run = Run {
        log,
        count,
        p,
        tables,
        memory,
        res,
        pairs: 0,
        unprobed: 0,
    };
    run.owners();
    let found = Checked {
        pairs: run.pairs as u32,
        unprobed: run.unprobed,
    };
    let size = probe_size(p);
    tables[..2 * size].fill(0);
    memory[..size].fill(0);
    Ok(found)
}

// The log's number of replicates; else the first cause to refuse it, probes of p draws, a room of t numbers for both tables,
// a memory room of e entries, and a result room of n: that of the log test, or one of the check's own.
#[tactic(auto, using(crate::proofs::Outcomes::log_fault, crate::specs::laws::Check::tested_few))]
fn accepted(log: &[u8], p: u32, t: usize, e: usize, n: usize) -> Result<u32, Fault>
    ensures cause { cause_seen result ≡ cause_of (tested_of log.now) p t e n }
    ensures count { IfOk result (λ c. c ≡ (tested_of log.now).count) }
{
    let count = drawlog::test(log)?;
    own_cause(count, p, t, e, n).map_err(Fault::of_whole)?;
    Ok(count)
}

// The first of 20, 4 and 5 that holds.
#[tactic(auto, using(crate::specs::laws::Refusal::refuses_low, crate::specs::laws::Refusal::refuses_high, crate::specs::laws::Refusal::refuses_tables, crate::specs::laws::Refusal::refuses_memory, crate::specs::laws::Refusal::refuses_numbers, crate::specs::laws::Refusal::refuses_nothing))]
fn own_cause(count: u32, p: u32, t: usize, e: usize, n: usize) -> Result<(), Refusal>
    requires { count ≤ most }
    ensures { refusal_seen result ≡ own_cause p t e n count }
{
    if p < SHORTEST || LONGEST < p {
        return Err(Refusal::BadProbe);
    }
    let size = probe_size(p);
    if t < 2 * size || e < size {
        return Err(Refusal::RoomShort);
    }
    if n < needed(count) {
        return Err(Refusal::ResultShort);
    }
    Ok(())
}

// The bytes of a probe of p draws.
fn probe_size(p: u32) -> usize
    requires { p ≤ longest }
    ensures { result ≡ probe_size p }
{
    (Log::DRAW * p) as usize
}

// The numbers that the pairs of so many replicates take at most.
fn needed(count: u32) -> usize
    requires { count ≤ most }
    ensures { result ≡ needed count }
{
    let c = count as usize;
    PAIR * (c * c.saturating_sub(1))
}
