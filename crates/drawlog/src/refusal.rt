// Why a log is refused: the causes 10 to 17, each in one place, in document 01's order.
ghost use Rattle.std.specs.Prelude.{◌≡◌, ◌≤◌, ◌<◌, length, IfOk};
ghost use Rattle.basics.specs.Refusal.{refusal_seen, cause_seen};
ghost use Rattle.drawlog.specs.Log.{trailer_size, count, marked};
ghost use Rattle.drawlog.specs.Refusal.{log_cause, rises, due, entry_cause, cause_of};

use crate::directory::Directory;
use crate::layout::Log;
use basics::{Fault, Refusal};

// The directory of an accepted log; else the first cause to refuse it, with its entry number.
#[tactic(auto, using(crate::proofs::Outcomes::entry_fault, crate::proofs::Outcomes::end_fault, crate::proofs::Outcomes::no_fault))]
pub(crate) fn accepted(log: &[u8]) -> Result<Directory<'_>, Fault>
    ensures cause { cause_seen result ≡ cause_of log.now }
    ensures over { IfOk result (λ d. d.log ≡ log.entry) }
{
    let directory = framed(log).map_err(Fault::of_whole)?;
    let count = directory.count();
    for k in 0..count {
        if let Err(refusal) = directory.entry_cause(k) {
            return Err(Fault { refusal, entry: k });
        }
    }
    if directory.due(count) != directory.trailer.directory as usize {
        return Err(Fault {
            refusal: Refusal::NotJoined,
            entry: count,
        });
    }
    Ok(directory)
}

// The directory of a log with none of the causes 10 to 14; else the first of them.
#[tactic(auto, using(crate::proofs::Whole::whole))]
fn framed(log: &[u8]) -> Result<Directory<'_>, Refusal>
    ensures cause { refusal_seen result ≡ log_cause log.now }
    ensures over { IfOk result (λ d. d.log ≡ log.entry) }
{
    if log.len() < Log::TRAILER {
        return Err(Refusal::LogShort);
    }
    if Log::LONGEST < log.len() {
        return Err(Refusal::LogLong);
    }
    if !marked(log) {
        return Err(Refusal::NoMark);
    }
    let trailer = Log::of(log);
    if trailer.count < Log::FEWEST || Log::MOST < trailer.count {
        return Err(Refusal::BadCount);
    }
    if trailer.size() != log.len() {
        return Err(Refusal::BadSize);
    }
    Ok(Directory { log, trailer })
}

// Whether s ends in the mark.
#[tactic(auto, using(crate::proofs::Whole::ends_in_mark))]
fn marked(s: &[u8]) -> bool
    requires { trailer_size ≤ length s.now }
    ensures { result ≡ marked s.now }
{
    s.ends_with(&Log::MARK)
}

impl Directory<'_> {
    // The first cause of 15 to 17 of entry k.
    #[tactic(auto, using(crate::proofs::Entries::causes))]
    fn entry_cause(self, k: u32) -> Result<(), Refusal>
        requires { k < count self.log.now }
        ensures { refusal_seen result ≡ entry_cause self.entry.log.now k }
    {
        if !self.rises(k) {
            return Err(Refusal::NotRising);
        }
        if self.start(k) as usize != self.due(k) {
            return Err(Refusal::NotJoined);
        }
        if self.length(k) % Log::DRAW != 0 {
            return Err(Refusal::NotWhole);
        }
        Ok(())
    }

    // Whether the id of entry k is above the one before.
    #[tactic(auto, using(crate::proofs::Entries::rising))]
    fn rises(self, k: u32) -> bool
        requires { k < count self.log.now }
        ensures { result ≡ rises self.entry.log.now k }
    {
        k == 0 || self.id(k - 1) < self.id(k)
    }

    // Where block k has to start. A sum of two 32-bit numbers, taken in 64 bits.
    #[tactic(auto, using(crate::proofs::Entries::dues))]
    fn due(self, k: u32) -> usize
        requires { k ≤ count self.log.now }
        ensures { result ≡ due self.entry.log.now k }
    {
        if k == 0 {
            return 0;
        }
        self.start(k - 1) as usize + self.length(k - 1) as usize
    }
}
