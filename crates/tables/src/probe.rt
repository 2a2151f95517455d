// What a probe is: the one place that refuses bytes which are none, and rooms that are too short for its tables.
ghost use Rattle.std.specs.Prelude.{◌≡◌, ◌≤◌, length, IfOk};
ghost use Rattle.basics.specs.Refusal.{refusal_seen};
ghost use Rattle.tables.specs.Refusal.{longest, refusal_of};

use crate::LONGEST;
use basics::Refusal;

// The probe x of m bytes: at least one, and at most LONGEST.
#[derive(Clone, Copy)]
pub(crate) struct Probe<'a> {
    pub bytes: &'a [u8],
    ghost some: { 1 ≤ length bytes.now },
    ghost short: { length bytes.now ≤ longest },
}

impl<'a> Probe<'a> {
    // Refuses bytes that are no probe.
    pub(crate) fn of(bytes: &'a [u8]) -> Result<Probe<'a>, Refusal>
        ensures refusal { refusal_seen result ≡ refusal_of 0 (length bytes.now) 0 }
        ensures probe { IfOk result (λ x. x.bytes.now ≡ bytes.now) }
    {
        if bytes.is_empty() {
            return Err(Refusal::ProbeEmpty);
        }
        if LONGEST < bytes.len() {
            return Err(Refusal::ProbeLong);
        }
        Ok(Probe { bytes })
    }

    // Refuses a room of n numbers where a table that takes k for each byte does not lie within it.
    pub(crate) fn within(self, k: usize, n: usize) -> Result<(), Refusal>
        requires { k ≤ 2 }
        ensures { refusal_seen result ≡ refusal_of k (length self.entry.bytes.now) n }
    {
        let needed = k * self.len();
        if n < needed {
            return Err(Refusal::RoomShort);
        }
        Ok(())
    }

    // m
    pub(crate) fn len(self) -> usize
        ensures { result ≡ length self.entry.bytes.now }
    {
        self.bytes.len()
    }
}
