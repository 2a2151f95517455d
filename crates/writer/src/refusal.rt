// What a log is made of, and why none is written: the causes 31, 13, 15, 17, 22, 11 and 23, each in one place, in the order in which they are tested.
ghost use Rattle.std.specs.Prelude.{◌≡◌, ◌≤◌, ◌<◌, length, sum, IfOk};
ghost use Rattle.basics.specs.Refusal.{refusal_seen, cause_seen};
ghost use Rattle.drawlog.specs.Log.{most};
ghost use Rattle.writer.specs.Refusal.{count_cause, rises, entry_cause, size_cause, cause_of};
ghost use Rattle.writer.specs.Inside.{entries_cause};

use basics::{Fault, Refusal};
use drawlog::Log;

// The replicates of which a log is made: their blocks, back to back, and of each its id and its length. There are no more than a log may have.
#[derive(Clone, Copy)]
pub(crate) struct Replicates<'a> {
    pub(crate) blocks: &'a [u8],
    pub(crate) ids: &'a [u32],
    pub(crate) lengths: &'a [u32],
    ghost paired: { length ids.now ≡ length lengths.now },
    ghost few: { length ids.now ≤ most },
}

impl<'a> Replicates<'a> {
    // These replicates, unless a cause refuses a log of them in a room of this many bytes.
    pub(crate) fn fitting(
        blocks: &'a [u8],
        ids: &'a [u32],
        lengths: &'a [u32],
        room: usize,
    ) -> Result<Replicates<'a>, Fault>
        ensures cause { cause_seen result ≡ cause_of blocks.now ids.now lengths.now room }
        ensures given { IfOk result (λ r. (r.blocks.now ≡ blocks.now) × (r.ids.now ≡ ids.now) × (r.lengths.now ≡ lengths.now)) }
    {
        let replicates = Replicates::paired(blocks, ids, lengths).map_err(Fault::of_whole)?;
        replicates.entries_cause()?;
        replicates.size_cause(room).map_err(Fault::of_whole)?;
        Ok(replicates)
    }

    // These replicates, unless 31 or 13 refuses them.
    #[tactic(auto, unfolding(crate::specs::Refusal::count_cause))]
    fn paired(
        blocks: &'a [u8],
        ids: &'a [u32],
        lengths: &'a [u32],
    ) -> Result<Replicates<'a>, Refusal>
        ensures cause { refusal_seen result ≡ count_cause ids.now lengths.now }
        ensures given { IfOk result (λ r. (r.blocks.now ≡ blocks.now) × (r.ids.now ≡ ids.now) × (r.lengths.now ≡ lengths.now)) }
    {
        let count = ids.len();
        if count != lengths.len() {
            return Err(Refusal::CountsDiffer);
        }
        if count < Log::FEWEST as usize || count > Log::MOST as usize {
            return Err(Refusal::BadCount);
        }
        Ok(Replicates {
            blocks,
            ids,
            lengths,
        })
    }

    // The first of them that has a cause of 15 and 17, and that cause. This and `entry_cause` go through lists; `drawlog` goes
    // through a log's bytes, and has 16 besides. One for both would need a trait, and be no plainer.
    #[tactic(auto, using(crate::specs::laws::Refusal::entries_refuse, crate::specs::laws::Refusal::entries_pass))]
    fn entries_cause(self) -> Result<(), Fault>
        ensures { cause_seen result ≡ entries_cause self.entry.ids.now self.entry.lengths.now }
    {
        for k in 0..self.ids.len() {
            if let Err(refusal) = self.entry_cause(k) {
                return Err(Fault {
                    refusal,
                    entry: k as u32,
                });
            }
        }
        Ok(())
    }

    // The first cause of 15 and 17 of replicate k.
    #[tactic(auto, unfolding(crate::specs::Refusal::entry_cause))]
    fn entry_cause(self, k: usize) -> Result<(), Refusal>
        requires { k < length self.ids.now }
        ensures { refusal_seen result ≡ entry_cause self.entry.ids.now self.entry.lengths.now k }
    {
        if !rises(self.ids, k) {
            return Err(Refusal::NotRising);
        }
        if self.lengths[k] % Log::DRAW != 0 {
            return Err(Refusal::NotWhole);
        }
        Ok(())
    }

    // The first cause of 22, 11 and 23.
    #[tactic(auto, using(crate::specs::laws::Made::sum_all), unfolding(crate::specs::Refusal::size_cause))]
    fn size_cause(self, room: usize) -> Result<(), Refusal>
        ensures { refusal_seen result ≡ size_cause self.entry.blocks.now self.entry.ids.now self.entry.lengths.now room }
    {
        let supplied = self.blocks.len();
        if supplied != sum(self.lengths) {
            return Err(Refusal::SumDiffers);
        }
        let size = supplied + Log::ENTRY * self.ids.len() + Log::TRAILER;
        if size > Log::LONGEST {
            return Err(Refusal::LogLong);
        }
        if room < size {
            return Err(Refusal::OutputShort);
        }
        Ok(())
    }
}

// Whether the id of entry k is above the one before. `drawlog` asks the same of a log's bytes; one test for lists and logs
// would need a trait of its own, and would be no plainer.
fn rises(ids: &[u32], k: usize) -> bool
    requires { k < length ids.now }
    ensures { result ≡ rises ids.now k }
{
    k == 0 || ids[k - 1] < ids[k]
}

// The sum of the lengths. As many as a log may have cannot wrap here.
fn sum(lengths: &[u32]) -> usize
    requires { length lengths.now ≤ most }
    ensures { result ≡ sum lengths.now }
{
    lengths.iter().map(|n| *n as usize).sum()
}
