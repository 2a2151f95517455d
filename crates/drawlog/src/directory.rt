// A log's directory, once it is known to lie within the log, and how its entries are read.
ghost use Rattle.std.specs.Prelude.{◌≡◌, ◌≤◌, ◌<◌, MatchOption};
ghost use Rattle.drawlog.specs.Log.{count, id_at, start_at, length_at};
ghost use Rattle.drawlog.specs.Promise.{seek};
ghost use Rattle.drawlog.specs.laws.Log.{Reaches};

use crate::layout::{Entry, Log, Span, number};

// The log's bytes and what their trailer says. All entries that it counts lie within the log.
#[derive(Clone, Copy)]
pub(crate) struct Directory<'a> {
    pub(crate) log: &'a [u8],
    pub(crate) trailer: Log,
    ghost reaches: { Reaches log.now trailer trailer.count },
}

impl Directory<'_> {
    // How many entries it has.
    pub(crate) fn count(self) -> u32
        ensures { result ≡ count self.entry.log.now }
    {
        self.trailer.count
    }

    // The three numbers of entry k have a method each, as they have a definition each; one that took the field's place would
    // be no plainer. That k is below the count is a clause: it speaks of k and not of the value, and a type for such a k would
    // be no plainer.
    // The id of entry k.
    #[tactic(auto, using(crate::proofs::Entries::stands))]
    pub(crate) fn id(self, k: u32) -> u32
        requires { k < count self.log.now }
        ensures { result ≡ id_at self.entry.log.now k }
    {
        number(self.log, self.trailer.place(k))
    }

    // Where the block of entry k starts.
    #[tactic(auto, using(crate::proofs::Entries::stands))]
    pub(crate) fn start(self, k: u32) -> u32
        requires { k < count self.log.now }
        ensures { result ≡ start_at self.entry.log.now k }
    {
        number(self.log, self.trailer.place(k) + Log::START_AT)
    }

    // How many bytes the block of entry k has.
    #[tactic(auto, using(crate::proofs::Entries::stands))]
    pub(crate) fn length(self, k: u32) -> u32
        requires { k < count self.log.now }
        ensures { result ≡ length_at self.entry.log.now k }
    {
        number(self.log, self.trailer.place(k) + Log::LENGTH_AT)
    }

    // Entry k, if there is one.
    pub(crate) fn entry(self, k: u32) -> Option<Entry>
        ensures { let s = self.entry.log.now in MatchOption result (count s ≤ k) (λ e. (k < count s) × (e ≡ record { id = id_at s k; start = start_at s k; length = length_at s k })) }
    {
        if self.count() <= k {
            return None;
        }
        Some(Entry {
            id: self.id(k),
            start: self.start(k),
            length: self.length(k),
        })
    }

    // The block of the first entry with this id, if there is one.
    pub(crate) fn find(self, id: u32) -> Option<Span>
        ensures { let s = self.entry.log.now in MatchOption result (count s ≤ seek s id) (λ b. (seek s id < count s) × (b ≡ record { start = start_at s (seek s id); length = length_at s (seek s id) })) }
    {
        let k = self.seek(id)?;
        Some(Span {
            start: self.start(k),
            length: self.length(k),
        })
    }

    // The first entry with this id, if there is one.
    fn seek(self, id: u32) -> Option<u32>
        ensures { let s = self.entry.log.now in MatchOption result (count s ≤ seek s id) (λ k. (k ≡ seek s id) × (k < count s)) }
    {
        (0..self.count()).find(|k| self.id(*k) == id)
    }
}
