// A check under way, once nothing refuses it: owner after owner, and for each probe block after block.
//
// owners   one owner after another
// owner    one owner: unprobed, or its probe searched for in one block after another
// pair     one block: it is searched, and makes a pair or none
// id       the id of an entry
// search   one search: a stretch of the log is handed to the scan, uncopied
// put      the four numbers of a pair
//
// Work rooms hold anything between two searches; what lies in them beyond what a search of such a probe takes is never
// touched.
ghost use Rattle.std.specs.Prelude.{◌≡◌, ◌*◌, ◌≤◌, length};
ghost use Rattle.drawlog.specs.Promise.{tested_of};
ghost use Rattle.pairs.specs.Check.{probe_size};
ghost use Rattle.pairs.specs.Refusal.{longest};

use crate::{PAIR, STEP};
use scans::Tally;

// The log, its number of replicates and the draws of a probe; the rooms lent; and the pairs found and the owners left
// unprobed so far. The result room is the caller's, of any length, so the pairs that lie in it are counted beside it.
#[derive(Drop)]
pub(crate) struct Run<'a> {
    pub(crate) log: &'a [u8],
    pub(crate) count: u32,
    pub(crate) p: u32,
    pub(crate) tables: &'a mut [u16],
    pub(crate) memory: &'a mut [u32],
    pub(crate) res: &'a mut [u32],
    pub(crate) pairs: usize,
    pub(crate) unprobed: u32,
    ghost counted: { count ≡ (tested_of log.now).count },
    ghost some: { 1 ≤ p },
    ghost short: { p ≤ longest },
    // the work rooms suffice for every probe
    ghost for_tables: { 2 * probe_size p ≤ length tables.now },
    ghost for_memory: { probe_size p ≤ length memory.now },
    // the pairs found lie in the result room
    ghost within: { 4 * pairs ≤ length res.now },
}

impl Run<'_> {
    ghost use Rattle.std.specs.Prelude.{◌+◌, ◌-◌, ◌<◌, IfSome, cond, [], ◌∷◌};
    ghost use Rattle.drawlog.specs.Log.{id_at};
    ghost use Rattle.scans.specs.Promise.{tally_seen};
    ghost use Rattle.pairs.specs.Check.{probed, pair_with, pairs_with, pairs_of, pairs, unprobed};
    ghost use Rattle.pairs.specs.Refusal.{needed};
    ghost use Rattle.pairs.specs.Promise.{step};
    ghost use Rattle.pairs.specs.Inside.{Onward, Sought};

    // Searches for the probe of each owner.
    pub(crate) fn owners(&mut self)
        requires room { 4 * self.old.pairs + needed self.old.count ≤ length self.old.res.now }
        requires unprobed_none { self.old.unprobed ≡ 0 }
        ensures { Onward (pairs step self.old.p self.old.log.now self.old.count) (unprobed self.old.p self.old.log.now self.old.count) self.old self.new }
    {
        for a in 0..self.count {
            self.owner(a);
        }
    }

    // One owner: it is unprobed, or its probe is searched for in the others' blocks.
    fn owner(&mut self, a: u32)
        requires there { a < self.old.count }
        requires few { self.old.unprobed ≤ a }
        requires room { 4 * (self.old.pairs + (self.old.count - 1)) ≤ length self.old.res.now }
        ensures { Onward (pairs_of step self.old.p self.old.log.now a) (cond (probed self.old.p self.old.log.now a) 0 1) self.old self.new }
    {
        let size = crate::probe_size(self.p);
        let block = drawlog::block_at(self.log, a);
        if block.len() < size {
            self.unprobed += 1;
            return;
        }
        let probe = &block[..size];
        // Told once, since each call that reads the directory tests the log.
        let id = self.id(a);
        for b in 0..self.count {
            self.pair(a, id, b, probe);
        }
    }

    // Puts the pair of owner a, with that id, and block b, if they overlap. No owner is paired with itself.
    fn pair(&mut self, a: u32, id: u32, b: u32, probe: &[u8])
        requires there { (a < self.old.count) × (b < self.old.count) }
        requires named { id ≡ id_at self.old.log.now a }
        requires sized { length probe.now ≡ probe_size self.old.p }
        requires room { (a ≡ b → ⊥) → 4 * (self.old.pairs + 1) ≤ length self.old.res.now }
        ensures { Onward (pair_with step probe.now self.old.log.now a b) 0 self.old self.new }
    {
        if a == b {
            return;
        }
        if let Some(hits) = self.search(b, probe) {
            let other = self.id(b);
            self.put(id, other, hits.first as u32, hits.number as u32);
        }
    }

    // The id of entry k.
    #[tactic(auto, using(crate::proofs::Outcomes::entry_ok, crate::proofs::Outcomes::entry_some, crate::proofs::Outcomes::entry_id))]
    fn id(&self, k: u32) -> u32
        requires { k < self.now.count }
        ensures { result ≡ id_at self.now.log.now k }
    {
        drawlog::entry(self.log, k).unwrap().unwrap().id
    }

    // Searches block b, a stretch of the log, for the probe: how often it occurs where a draw begins, and where first.
    fn search(&mut self, b: u32, probe: &[u8]) -> Option<Tally>
        requires there { b < self.old.count }
        requires sized { length probe.now ≡ probe_size self.old.p }
        ensures told { Sought step probe.now self.old.log.now b self.old.tables.now self.old.memory.now (tally_seen (Ok result))
            self.new.tables.now self.new.memory.now }
        ensures some { IfSome result (λ t. 0 < t.number) }
        ensures went { Onward [] 0 self.old self.new }
    {
        let stream = drawlog::block_at(self.log, b);
        scans::aligned(probe, stream, self.tables, self.memory, STEP).unwrap()
    }

    // Puts the numbers of a pair behind those of the pairs found before.
    fn put(&mut self, owner: u32, other: u32, first: u32, number: u32)
        requires { 4 * (self.old.pairs + 1) ≤ length self.old.res.now }
        ensures { Onward (record { owner = owner; other = other; first = first; number = number } ∷ []) 0 self.old self.new }
    {
        let at = PAIR * self.pairs;
        self.res[at..at + PAIR].copy_from_slice(&[owner, other, first, number]);
        self.pairs += 1;
    }
}
