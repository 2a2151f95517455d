// The listing of a draw log: what the overlap check with probes of 32 draws finds, as text.
//
// put         the whole listing, into a buffer
// listed      of a refused log one line, else what follows
// Found       what the check found in an accepted log:
//   accepted  head, owners, end
//   owners    one owner after another
//   owner     one owner: the unprobed line, or its pairs
//   owned     the lines of one owner's pairs, which stand together in the check's result
//   pair_line one of them
// head, unprobed_line, total_line, refused_line    one line each
#![tactic(auto)]

ghost use Rattle.std.specs.Prelude.{◌≡◌, ◌+◌, ◌*◌, ◌-◌, ◌≤◌, ◌<◌, IfOk, IfErr, length};
ghost use Rattle.basics.specs.Refusal.{number_of, fault_seen};
ghost use Rattle.drawlog.specs.Log.{count};
ghost use Rattle.drawlog.specs.Refusal.{cause_of};
ghost use Rattle.lines.specs.Promise.{Puts};
ghost use Rattle.pairs.specs.Check.{pairs, unprobed};
ghost use Rattle.pairs.specs.Promise.{step};
ghost use Rattle.listing.specs.Listing.{draws, head_line, pair_line, pair_lines, unprobed_line, total_line, refused_line, owner_text, owners_text, accepted_text, listing};
ghost use Rattle.listing.specs.Inside.{pair_in, owned_from, Holds};
ghost use Rattle.listing.specs.Promise.{longest, Written};

use basics::Fault;
use drawlog::Log;
use lines::Text;

// The draws of a probe, and its bytes.
pub const DRAWS: u32 = 32;

pub const PROBE: u32 = Log::DRAW * DRAWS;

// No listing has more bytes: a buffer of this many holds each.
pub const LONGEST: usize = 200000;

// The numbers of a pair in the check's result.
const PAIR: usize = pairs::PAIR;

// The numbers of the rooms that the check takes: for the memory one for each byte of a probe, for both tables two, and for
// the result four for each pair of 64 replicates.
const MEMORY: usize = 256;

const TABLES: usize = 2 * MEMORY;

const RESULT: usize = 16128;

// What the check found in an accepted log: so many pairs, at the front of the result room, and so many unprobed owners. The
// room and the number of pairs in it stand side by side, as the check's promise has them.
#[derive(Drop)]
struct Found<'a> {
    log: &'a [u8],
    replicates: u32,
    result: &'a [u32],
    total: u32,
    missed: u32,
    ghost holds: { Holds log.now replicates result.now total },
    ghost room: { 4 * total ≤ length result.now },
    ghost counts: { (replicates ≡ count log.now) × (missed ≡ unprobed draws log.now replicates) },
}

// Puts the listing of a log into the buffer, and answers the length of the whole.
pub fn put(log: &[u8], out: &mut [u8]) -> usize
    ensures text { Written log.now out.old result out.new }
    ensures short { result ≤ longest }
{
    let mut text = Text::new(out);
    listed(log, &mut text);
    text.place()
}

// The listing of a log.
fn listed(log: &[u8], text: &mut Text<'_>)
    ensures { Puts text.old (listing log.now) text.new }
{
    match search(log, &mut [0; RESULT]) {
        Ok(found) => found.accepted(text),
        Err(fault) => refused_line(fault, text),
    }
}

// What the check finds, with a result room that is large enough for every log.
fn search<'a>(log: &'a [u8], room: &'a mut [u32; RESULT]) -> Result<Found<'a>, Fault>
    ensures found { IfOk result (λ f. (f.log.now ≡ log.now) × ((cause_of log.now).refusal ≡ 0)) }
    ensures refused { IfErr result (λ f. fault_seen f ≡ cause_of log.now) }
{
    let mut tables = [0; TABLES];
    let mut memory = [0; MEMORY];
    let checked = pairs::check(log, DRAWS, &mut tables, &mut memory, room)?;
    let replicates = drawlog::test(log)?;
    Ok(Found {
        log,
        replicates,
        result: room,
        total: checked.pairs,
        missed: checked.unprobed,
    })
}

impl Found<'_> {
    // The listing of the log.
    fn accepted(&self, text: &mut Text<'_>)
        ensures { Puts text.old (accepted_text self.now.log.now) text.new }
    {
        head(self.replicates, text);
        self.owners(text);
        total_line(self.total, self.missed, text);
    }

    // All owners, one after another.
    fn owners(&self, text: &mut Text<'_>)
        ensures { Puts text.old (owners_text self.now.log.now self.now.replicates) text.new }
    {
        let mut told = 0;
        for a in 0..self.replicates {
            told = self.owner(a, told, text);
        }
    }

    // One owner at its turn, after so many pairs: it is unprobed, or its pairs are listed. Answers the pairs listed so far.
    fn owner(&self, a: u32, told: u32, text: &mut Text<'_>) -> u32
        requires { (a < self.now.replicates) × (told ≡ length (pairs step draws self.now.log.now a)) }
        ensures puts { Puts text.old (owner_text self.now.log.now a) text.new }
        ensures told { result ≡ length (pairs step draws self.now.log.now (a + 1)) }
    {
        // The log is accepted, and has an entry for each of its replicates.
        let entry = drawlog::entry(self.log, a).unwrap().unwrap();
        if entry.length < PROBE {
            unprobed_line(entry.id, text);
            return told;
        }
        self.owned(entry.id, told, text)
    }

    // The lines of the pairs of the owner with this id: from pair `told` on they stand together.
    fn owned(&self, id: u32, told: u32, text: &mut Text<'_>) -> u32
        requires { told ≤ self.now.total }
        ensures puts { Puts text.old (pair_lines (owned_from id self.now.result.now (self.now.total - told) told)) text.new }
        ensures told { result ≡ told + length (owned_from id self.now.result.now (self.now.total - told) told) }
    {
        for k in told..self.total {
            if self.result[PAIR * k as usize] != id {
                return k;
            }
            self.pair_line(k, text);
        }
        self.total
    }

    // The line of pair k.
    fn pair_line(&self, k: u32, text: &mut Text<'_>)
        requires { k < self.now.total }
        ensures { Puts text.old (pair_line (pair_in self.now.result.now k)) text.new }
    {
        let i = PAIR * k as usize;
        text.figure(self.result[i]);
        text.byte(lines::BLANK);
        text.figure(self.result[i + 1]);
        text.byte(lines::BLANK);
        text.figure(self.result[i + 2]);
        text.byte(lines::BLANK);
        text.figure(self.result[i + 3]);
        text.byte(lines::LINE_END);
    }
}

// The head: replicates, and draws of a probe.
fn head(replicates: u32, text: &mut Text<'_>)
    ensures { Puts text.old (head_line replicates) text.new }
{
    text.word(b"replicates ");
    text.figure(replicates);
    text.word(b" probe ");
    text.figure(DRAWS);
    text.byte(lines::LINE_END);
}

// An owner that is unprobed.
fn unprobed_line(id: u32, text: &mut Text<'_>)
    ensures { Puts text.old (unprobed_line id) text.new }
{
    text.word(b"unprobed ");
    text.figure(id);
    text.byte(lines::LINE_END);
}

// The end: pairs, and unprobed owners. This line and the next have a definition each in `specs/Listing`; one function for both
// would be no plainer.
fn total_line(total: u32, missed: u32, text: &mut Text<'_>)
    ensures { Puts text.old (total_line total missed) text.new }
{
    text.numbers_line(b"total ", total, missed);
}

// The one line of a refused log: number and entry.
fn refused_line(fault: Fault, text: &mut Text<'_>)
    ensures { Puts text.old (refused_line (number_of fault.refusal) fault.entry) text.new }
{
    text.numbers_line(b"refused ", fault.refusal.number(), fault.entry);
}
