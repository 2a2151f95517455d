// The reader held open over one log. Each function over it is thin: it calls a function over the plain slice.
ghost use Rattle.std.specs.Prelude.{◌≡◌};
ghost use Rattle.basics.specs.Refusal.{cause_seen};
ghost use Rattle.drawlog.specs.Promise.{tested_of};
ghost use Rattle.drawlog.specs.Reader.{reader_seen, opened, carried, left, Handed, skipped};

use crate::{block_at, test};
use basics::Fault;

// The log, the number of the next entry, and the outcome of the log test. No other crate can make one but by `open`.
#[derive(Clone, Copy)]
pub struct Reader<'a> {
    log: &'a [u8],
    next: u32,
    outcome: Result<(), Fault>,
}

impl<'a> Reader<'a> {
    // A reader over the log, made by the log test. Over a refused log no block is left from the start.
    pub fn open(log: &'a [u8]) -> Reader<'a>
        ensures { reader_seen result ≡ opened log.entry }
    {
        Reader {
            log,
            next: 0,
            outcome: test(log).map(|_| ()),
        }
    }

    // The refusal that it carries, with its entry number.
    pub fn refused(self) -> Result<(), Fault>
        ensures { cause_seen result ≡ carried (reader_seen self.entry) }
    {
        self.outcome
    }

    // Whether a block is left: what tells an empty block from none. No Option in place of this and `block`: `left`, `Handed` and
    // the theorems over them, `stays_none` and `reads_all`, may not change.
    pub fn left(self) -> bool
        ensures { result ≡ left (reader_seen self.entry) }
    {
        self.next < count(self.log)
    }

    // The next block, being that stretch of the log; an empty one where none is left, as `Handed` has it.
    pub fn block(self) -> &'a [u8]
        ensures { Handed (reader_seen self.entry) result }
    {
        block_at(self.log, self.next)
    }

    // The reader that many blocks on: one after each block that was read. Past the last it stays.
    pub fn skip(self, blocks: u32) -> Reader<'a>
        ensures { reader_seen result ≡ skipped (reader_seen self.entry) blocks }
    {
        let on = self.next.saturating_add(blocks);
        Reader {
            next: on.min(count(self.log)).max(self.next),
            ..self
        }
    }
}

// The block that a reader over the log hands out after k others. Its parameters are plain, so its callers need to know nothing of the struct.
pub fn read(log: &[u8], k: u32) -> &[u8]
    ensures { Handed (skipped (opened log.entry) k) result }
{
    Reader::open(log).skip(k).block()
}

// How many blocks the log has; none where it is refused.
fn count(log: &[u8]) -> u32
    ensures { result ≡ (tested_of log.now).count }
{
    test(log).unwrap_or(0)
}
