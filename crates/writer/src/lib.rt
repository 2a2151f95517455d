// Makes a draw log of the replicates' draws: their blocks back to back, a directory of them, and a trailer that points back.
//
// write      puts the log into a lent room and answers its length, or why it cannot
//            the causes of refusal, in their order     module refusal
//            the log's parts, one after another        module put
//
// Sizes, mark and limits are those of `drawlog::Log`, by which logs are read.
#![tactic(auto)]

ghost use Rattle.writer.specs.Promise.{written_seen, Writing};

mod put; // put.rt: the parts of a log
mod refusal; // refusal.rt: what a log is made of, and the causes of refusal

use basics::Fault;
use refusal::Replicates;

// Writes the log of these blocks, which stand back to back, with these ids and lengths to the front of the room. Answers its length.
// Ids and lengths are two slices and not one of pairs, since C lends them so.
pub fn write(blocks: &[u8], ids: &[u32], lengths: &[u32], room: &mut [u8]) -> Result<u32, Fault>
    ensures { Writing blocks.now ids.now lengths.now room.old (written_seen result) room.new }
{
    let replicates = Replicates::fitting(blocks, ids, lengths, room.len())?;
    let size = put::log(room, replicates);
    Ok(size as u32)
}
