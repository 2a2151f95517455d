// The blocks, out of the files: each file's bytes behind those of the file before it.
ghost use Rattle.std.specs.Prelude.{◌≡◌, ◌≤◌, length, IfOk, IfSome};
ghost use Rattle.writer.specs.Made.{sum_to};
ghost use Rattle.bind.specs.Inside.{most, word_size, blocks_size};

use crate::{Failure, PAIR, argument};
use std::fs::File;
use std::io::Read;

// The arguments: the first file; an id stands between two of them.
const FIRST_FILE: usize = 3;

// Reads a file for each entry of the room of lengths, one behind the other, and puts their lengths there; answers how far the
// blocks go. Where the blocks fill their room, reading ends: that file's length is what was read of it, and the files behind
// it count 0.
pub(crate) fn take(
    rt: HostRuntime,
    lengths: &mut [u32],
    blocks: &mut [u8],
    word: &mut [u8],
) -> Result<usize, Failure>
    requires { (length lengths.old ≤ most) × (length blocks.old ≡ blocks_size) × (length word.old ≡ word_size) }
    ensures { IfOk result (λ end. (end ≤ blocks_size) × (sum_to lengths.new (length lengths.new) ≡ end)) }
{
    let mut end = 0;
    for k in 0..lengths.len() {
        let i = FIRST_FILE + PAIR * k;
        let read = file(rt, argument(rt, i, word), &mut blocks[end..]).ok_or(Failure::Unread(i))?;
        lengths[k] = read as u32;
        end += read;
    }
    Ok(end)
}

// Reads one file to the front of the room, and answers how many bytes. Where the room is empty, the file is not even opened.
// A name that is no UTF-8 text is none that the library takes.
fn file(rt: HostRuntime, path: &[u8], room: &mut [u8]) -> Option<usize>
    ensures { IfSome result (λ n. n ≤ length room.old) }
{
    if room.is_empty() {
        return Some(0);
    }
    let name = str::from_utf8(path).ok()?;
    let opened = File::open(&rt, name).ok()?;
    whole(opened, room)
}

// Reads until the file ends or the room is full. std's `read_to_end` would need a heap. `overlap` reads its input in the same
// way but for a read that fails; one function for both would be no plainer.
fn whole(mut opened: File, room: &mut [u8]) -> Option<usize>
    ensures { IfSome result (λ n. n ≤ length room.old) }
{
    let mut done = 0;
    while done < room.len() {
        match opened.read(&mut room[done..]).ok()? {
            0 => return Some(done),
            n => done += n,
        }
    }
    Some(done)
}
