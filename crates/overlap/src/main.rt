// Prints the overlap listing of the draw log on standard input, with probes of 32 draws.
//
// A read error counts as the end of the input. The text is written by one call.
#![tactic(auto)]

ghost use Rattle.std.specs.Prelude.{◌≤◌, length};

use drawlog::Log;
use std::io::{Read, Stdin};

// One byte more than a log may have, so that a longer input is refused 11.
const INPUT: usize = Log::LONGEST + 1;

const TEXT: usize = listing::LONGEST;

fn main(rt: HostRuntime) {
    let mut input = [0u8; INPUT];
    let n = fill(rt.stdin(), &mut input);
    let mut text = [0u8; TEXT];
    let whole = listing::put(&input[..n], &mut text);
    // A write that fails is not told.
    let _ = rt.write_all(&text[..whole]);
}

// Reads until the room is full, the input ends or a read fails, and answers how many bytes were read to its front. std's
// `read_to_end` would need a heap.
fn fill(mut input: Stdin, room: &mut [u8]) -> usize
    ensures { result ≤ length room.old }
{
    let mut done = 0;
    while done < room.len() {
        match input.read(&mut room[done..]) {
            Ok(0) | Err(_) => return done,
            Ok(n) => done += n,
        }
    }
    done
}
