// What the rows are made of: numbers of a room, the verdict of a call, and the answer of a search.
use basics::Refusal;
use lines::Text;
use scans::Answer;

// Puts the first n numbers of a room, with a blank before each. A call answers n beside the room that it was lent, as the
// promises have it; so n stays beside the room here.
pub(crate) fn numbers(text: &mut Text<'_>, room: &[u32], n: usize) {
    for number in room.iter().take(n) {
        labelled(text, b" ", u64::from(*number));
    }
}

// Puts a word and a number.
pub(crate) fn labelled(text: &mut Text<'_>, label: &[u8], n: u64) {
    text.word(label);
    text.number(n);
}

// Puts what a call says: a refusal's number, or that nothing was refused.
pub(crate) fn verdict(text: &mut Text<'_>, refusal: Option<Refusal>) {
    match refusal {
        None => text.word(b"accepted"),
        Some(refusal) => labelled(text, b"refused ", u64::from(refusal.number())),
    }
}

// Puts the probe and the stream.
pub(crate) fn names(text: &mut Text<'_>, probe: &[u8], stream: &[u8]) {
    text.word(probe);
    text.word(b" in ");
    text.word(stream);
    text.word(b": ");
}

// Puts the answer of a search, with the positions that it wrote.
pub(crate) fn found(text: &mut Text<'_>, positions: &[u32], outcome: Result<Answer, Refusal>) {
    match outcome {
        Ok(answer) => {
            places(text, positions, answer);
            work(text, answer);
        }
        Err(refusal) => verdict(text, Some(refusal)),
    }
}

// Puts the positions that a search wrote.
pub(crate) fn places(text: &mut Text<'_>, positions: &[u32], answer: Answer) {
    text.word(b"positions");
    listed(text, positions, answer.written as usize);
}

// Puts the answer of a search that was lent no room for positions. It differs from `found` in what stands first; one function
// for both would take a flag, and be no plainer.
pub(crate) fn counted(text: &mut Text<'_>, outcome: Result<Answer, Refusal>) {
    match outcome {
        Ok(answer) => {
            labelled(text, b"occurrences ", answer.occurrences);
            work(text, answer);
        }
        Err(refusal) => verdict(text, Some(refusal)),
    }
}

// Puts the work of a search, and how close it came.
fn work(text: &mut Text<'_>, answer: Answer) {
    labelled(text, b", windows ", answer.windows);
    labelled(text, b", comparisons ", answer.comparisons);
    labelled(text, b", closest ", answer.closest);
    labelled(text, b" at ", answer.closest_at);
}

// Puts the first n numbers of a room, or says that there are none.
pub(crate) fn listed(text: &mut Text<'_>, room: &[u32], n: usize) {
    if n == 0 {
        text.word(b" none");
    }
    numbers(text, room, n);
}
