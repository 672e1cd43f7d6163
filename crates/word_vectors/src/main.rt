// Replays test vectors against the crate word: standard input has a line for each, and standard output gets the answers.
// It stops at a malformed line, at the end of the input, and where it cannot write.
#![tactic(auto)]

mod answers;
mod lines;

use lines::{LINE, ROOM, put_answer_to};
use vector_lines::replay;

fn main(rt: HostRuntime) {
    let mut lines = [0u8; 64 * LINE];
    let mut answers = [0u8; 64 * ROOM];
    let _ = replay(
        &mut rt.stdin(),
        &mut rt.stdout(),
        LINE,
        &mut lines,
        &mut answers,
        put_answer_to,
    );
}
