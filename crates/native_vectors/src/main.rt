// Replays calls on one region: standard input has a line for each, and standard output gets the answers.
// It stops at a malformed line, at the end of the input, and where it cannot write.
#![tactic(auto)]

mod answers;
mod calls;
mod guards;
mod lines;
mod region;
mod retains;

use answers::{ROOM, put_answer_to};
use lines::LINE;
use region::WORDS;
use vector_lines::replay_in_room;

// Each line is answered before the next one is read: who writes it may wait for its answer.
fn main(rt: HostRuntime) {
    let mut words = [0u64; WORDS];
    let mut line = [0u8; LINE];
    let mut answer = [0u8; ROOM];
    let _ = replay_in_room(
        &mut rt.stdin(),
        &mut rt.stdout(),
        LINE,
        &mut line,
        ROOM,
        &mut answer,
        |line, out| put_answer_to(line, &mut words, out),
    );
}
