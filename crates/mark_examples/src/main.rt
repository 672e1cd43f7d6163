// Two examples of marks, from the empty graph, the answers one to a line: a guard decides in its arm and no longer after the return; an
// alias to a Refine that stood before the mark is taken back.
#![tactic(auto)]

use answer::Refusal;
use evaluate::Binary;
use graph::layout::{REGION, Region};
use graph::{InputId, NodeId};
use mark::layout::{MARKS, Marks};
use mark::retain_nodes::retain;
use mark::{MarkId, calls};
use native::{Answer, by_name, reading};
use range::ScalarType;
use std::io::{Stdout, Write};
use word::Word;

// An answer as one byte: a number below ten is its digit, Done is d, None and a refusal are n and r.
fn letter(answer: Result<Answer, Refusal>) -> u8 {
    match answer {
        Ok(Answer::Id(id)) => digit(id.0),
        Ok(Answer::None) => b'n',
        Ok(Answer::Done) => b'd',
        Err(_) => b'r',
    }
}

fn digit(number: u64) -> u8 {
    match number {
        0..=9 => b'0' + number as u8,
        _ => b'?',
    }
}

// The same of an answer that is a number or a refusal.
fn number(answer: Result<u64, Refusal>) -> u8 {
    answer.map_or(b'?', digit)
}

fn say(mut stdout: Stdout, byte: u8) {
    let line = [byte, b'\n'];
    let _is_written = stdout.write_all(&line).is_ok();
}

// The lent words of the two examples, and where the answers go.
#[derive(Drop)]
struct Example {
    stdout: Stdout,
    graph: Region,
    marks: Marks,
}

impl Example {
    // Is input 0 below 5? The node of the question is 2 unless what is known decides it.
    fn is_below(&mut self) {
        let answer = by_name::binary(
            &mut self.graph,
            ScalarType::Bool,
            Binary::LessUnsigned,
            NodeId(0),
            NodeId(1),
        );
        say(self.stdout, letter(answer));
    }

    // Nodes 0, 1 and 2: an input, a constant, and the question.
    fn begin(&mut self) {
        let bits = ScalarType::Bits(8);
        let input = by_name::input(&mut self.graph, InputId(0), bits, None);
        say(self.stdout, letter(input));
        let five = by_name::constant(&mut self.graph, bits, Word::from(5));
        say(self.stdout, letter(five));
        self.is_below();
    }

    fn set_mark(&mut self) {
        let mark = calls::mark(&self.graph, &mut self.marks);
        say(self.stdout, number(mark.map(|mark| mark.0)));
    }

    fn assume(&mut self) {
        let answer = by_name::assume_guard(&mut self.graph, NodeId(2), true);
        say(self.stdout, letter(answer));
    }

    fn go_back(&mut self) {
        let answer = calls::return_to(&mut self.graph, &mut self.marks, MarkId(0));
        say(self.stdout, letter(answer));
    }

    fn resolve(&self) {
        say(
            self.stdout,
            letter(reading::resolve(&self.graph, NodeId(0))),
        );
    }

    // In the arm the question is decided; after the return it is the node again.
    fn arm(&mut self) {
        self.set_mark();
        self.assume();
        self.is_below();
        self.go_back();
        self.is_below();
    }

    // A retain of all nodes clears the aliases and keeps the Refine, which the guard finds again.
    fn old_refine(&mut self) {
        self.assume();
        let keep = [1u8; 4];
        let mut mapping = [0u64; 4];
        let kept = retain(&mut self.graph, &mut self.marks, &keep, &mut mapping);
        say(self.stdout, number(kept));
        self.set_mark();
        self.assume();
        self.resolve();
        self.go_back();
        self.resolve();
    }
}

fn main(rt: HostRuntime) {
    let mut example = Example {
        stdout: rt.stdout(),
        graph: [0; REGION],
        marks: [0; MARKS],
    };
    example.begin();
    example.arm();
    example.old_refine();
}
