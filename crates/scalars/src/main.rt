// Reads records from standard input and writes a line for each to standard output; the last line is the number of nodes.
#![tactic(auto)]

mod blocks;

use blocks::{Input, Memory};
use std::io::{self, Stdin, Stdout};

// A proved loop has to end: this one has a number of turns that no run uses up.
fn run(
    stdin: Stdin,
    stdout: Stdout,
    memory: &mut Memory,
    input: &mut Input,
    out: &mut [u8],
) -> io::Result<()> {
    for _ in 0..u64::MAX {
        if !memory.turn(stdin, stdout, input, out)? {
            return memory.finish(stdout, input, out);
        }
    }
    Ok(())
}

fn main(rt: HostRuntime) {
    let mut memory = Memory::new();
    let mut input = Input {
        bytes: [0; 131072],
        filled: 0,
    };
    let mut out = [0u8; 65536];

    // A write that fails ends the run: there is nobody to tell.
    let _is_written = run(rt.stdin(), rt.stdout(), &mut memory, &mut input, &mut out).is_ok();
}
