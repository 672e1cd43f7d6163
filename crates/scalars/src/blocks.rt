// Records in blocks: as many as a block holds whole, their lines, and what is left over.
ghost use Rattle.std.specs.Prelude.{◌≤◌, length, IfOk, IfSome};
ghost use Rattle.meaning.specs.Program.{Grown};
ghost use Rattle.scalars.specs.Blocks.{OneSays, Through, Stops};

use graph::layout::{NODES, REGION, Region, count};
use record::line::put_nodes;
use record::perform::{Step, first_length, perform_in_graph};
use std::io::{self, Read, Stdin, Stdout, Write};

// What the program keeps from record to record: the graph that the calls so far have grown, and a mapping for retains.
#[derive(Drop)]
pub struct Memory {
    pub graph: Region,
    pub mapping: [u64; NODES],
    ghost grown: { ∥ Grown graph ∥₁ },
}

// The first record of some bytes: how many it has, and its line.
#[derive(Clone, Copy)]
pub struct One {
    pub len: usize,
    pub step: Step,
}

// What the records of a block came to: the bytes read and those written, and whether a bad record ended them.
#[derive(Clone, Copy)]
pub struct Ran {
    pub read: usize,
    pub written: usize,
    pub over: bool,
}

// The bytes that were read and are not yet done: so many of the buffer's first. The longest record has 65,538 bytes: a full buffer holds a whole one.
#[derive(Drop)]
pub struct Input {
    pub bytes: [u8; 131072],
    pub filled: usize,
    ghost inside: { filled ≤ length bytes },
}

impl Memory {
    // The empty graph.
    pub(crate) fn new() -> Memory {
        Memory {
            graph: [0; REGION],
            mapping: [0; NODES],
        }
    }

    // None where the first record is not there whole, or there is no room for its line.
    fn run_one(&mut self, bytes: &[u8], line: &mut [u8]) -> Option<One>
        ensures { OneSays result self.old.graph self.old.mapping bytes.now line.old self.new.graph self.new.mapping line.new }
    {
        let len = first_length(bytes)?;
        let step = perform_in_graph(&mut self.graph, &mut self.mapping, &bytes[..len], line)?;
        Some(One { len, step })
    }

    // The whole records at the start of a block, as long as there is room for their lines. No `for`: each record says where the next one begins.
    fn run_records(&mut self, input: &[u8], out: &mut [u8]) -> Ran
        ensures through { Through self.old.graph self.old.mapping input.now out.old result.read result.written result.over self.new.graph self.new.mapping out.new }
        ensures stops { Stops input.now out.new result.read result.written result.over }
    {
        let mut read = 0;
        let mut written = 0;
        while let Some(one) = self.run_one(&input[read..], &mut out[written..]) {
            read += one.len;
            match one.step {
                Step::Line(n) => {
                    written += n;
                }
                Step::Last(n) => {
                    return Ran {
                        read,
                        written: written + n,
                        over: true,
                    };
                }
            }
        }
        Ran {
            read,
            written,
            over: false,
        }
    }

    // Runs a block's records and writes their lines, until no whole record is left. So many bytes of the block are done, and the others wait
    // for more; none where a bad record ends reading. No `for`: each run says how far it came.
    fn drain(
        &mut self,
        mut stdout: Stdout,
        input: &[u8],
        out: &mut [u8],
    ) -> io::Result<Option<usize>>
        ensures { IfOk result (λ waiting. IfSome waiting (λ done. done ≤ length input.now)) }
    {
        let mut done = 0;
        loop {
            let ran = self.run_records(&input[done..], out);
            stdout.write_all(&out[..ran.written])?;
            if ran.over {
                return Ok(None);
            }
            if ran.read == 0 {
                return Ok(Some(done));
            }
            done += ran.read;
        }
    }

    // Reads once and runs the records that are there whole. False where nothing more is read: at the end of the input, or after a bad record.
    pub(crate) fn turn(
        &mut self,
        stdin: Stdin,
        stdout: Stdout,
        input: &mut Input,
        out: &mut [u8],
    ) -> io::Result<bool> {
        let got = read_some(stdin, &mut input.bytes[input.filled..]);
        if got == 0 {
            return Ok(false);
        }
        let end = input.filled + got;
        let Some(done) = self.drain(stdout, &input.bytes[..end], out)? else {
            input.filled = 0;
            return Ok(false);
        };
        input.bytes.copy_within(done..end, 0);
        input.filled = end - done;
        Ok(true)
    }

    // What is left at the end of the input is a record cut off.
    fn end_inside(&mut self, rest: &[u8], out: &mut [u8]) -> usize
        ensures { result ≤ length out.old }
    {
        if rest.is_empty() {
            return 0;
        }

        // Two arms: an or-pattern leaves the goals without names to cite.
        match perform_in_graph(&mut self.graph, &mut self.mapping, rest, out) {
            Some(Step::Line(n)) => n,
            Some(Step::Last(n)) => n,
            None => 0,
        }
    }

    // The last lines: that of a record cut off, and the number of nodes.
    pub(crate) fn finish(
        &mut self,
        mut stdout: Stdout,
        input: &Input,
        out: &mut [u8],
    ) -> io::Result<()> {
        let at = self.end_inside(&input.bytes[..input.filled], out);
        let end = at + put_nodes(count(&self.graph), &mut out[at..]);
        stdout.write_all(&out[..end])
    }
}

// Reads once, and answers how many bytes came. A read that fails counts as the end of the input.
fn read_some(mut stdin: Stdin, input: &mut [u8]) -> usize
    ensures { result ≤ length input.old }
{
    stdin.read(input).unwrap_or(0)
}
