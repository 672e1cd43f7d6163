// Replays streams of records, each from the empty graph: standard input has the length of each in four bytes, the low one first, and its
// bytes, standard output gets its lines and an empty one.
#![tactic(auto)]

ghost use Rattle.std.specs.Prelude.{◌≡◌, ◌≤◌, ◌<◌, length};
ghost use Rattle.graph.specs.Layout.{REGION};

use graph::layout::{NODES, REGION, Region, count};
use record::line::put_nodes;
use record::perform::{Step, first_length, perform};
use std::io::{Read, Stdin, Stdout, Write};
use text::put_text;

// The most bytes of a stream, and of its lines.
const STREAM: usize = 16384;

const LINES: usize = 8192;

// How many bytes the first record has, or how many there are where they end inside it.
fn record_length(bytes: &[u8]) -> usize
    requires { 0 < length bytes.now }
    ensures { (0 < result) × (result ≤ length bytes.now) }
{
    first_length(bytes).unwrap_or(bytes.len())
}

// The bytes of a line, and whether there may be another record after it.
// A Step told apart in the loop itself asks four goals there for the law of a step, each over what its line leaves of the slice.
#[derive(Clone, Copy)]
struct Told {
    len: usize,
    goes_on: bool,
}

fn tell(g: &mut Region, mapping: &mut [u64; NODES], bytes: &[u8], line: &mut [u8]) -> Told
    ensures { result.len ≤ length line.old }
{
    match perform(g, mapping, bytes, line) {
        Some(Step::Line(len)) => Told { len, goes_on: true },
        Some(Step::Last(len)) => Told {
            len,
            goes_on: false,
        },
        None => Told {
            len: 0,
            goes_on: false,
        },
    }
}

// The lines of a stream but the last, and how many bytes they have. A loop by hand: each record says where the next one begins.
fn put_lines(g: &mut Region, mapping: &mut [u64; NODES], stream: &[u8], out: &mut [u8]) -> usize
    ensures { result ≤ length out.old }
{
    let mut rest = stream;
    let mut at = 0;
    while !rest.is_empty() {
        let (bytes, after) = rest.split_at(record_length(rest));
        let told = tell(g, mapping, bytes, &mut out[at..]);
        at += told.len;
        if !told.goes_on {
            return at;
        }
        rest = after;
    }
    at
}

// The last line of a stream, the number of nodes, and how many bytes it has.
fn put_count(g: &Region, line: &mut [u8]) -> usize
    ensures { result ≤ length line.old }
{
    put_nodes(count(g), line)
}

// The lines of a stream and an empty one, and how many bytes they have.
fn put_stream(stream: &[u8], out: &mut [u8]) -> usize
    ensures { result ≤ length out.old }
{
    let mut g = [0u64; REGION];
    let mut mapping = [0u64; NODES];
    let at = put_lines(&mut g, &mut mapping, stream, out);
    let end = at + put_count(&g, &mut out[at..]);
    end + put_text(b"\n", &mut out[end..])
}

// Replays a stream, if there is one that is well formed.
fn replay_stream(mut stdin: Stdin, mut stdout: Stdout) -> Option<()> {
    let mut header = [0u8; 4];
    stdin.read_exact(&mut header).ok()?;
    let mut room = [0u8; STREAM];
    let stream = room.get_mut(..u32::from_le_bytes(header) as usize)?;
    stdin.read_exact(stream).ok()?;
    let mut out = [0u8; LINES];
    let end = put_stream(stream, &mut out);
    stdout.write_all(&out[..end]).ok()
}

fn main(rt: HostRuntime) {
    // A proved loop has to end: no run takes so many turns.
    for _ in 0..u64::MAX {
        if replay_stream(rt.stdin(), rt.stdout()).is_none() {
            break;
        }
    }
}
