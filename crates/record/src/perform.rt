// One record: the call that it asks for, and its line. `.._in_graph` is for a caller that knows the region to be a graph, as `call_in_graph`
// (native/src/perform.rt) says.
ghost use Rattle.std.specs.Prelude.{List, ℕ, Some, true, false, ◌≡◌, min, take};
ghost use Rattle.word.specs.Option.{is_some};
ghost use Rattle.graph.specs.WellFormed.{is_graph};
ghost use Rattle.native.specs.Perform.{request_in_graph};
ghost use Rattle.native.specs.Retain.{outcome_of, retention, retain_in_graph};
ghost use Rattle.record.specs.Record.{tag_in, asked, asked_in, first_length};
ghost use Rattle.record.specs.Perform.{left, progress_of, lent_words, widened, done_by, effect_in_graph, effect_call, record_in_graph, record_call, Writes};

use crate::decode::request_in;
use crate::line::{Line, put_answer, put_bad, put_refusal, put_retained};
use answer::Refusal;
use graph::layout::{Region, count};
use graph::well_formed::is_graph;
use native::perform::call_in_graph;
use native::retain_nodes::retain_unmarked_in_graph;

// Bytes before a record's body.
const HEADER: usize = 3;

// The tag of a retain.
const RETAIN: u8 = 10;

// A record's line of so many bytes, and whether reading goes on or ends. Where there is no room for a line there is none, and nothing
// was done.
#[derive(Clone, Copy)]
pub enum Step {
    Line(usize),
    Last(usize),
}

// How many bytes the first record of some bytes has.
#[tactic(auto, unfolding(crate::specs::Record::first_length))]
pub fn first_length(bytes: &[u8]) -> Option<usize>
    ensures { result ≡ first_length bytes.now }
{
    let [_, low, high, rest @ ..] = bytes else {
        return None;
    };
    let body = u16::from_le_bytes([*low, *high]) as usize;
    if rest.len() < body {
        return None;
    }
    Some(HEADER + body)
}

// The tag of a record whose body has just the length that it says. The tag alone, as its definition: the body is what stands behind the header, and is cut off where it is read.
fn tag_in(bytes: &[u8]) -> Option<u8>
    ensures { result ≡ tag_in bytes.now }
{
    let [tag, low, high, body @ ..] = bytes else {
        return None;
    };
    if body.len() != u16::from_le_bytes([*low, *high]) as usize {
        return None;
    }
    Some(*tag)
}

// As many words of a mapping as there are nodes, as far as it has them.
fn lent_words(nodes: u64, words: usize) -> usize
    ensures { result ≡ min nodes words }
{
    nodes.min(words as u64) as usize
}

fn retain_listed(g: &mut Region, mapping: &mut [u64], keep: &[u8]) -> Result<u64, Refusal>
    requires { is_graph g.old ≡ true }
    ensures { retention (outcome_of result) g.new mapping.new ≡ widened (lent_words g.old mapping.old) mapping.old (retain_in_graph g.old keep.now (take (lent_words g.old mapping.old) mapping.old)) }
{
    let lent = lent_words(count(g), mapping.len());
    retain_unmarked_in_graph(g, keep, &mut mapping[0..lent])
}

// What a tag and a body ask for.
fn perform_body(g: &mut Region, mapping: &mut [u64], tag: u8, body: &[u8], line: &mut Line) -> Step
    requires { is_graph g.old ≡ true }
    ensures { Writes line.old (done_by (request_in_graph g.old) (retain_in_graph g.old) g.old mapping.old (asked_in tag body.now)) (left (progress_of (Some result)) g.new mapping.new line.new) }
{
    if tag == RETAIN {
        let retained = retain_listed(g, mapping, body);
        return Step::Line(put_retained(retained, line));
    }
    let Some(request) = request_in(tag, body) else {
        return Step::Last(put_bad(line));
    };
    let answer = call_in_graph(g, request);
    Step::Line(put_answer(answer, line))
}

// The record on a graph.
fn step_in_graph(g: &mut Region, mapping: &mut [u64], bytes: &[u8], line: &mut Line) -> Step
    requires { is_graph g.old ≡ true }
    ensures { Writes line.old (effect_in_graph g.old mapping.old bytes.now) (left (progress_of (Some result)) g.new mapping.new line.new) }
{
    match tag_in(bytes) {
        Some(tag) => perform_body(g, mapping, tag, &bytes[HEADER..], line),
        None => Step::Last(put_bad(line)),
    }
}

pub fn perform_in_graph(
    g: &mut Region,
    mapping: &mut [u64],
    bytes: &[u8],
    line: &mut [u8],
) -> Option<Step>
    requires { is_graph g.old ≡ true }
    ensures { left (progress_of result) g.new mapping.new line.new ≡ record_in_graph g.old mapping.old bytes.now line.old }
{
    let line = line.first_chunk_mut()?;
    Some(step_in_graph(g, mapping, bytes, line))
}

// Is this no bad record?
#[tactic(auto, unfolding(crate::specs::Record::asked))]
fn is_record(bytes: &[u8]) -> bool
    ensures { result ≡ is_some (asked bytes.now) }
{
    let Some(tag) = tag_in(bytes) else {
        return false;
    };
    tag == RETAIN || request_in(tag, &bytes[HEADER..]).is_some()
}

// On a region that is no graph whatever is asked for is refused; a bad record comes before that.
fn refuse(bytes: &[u8], line: &mut Line) -> Step
    ensures { (g m : List ℕ) → is_graph g ≡ false → Writes line.old (effect_call g m bytes.now) (left (progress_of (Some result)) g m line.new) }
{
    if is_record(bytes) {
        Step::Line(put_refusal(Refusal::Graph, line))
    } else {
        Step::Last(put_bad(line))
    }
}

// The record on any region.
fn step_call(g: &mut [u64], mapping: &mut [u64], bytes: &[u8], line: &mut Line) -> Step
    ensures { Writes line.old (effect_call g.old mapping.old bytes.now) (left (progress_of (Some result)) g.new mapping.new line.new) }
{
    let Some(region) = g.as_mut_array() else {
        return refuse(bytes, line);
    };
    if is_graph(region) {
        step_in_graph(region, mapping, bytes, line)
    } else {
        refuse(bytes, line)
    }
}

pub fn perform(g: &mut [u64], mapping: &mut [u64], bytes: &[u8], line: &mut [u8]) -> Option<Step>
    ensures { left (progress_of result) g.new mapping.new line.new ≡ record_call g.old mapping.old bytes.now line.old }
{
    let line = line.first_chunk_mut()?;
    Some(step_call(g, mapping, bytes, line))
}
