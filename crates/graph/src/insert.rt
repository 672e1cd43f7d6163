// Interning: the lowest node with the same key, or a new node.
ghost use Rattle.std.specs.Prelude.{◌≡◌, true, min, max, ◌+◌, ◌-◌, ◌*◌, ◌≤◌, length, take};
ghost use Rattle.std.proofs.Math.Seq.{paste};
ghost use Rattle.range.specs.Interval.{interval_of};
ghost use Rattle.graph.specs.Layout.{WORDS, KEY, LIMIT, count_of};
ghost use Rattle.graph.specs.Node.{op_of};
ghost use Rattle.graph.specs.Insert.{same_words, same_key, are_apart, lowest, start, made, built_of, inserted, appended};

use crate::encode::words_of;
use crate::layout::{KEY, LIMIT, OPERATION, Region, SIZE, X, Y, count, start_of};
use crate::read::resolve;
use crate::{NodeId, Operation, Unbuilt};
use range::{Range, ScalarType};

// Are the words from `at` on the node's key, one by one? Not by `==` of the slices: 54 instructions more for a node that is found, 30 for a new one.
fn same_words(g: &[u64], at: usize, words: &[u64; SIZE]) -> bool
    requires { at + KEY ≤ length g.now }
    ensures { result ≡ same_words g.now at (take KEY words.now) }
{
    (0..KEY).all(|k| g[at + k] == words[k])
}

// The same: the operation's first two fields and its code tell most nodes apart, so they are compared first.
fn same_key(g: &[u64], at: usize, words: &[u64; SIZE]) -> bool
    requires { at + KEY ≤ length g.now }
    ensures { result ≡ same_words g.now at (take KEY words.now) }
{
    g[at + X] == words[X]
        && g[at + Y] == words[Y]
        && g[at + OPERATION] == words[OPERATION]
        && same_words(g, at, words)
}

// How many of the eight nodes whose words begin at `at` come before the first that has this first field? All, if none has it.
#[tactic(auto, using(crate::proofs::Search::apart_more))]
fn apart(g: &[u64], at: usize, first: u64) -> u64
    requires { at + 8 * WORDS ≤ length g.now }
    ensures { (result ≤ 8) × (are_apart g.now first at result ≡ true) }
{
    for k in 0..8 {
        if g[at + k * SIZE + X] == first {
            return k as u64;
        }
    }
    8
}

// Past nodes with another first field, sixteen at a time: the search from there on has the same answer. The last sixteen may reach past the end, not past the region.
// A loop by hand: an iterator that ends within its step, `step_by` with `find_map` in it, is no plainer.
#[tactic(auto, using(crate::proofs::Search::lowest_past, crate::proofs::Search::lowest_past_both))]
fn pass_over(g: &Region, from: u64, end: u64, words: &[u64; SIZE]) -> u64
    requires { end ≤ LIMIT }
    ensures { (from ≤ result) × (lowest (same_key g.now words.now) result (end - result) ≡ lowest (same_key g.now words.now) from (end - from)) }
{
    let first = words[X];
    let last = end.min(LIMIT - 15);
    let mut node = from;
    while node < last {
        let at = start_of(node);
        let low = apart(g, at, first);
        if low < 8 {
            return node + low;
        }
        let high = apart(g, at + 8 * SIZE, first);
        if high < 8 {
            return node + 8 + high;
        }
        node += 16;
    }
    node
}

// The lowest node from `from` on, below the count, with this key. A loop by hand: how far it goes depends on the words there.
#[tactic(auto, using(crate::proofs::Search::lowest_at, crate::proofs::Search::lowest_on, crate::proofs::Search::lowest_end))]
fn find(g: &Region, from: u64, words: &[u64; SIZE]) -> Option<u64>
    ensures { result ≡ lowest (same_key g.now words.now) from (min (count_of g.now) LIMIT - from) }
{
    let end = count(g).min(LIMIT);
    let mut node = pass_over(g, from, end, words);
    while node < end {
        let at = start_of(node);
        if g[at + X] != words[X] {
            node = pass_over(g, node + 1, end, words);
        } else if same_key(g, at, words) {
            return Some(node);
        } else {
            node += 1;
        }
    }
    None
}

// Puts the words of a node at `at`. Not by `copy_from_slice`, which wants the words in memory: 11 instructions more for a node that is found, 20 for a new one.
pub fn store(g: &mut [u64], at: usize, words: &[u64; SIZE])
    requires { at + WORDS ≤ length g.old }
    ensures { g.new ≡ paste g.old at words.now WORDS }
{
    for k in 0..SIZE {
        g[at + k] = words[k];
    }
}

// A new node, if there is room.
#[tactic(auto, unfolding(crate::specs::Insert::appended))]
fn append(g: &mut Region, words: &[u64; SIZE]) -> Result<NodeId, Unbuilt>
    ensures { made (built_of result) g.new ≡ appended g.old words.now }
{
    let node = count(g);
    if node < LIMIT {
        store(g, start_of(node), words);
        g[0] = node + 1;
        Ok(NodeId(node))
    } else {
        Err(Unbuilt::Room)
    }
}

// The lowest id that a node with this operation can have: past its operands.
fn lowest_id(operation: Operation) -> u64
    ensures { result ≡ min (start (op_of operation)) LIMIT }
{
    match operation {
        Operation::Refine(id) | Operation::Slice { value: id, .. } | Operation::Unary(_, id) =>
            past(id.0, 0),
        Operation::Concat {
            high: left,
            low: right,
            ..
        }
        | Operation::Binary(_, left, right) => past(left.0, right.0),
        _ => 0,
    }
}

// One past the larger of two ids, at most LIMIT.
fn past(a: u64, b: u64) -> u64
    ensures { result ≡ min (max a b + 1) LIMIT }
{
    a.max(b).saturating_add(1).min(LIMIT)
}

// The resolved id of the lowest node with this type, range and operation, or of a new one.
#[tactic(auto, unfolding(crate::specs::Insert::inserted))]
pub fn insert(
    g: &mut Region,
    ty: ScalarType,
    range: Option<Range>,
    operation: Operation,
) -> Result<NodeId, Unbuilt>
    ensures { made (built_of result) g.new ≡ inserted g.old ty (interval_of range) (op_of operation) }
{
    let words = words_of(ty, range, operation);
    match find(g, lowest_id(operation), &words) {
        Some(node) => Ok(resolve(g, NodeId(node))),
        None => append(g, &words),
    }
}
