// Retain: the kept nodes move down in order, their operands renumbered and their aliases cleared.
#![tactic(auto)]

pub mod keep_list;

ghost use Rattle.std.specs.Prelude.{true, cond, ◌≡◌, suc, ◌<◌, length, get_or, set};
ghost use Rattle.graph.specs.Layout.{LIMIT, count_of};
ghost use Rattle.graph.specs.WellFormed.{is_graph};
ghost use Rattle.retain.specs.Retain.{DROPPED, is_kept, is_keep_list, kept_below, new_ids, through, moved_words, moved, retained};

use graph::clear::clear_to;
use graph::insert::store;
use graph::layout::{OPERATION, Region, SIZE, X, Y, Z, count, start_of, word_at};
use keep_list::{has_first, has_second};

// What a dropped node maps to.
pub const DROPPED: u64 = u64::MAX;

// An operand's new id; another word stays.
fn renumbered(mapping: &[u64], is_operand: bool, word: u64) -> u64
    ensures { result ≡ through (λ i. get_or mapping.now i DROPPED) is_operand word }
{
    if is_operand {
        mapping.get(word as usize).copied().unwrap_or(DROPPED)
    } else {
        word
    }
}

// The words of a node with its operands' new ids, without an alias. Word by word, since a node past the region reads 0.
#[tactic(auto, unfolding(crate::specs::Retain::moved_words))]
fn moved_words(g: &Region, mapping: &[u64], node: u64) -> [u64; SIZE]
    ensures { result ≡ moved_words (λ i. get_or mapping.now i DROPPED) g.now node }
{
    let mut words = [0; SIZE];
    for k in 0..X {
        words[k] = word_at(g, node, k);
    }
    let code = words[OPERATION];
    words[X] = renumbered(mapping, has_first(code), word_at(g, node, X));
    words[Y] = renumbered(mapping, has_second(code), word_at(g, node, Y));
    words[Z] = word_at(g, node, Z);
    words
}

#[tactic(auto, unfolding(crate::specs::Retain::moved_words))]
fn move_node(g: &mut Region, mapping: &[u64], node: u64, to: u64)
    requires { to < LIMIT }
    ensures { g.new ≡ moved mapping.now g.old node to }
{
    let words = moved_words(g, mapping, node);
    store(g, start_of(to), &words);
}

// One node: kept, it moves to place `next`. The next free place.
fn place(g: &mut Region, keep: &[u8], mapping: &mut [u64], node: u64, next: u64) -> u64
    requires { (next < LIMIT) × (node < length keep.now) × (node < length mapping.old) }
    ensures { (result ≡ cond (is_kept keep.now node) (suc next) next) × (g.new ≡ cond (is_kept keep.now node) (moved mapping.old g.old node next) g.old) × (mapping.new ≡ set mapping.old node (cond (is_kept keep.now node) next DROPPED)) }
{
    let (id, free) = if keep[node as usize] == 1 {
        move_node(g, mapping, node, next);
        (next, next + 1)
    } else {
        (DROPPED, next)
    };
    mapping[node as usize] = id;
    free
}

// Moves the kept nodes down and fills the mapping; the number of nodes left. An operand lies below its node, so that its new id is known.
// That the region is a graph is a clause, as in the calls that hand it on (native/src/perform.rt).
#[tactic(auto, using(graph::proofs::Grown::graph_facts, crate::proofs::Operands::keep_list_facts, crate::proofs::Moving::kept_le, crate::proofs::Moving::moving_begins, crate::proofs::Moving::moving_past))]
pub fn retain(g: &mut Region, keep: &[u8], mapping: &mut [u64]) -> u64
    requires { (is_graph g.old ≡ true) × (is_keep_list g.old keep.now mapping.old ≡ true) }
    ensures { (result ≡ kept_below keep.now (count_of g.old)) × (g.new ≡ retained g.old keep.now) × (mapping.new ≡ new_ids keep.now (count_of g.old)) }
{
    let nodes = count(g);
    let mut next = 0;
    for node in 0..nodes {
        next = place(g, keep, mapping, node, next);
    }
    clear_to(g, next, nodes);
    next
}
