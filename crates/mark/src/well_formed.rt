// The marks' part of question 1: can each mark that stands be returned to?
ghost use Rattle.std.specs.Prelude.{◌≡◌, ◌<◌, ◌≤◌, length};
ghost use Rattle.graph.specs.Layout.{LIMIT};
ghost use Rattle.mark.specs.Layout.{MOST};
ghost use Rattle.mark.specs.WellFormed.{are_aliases, is_mark, are_marks, is_marked};

use crate::layout::{MOST, Marks, aliases_of, nodes_of, standing};
use graph::layout::count;
use graph::well_formed::{as_graph, is_alias};

// Are these the alias words of a graph of as many nodes?
fn are_aliases(words: &[u64]) -> bool
    ensures { result ≡ are_aliases words.now (length words.now) }
{
    let nodes = words.len() as u64;

    // Most alias words are 0: the loop passes over them.
    for n in 0..nodes {
        let alias = words[n as usize];
        if alias != 0 && !is_alias(n, nodes, alias) {
            return false;
        }
    }
    true
}

// A mark of at most `limit` nodes, with alias words of a graph.
#[tactic(auto, using(crate::proofs::Facts::aliases_taken))]
fn is_mark(m: &Marks, mark: u64, limit: u64) -> bool
    requires { (mark < MOST) × (limit ≤ LIMIT) }
    ensures { result ≡ is_mark limit m.now mark }
{
    let nodes = nodes_of(m, mark);
    nodes <= limit && are_aliases(&aliases_of(m, mark)[..nodes as usize])
}

// From the last mark down: none has more nodes than the next one, nor the last more than the graph.
#[tactic(auto, using(crate::proofs::Facts::first_on, crate::proofs::Facts::first_off, crate::proofs::Facts::mark_fewer, crate::proofs::Facts::marks_are), unfolding(crate::specs::WellFormed::are_marks))]
fn are_marks(m: &Marks, nodes: u64) -> bool
    requires { nodes ≤ LIMIT }
    ensures { result ≡ are_marks nodes m.now }
{
    let marks = standing(m);
    if MOST < marks {
        return false;
    }
    let mut limit = nodes;
    for mark in (0..marks).rev() {
        if !is_mark(m, mark, limit) {
            return false;
        }
        limit = nodes_of(m, mark);
    }
    true
}

// Question 1 of both regions. A match on the pair: in a closure of `is_some_and` it is not known that the graph's count is at most LIMIT.
#[tactic(auto, using(graph::proofs::Grown::graph_facts, crate::proofs::Facts::short_marks), unfolding(crate::specs::WellFormed::is_marked))]
pub fn is_marked(g: &[u64], m: &[u64]) -> bool
    ensures { result ≡ is_marked g.now m.now }
{
    match (as_graph(g), m.as_array()) {
        (Some(graph), Some(marks)) => are_marks(marks, count(graph)),
        _ => false,
    }
}
