// Aliases: the one place that sets them, and taking back what a call set and added.
ghost use Rattle.std.specs.Prelude.{◌≡◌, ◌≤◌, length};
ghost use Rattle.graph.specs.Layout.{LIMIT, count_of};
ghost use Rattle.graph.specs.Alias.{aliased, saved, restored_up_to, restored};
ghost use Rattle.graph.specs.Clear.{EmptyPast};

use crate::NodeId;
use crate::clear::clear_to;
use crate::layout::{ALIAS, LIMIT, Region, count, start_of};

// The alias of `from` is `to`. An id past the limit names no node, and nothing is written.
#[tactic(auto, unfolding(crate::specs::Alias::aliased))]
pub fn set_alias(g: &mut Region, from: NodeId, to: NodeId)
    ensures { g.new ≡ aliased g.old from.0 to.0 }
{
    let NodeId(node) = from;
    let NodeId(target) = to;
    if node < LIMIT && target < LIMIT {
        g[start_of(node) + ALIAS] = target + 1;
    }
}

// The alias words of all nodes, into the first elements of `words`: a slice, since a mark lends a part of its region, and a guard a place of 128 words or of all 512.
#[tactic(auto, unfolding(crate::specs::Alias::saved))]
pub fn save_aliases(g: &Region, words: &mut [u64])
    requires { (count_of g.now ≤ length words.old) × (count_of g.now ≤ LIMIT) }
    ensures { words.new ≡ saved g.now words.old }
{
    for n in 0..count(g) {
        words[n as usize] = g[start_of(n) + ALIAS];
    }
}

// The first `nodes` nodes get their alias words back.
fn restore_aliases(g: &mut Region, nodes: u64, words: &[u64])
    requires { (nodes ≤ length words.now) × (nodes ≤ LIMIT) }
    ensures { g.new ≡ restored_up_to nodes words.now g.old }
{
    for n in 0..nodes {
        g[start_of(n) + ALIAS] = words[n as usize];
    }
}

// Takes back what was added to the first `nodes` nodes, and the aliases that were set since they were saved. Every word past the first
// `count` nodes is 0.
#[tactic(auto, unfolding(crate::specs::Alias::restored))]
pub fn restore_to(g: &mut Region, nodes: u64, count: u64, words: &[u64])
    requires { (nodes ≤ length words.now) × (nodes ≤ count) × (count ≤ LIMIT) × EmptyPast count g.old }
    ensures { g.new ≡ restored nodes words.now g.old }
{
    restore_aliases(g, nodes, words);
    clear_to(g, nodes, count);
}

// The same whatever the words past the nodes are.
pub fn restore(g: &mut Region, nodes: u64, words: &[u64])
    requires { (nodes ≤ length words.now) × (nodes ≤ LIMIT) }
    ensures { g.new ≡ restored nodes words.now g.old }
{
    restore_to(g, nodes, LIMIT, words);
}
