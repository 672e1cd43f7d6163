// Question 1: is the region a graph? It is asked of the numbers in it, which may be any: no types and operations stand for them yet.
ghost use Rattle.std.specs.Prelude.{◌≡◌, true, false, MatchOption};
ghost use Rattle.word.specs.Value.{val};
ghost use Rattle.graph.specs.WellFormed.{is_type, is_range, are_fields, is_operation, is_alias, is_node, are_nodes, are_zeros, is_graph};

use crate::layout::{
    ALIAS, CONCAT, CONSTANT, EFFECT, INPUT, LIMIT, MAX, MIN, OPERATION, RANGE, REFINE, Region,
    SLICE, TYPE, WIDTH, X, Y, Z, count, pair_at, start_of, word_at,
};
use crate::read::type_of;
use evaluate::code::{
    BINARY, BINARY_END, BITS, BOOL, INTEGER, OFFSETS, PARAMETER, UNARY, UNARY_END, WIDEST_WORD,
    WIDTHS,
};
use range::Range;
use word::Word;

fn is_type(code: u64, width: u64) -> bool
    ensures { result ≡ is_type code width }
{
    match code {
        BOOL => width == 0,
        BITS => width <= WIDEST_WORD,
        INTEGER => width == 0,
        _ => false,
    }
}

fn is_range(code: u64, width: u64, flag: u64, min: Word, max: Word) -> bool
    ensures { result ≡ is_range code width flag (val min) (val max) }
{
    match flag {
        0 => min.is_zero() && max.is_zero(),
        1 => {
            let range = Range::of_patterns(min, max);
            range.min <= range.max && range.is_inside(type_of(code, width))
        }
        _ => false,
    }
}

// Are three fields of an operation below their bounds?
fn are_fields(x: u64, xlimit: u64, y: u64, ylimit: u64, z: u64, zlimit: u64) -> bool
    ensures { result ≡ are_fields x xlimit y ylimit z zlimit }
{
    x < xlimit && y < ylimit && z < zlimit
}

// An operation of node n: operands below n, offsets below OFFSETS, widths at most WIDEST, unused fields 0.
// Operators stand as ranges of codes: `is_unary_code` would be worked out in full for each node.
fn is_operation(n: u64, code: u64, x: u64, y: u64, z: u64) -> bool
    ensures { result ≡ is_operation n code x y z }
{
    match code {
        CONSTANT => z == 0,
        INPUT | EFFECT => are_fields(0, 1, y, 1, z, 1),
        REFINE => are_fields(x, n, y, 1, z, 1),
        SLICE => are_fields(x, n, y, OFFSETS, z, WIDTHS),
        CONCAT => are_fields(x, n, y, n, z, WIDTHS),
        UNARY..PARAMETER => are_fields(x, n, y, 1, z, 1),
        PARAMETER..UNARY_END => are_fields(x, n, y, 1, z, WIDTHS),
        BINARY..BINARY_END => are_fields(x, n, y, n, z, 1),
        _ => false,
    }
}

// An alias, plus 1: above its node and below the count; 0 for none.
pub fn is_alias(n: u64, nodes: u64, alias: u64) -> bool
    ensures { result ≡ is_alias n nodes alias }
{
    alias == 0 || (n < alias - 1 && alias <= nodes)
}

fn is_node(g: &Region, n: u64, nodes: u64) -> bool
    ensures { result ≡ is_node g.now nodes n }
{
    let code = word_at(g, n, TYPE);
    let width = word_at(g, n, WIDTH);
    is_type(code, width)
        && is_range(
            code,
            width,
            word_at(g, n, RANGE),
            pair_at(g, n, MIN),
            pair_at(g, n, MAX),
        )
        && is_alias(n, nodes, word_at(g, n, ALIAS))
        && is_operation(
            n,
            word_at(g, n, OPERATION),
            word_at(g, n, X),
            word_at(g, n, Y),
            word_at(g, n, Z),
        )
}

fn are_nodes(g: &Region, nodes: u64) -> bool
    ensures { result ≡ are_nodes g.now nodes nodes }
{
    (0..nodes).all(|n| is_node(g, n, nodes))
}

// Are all these words 0? It does not stop at the first that is not, so that several are read at a time.
fn are_zeros(words: &[u64]) -> bool
    ensures { result ≡ are_zeros words.now }
{
    words.iter().fold(0, |ones, word| ones | *word) == 0
}

#[tactic(auto, unfolding(crate::specs::WellFormed::is_graph))]
fn is_graph_region(g: &Region) -> bool
    ensures { result ≡ is_graph g.now }
{
    let nodes = count(g);
    nodes <= LIMIT && are_nodes(g, nodes) && are_zeros(&g[start_of(nodes)..])
}

// The graph that a slice holds, if it is one.
#[tactic(auto, unfolding(crate::specs::WellFormed::is_graph))]
pub fn as_graph(g: &[u64]) -> Option<&Region>
    ensures { MatchOption result (is_graph g.now ≡ false) (λ region. (is_graph g.now ≡ true) × (region.now ≡ g.now)) }
{
    g.as_array().filter(|region| is_graph_region(region))
}

pub fn is_graph(g: &[u64]) -> bool
    ensures { result ≡ is_graph g.now }
{
    as_graph(g).is_some()
}
