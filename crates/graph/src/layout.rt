// Where the words of the region stand, and the codes of the operations that are no operators.
ghost use Rattle.std.specs.Prelude.{◌≡◌, ◌<◌, ◌≤◌, ◌+◌};
ghost use Rattle.word.specs.Value.{val};
ghost use Rattle.graph.specs.Layout.{WORDS, LIMIT, node_start, word_at, count_of};
ghost use Rattle.graph.specs.Node.{pair};

use word::Word;

// Words of a node, as an array's length and as a number.
pub const SIZE: usize = 12;

pub const WORDS: u64 = SIZE as u64;
// The words of a node: the code of its type and the width.
pub const TYPE: usize = 0;

pub const WIDTH: usize = 1;
// Whether there is a range, and its ends, each in two words with the low half first.
pub const RANGE: usize = 2;

pub const MIN: usize = 3;

pub const MAX: usize = 5;
// The code of the operation and its three fields.
pub const OPERATION: usize = 7;

pub const X: usize = 8;

pub const Y: usize = 9;

pub const Z: usize = 10;
// Words of a node's key: type, range and operation. The alias comes after them.
pub const KEY: usize = 11;
// The word of a node's alias.
pub const ALIAS: usize = KEY;
// The word of the first node.
pub const FIRST: u64 = 1;
// The most nodes, as an array's length and as a number.
pub const NODES: usize = 512;

pub const LIMIT: u64 = NODES as u64;
// Words of the region.
pub const REGION: usize = (FIRST + WORDS * LIMIT) as usize;

// The words of a graph: its count, and its nodes.
pub type Region = [u64; REGION];

// The codes of the operations that are no operators.
pub const CONSTANT: u64 = 0;

pub const INPUT: u64 = 1;

pub const REFINE: u64 = 2;

pub const EFFECT: u64 = 3;

pub const SLICE: u64 = 4;

pub const CONCAT: u64 = 5;

// Where the words of a node begin; of LIMIT, where the region ends.
pub fn start_of(node: u64) -> usize
    requires { node ≤ LIMIT }
    ensures { result ≡ node_start node }
{
    (FIRST + WORDS * node) as usize
}

// Word `index` of a node, 0 for a node past the region.
pub fn word_at(g: &Region, node: u64, index: usize) -> u64
    requires { index < WORDS }
    ensures { result ≡ word_at g.now node index }
{
    if node < LIMIT {
        g[start_of(node) + index]
    } else {
        0
    }
}

// The words `index` and the next of a node, the low half first.
#[tactic(auto, unfolding(word::specs::Value::val))]
pub fn pair_at(g: &Region, node: u64, index: usize) -> Word
    requires { index + 1 < WORDS }
    ensures { val result ≡ pair (word_at g.now node index) (word_at g.now node (index + 1)) }
{
    Word {
        lo: word_at(g, node, index),
        hi: word_at(g, node, index + 1),
    }
}

// The number of nodes.
pub fn count(g: &Region) -> u64
    ensures { result ≡ count_of g.now }
{
    g[0]
}
