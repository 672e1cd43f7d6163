// Reading a node: total on every region of the right length. What its numbers stand for is told here alone; one that names nothing is read as something, since
// a region of any content is.
ghost use Rattle.std.specs.Prelude.{◌≡◌, ◌%◌, ◌^◌};
ghost use Rattle.word.specs.Value.{val, number_of};
ghost use Rattle.range.specs.Interval.{interval_of};
ghost use Rattle.graph.specs.Node.{type_of, range_of, operation_of, op_of, type_at, range_at, operation_at, node_of, node_at};
ghost use Rattle.graph.specs.Insert.{literal, resolve};

use crate::layout::{
    ALIAS, CONCAT, CONSTANT, EFFECT, INPUT, MAX, MIN, OPERATION, RANGE, REFINE, Region, SLICE,
    TYPE, WIDTH, X, Y, Z, pair_at, word_at,
};
use crate::walk::walk;
use crate::{EffectId, InputId, Node, NodeId, Operation};
use evaluate::code::{self, BINARY, binary_of, unary_of};
use range::{Range, ScalarType};
use word::Word;

// A width or an offset in a word.
fn narrow(word: u64) -> u16
    ensures { result ≡ word % 2 ^ 16 }
{
    (word & 0xffff) as u16
}

pub(crate) fn type_of(code: u64, width: u64) -> ScalarType
    ensures { result ≡ type_of code width }
{
    code::type_of(code, narrow(width)).unwrap_or(ScalarType::Integer)
}

// The range of a flag and the patterns of its ends.
pub fn range_of(flag: u64, min: Word, max: Word) -> Option<Range>
    ensures { interval_of result ≡ range_of flag (val min) (val max) }
{
    if flag == 0 {
        return None;
    }
    Some(Range::of_patterns(min, max))
}

// The operation of a code and its three fields; an unknown code below BINARY is taken for BoolNot, another for Add.
#[tactic(auto, using(crate::proofs::Codes::operator), unfolding(word::specs::Value::val))]
fn operation_of(code: u64, x: u64, y: u64, z: u64) -> Operation
    ensures { op_of result ≡ operation_of code x y z }
{
    match code {
        CONSTANT => Operation::Constant(Word { lo: x, hi: y }),
        INPUT => Operation::Input(InputId(x)),
        REFINE => Operation::Refine(NodeId(x)),
        EFFECT => Operation::Effect(EffectId(x)),
        SLICE => Operation::Slice {
            value: NodeId(x),
            offset: narrow(y),
            width: narrow(z),
        },
        CONCAT => Operation::Concat {
            high: NodeId(x),
            low: NodeId(y),
            low_width: narrow(z),
        },
        _ if code < BINARY => Operation::Unary(unary_of(code, narrow(z)), NodeId(x)),
        _ => Operation::Binary(binary_of(code), NodeId(x), NodeId(y)),
    }
}

pub fn type_at(g: &Region, id: NodeId) -> ScalarType
    ensures { result ≡ type_at g.now id.0 }
{
    let n = id.0;
    type_of(word_at(g, n, TYPE), word_at(g, n, WIDTH))
}

pub fn range_at(g: &Region, id: NodeId) -> Option<Range>
    ensures { interval_of result ≡ range_at g.now id.0 }
{
    let n = id.0;
    range_of(word_at(g, n, RANGE), pair_at(g, n, MIN), pair_at(g, n, MAX))
}

// Inlined: a caller asks for one or two shapes, and an operation that is handed back lies in memory.
#[inline(always)]
pub fn operation_at(g: &Region, id: NodeId) -> Operation
    ensures { op_of result ≡ operation_at g.now id.0 }
{
    let n = id.0;
    operation_of(
        word_at(g, n, OPERATION),
        word_at(g, n, X),
        word_at(g, n, Y),
        word_at(g, n, Z),
    )
}

pub fn node_at(g: &Region, id: NodeId) -> Node
    ensures { node_of result ≡ node_at g.now id.0 }
{
    Node {
        ty: type_at(g, id),
        range: range_at(g, id),
        operation: operation_at(g, id),
    }
}

// The value of a constant.
#[tactic(auto, unfolding(crate::specs::Insert::literal, word::specs::Value::val))]
pub fn literal(g: &Region, id: NodeId) -> Option<Word>
    ensures { number_of result ≡ literal g.now id.0 }
{
    let n = id.0;
    if word_at(g, n, OPERATION) == CONSTANT {
        Some(pair_at(g, n, X))
    } else {
        None
    }
}

// The end of the chain of aliases.
pub fn resolve(g: &Region, id: NodeId) -> NodeId
    ensures { result.0 ≡ resolve g.now id.0 }
{
    walk(id, |at: NodeId| {
        let alias = word_at(g, at.0, ALIAS);
        Some(NodeId(alias.checked_sub(1)?))
    })
}
