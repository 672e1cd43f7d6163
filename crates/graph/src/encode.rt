// The words of a new node.
ghost use Rattle.std.specs.Prelude.{◌≡◌};
ghost use Rattle.word.specs.Value.{val};
ghost use Rattle.range.specs.Interval.{interval_of};
ghost use Rattle.graph.specs.Node.{type_code, op_of, words_of, op_code, op_x, op_y, op_z, range_flag, range_low, range_high};

use crate::Operation;
use crate::layout::{CONCAT, CONSTANT, EFFECT, INPUT, REFINE, SIZE, SLICE};
use evaluate::code::{BITS, BOOL, INTEGER};
use evaluate::type_width;
use range::{Range, ScalarType};
use word::Word;

// The fields of an operation: its code and three words.
#[derive(Clone, Copy)]
pub struct Fields {
    pub code: u64,
    pub x: u64,
    pub y: u64,
    pub z: u64,
}

// The fields of a range: its presence, minimum and maximum. No Option: the words of a node have the flag beside the ends, and 0 in these without a range.
#[derive(Clone, Copy)]
pub struct Bounds {
    pub flag: u64,
    pub min: Word,
    pub max: Word,
}

fn type_code(ty: ScalarType) -> u64
    ensures { result ≡ type_code ty }
{
    match ty {
        ScalarType::Bool => BOOL,
        ScalarType::Bits(_) => BITS,
        ScalarType::Integer => INTEGER,
    }
}

#[tactic(auto, unfolding(word::specs::Value::val))]
fn bounds_of(range: Option<Range>) -> Bounds
    ensures { (result.flag ≡ range_flag (interval_of range)) × (val result.min ≡ range_low (interval_of range)) × (val result.max ≡ range_high (interval_of range)) }
{
    match range {
        None => Bounds {
            flag: 0,
            min: Word::ZERO,
            max: Word::ZERO,
        },
        Some(bounds) => Bounds {
            flag: 1,
            min: bounds.min.as_word(),
            max: bounds.max.as_word(),
        },
    }
}

#[tactic(auto, using(crate::proofs::Codes::halves))]
fn fields_of(operation: Operation) -> Fields
    ensures { (result.code ≡ op_code (op_of operation)) × (result.x ≡ op_x (op_of operation)) × (result.y ≡ op_y (op_of operation)) × (result.z ≡ op_z (op_of operation)) }
{
    let (code, x, y, z) = match operation {
        Operation::Constant(value) => (CONSTANT, value.lo, value.hi, 0),
        Operation::Input(id) => (INPUT, id.0, 0, 0),
        Operation::Refine(id) => (REFINE, id.0, 0, 0),
        Operation::Effect(id) => (EFFECT, id.0, 0, 0),
        Operation::Slice {
            value,
            offset,
            width,
        } => (SLICE, value.0, u64::from(offset), u64::from(width)),
        Operation::Concat {
            high,
            low,
            low_width,
        } => (CONCAT, high.0, low.0, u64::from(low_width)),
        Operation::Unary(unary, id) => (unary.code(), id.0, 0, u64::from(unary.width())),
        Operation::Binary(binary, left, right) => (binary.code(), left.0, right.0, 0),
    };
    Fields { code, x, y, z }
}

// The words of a node without an alias.
#[tactic(auto, using(crate::proofs::Codes::halves), unfolding(crate::specs::Node::words_of))]
pub fn words_of(ty: ScalarType, range: Option<Range>, operation: Operation) -> [u64; SIZE]
    ensures { result ≡ words_of ty (interval_of range) (op_of operation) }
{
    let Bounds { flag, min, max } = bounds_of(range);
    let Fields { code, x, y, z } = fields_of(operation);
    [
        type_code(ty),
        u64::from(type_width(ty)),
        flag,
        min.lo,
        min.hi,
        max.lo,
        max.hi,
        code,
        x,
        y,
        z,
        0,
    ]
}
