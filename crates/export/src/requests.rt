// The requests by number. Where a code names nothing, the widths and ids beside it are asked all the same.
ghost use Rattle.std.specs.Prelude.{◌≡◌, [], ◌∷◌};
ghost use Rattle.word.specs.Value.{val};
ghost use Rattle.range.specs.Interval.{interval_of};
ghost use Rattle.graph.specs.Node.{pair, range_of};
ghost use Rattle.request.specs.Codes.{clamped};
ghost use Rattle.request.specs.Request.{request_of, unnamed, unsigned_range};
ghost use Rattle.export.specs.Numbers.{constant_by_code, input_by_code, effect_by_code, unary_by_codes, binary_by_codes, slice_by_numbers, concat_by_numbers, guard_by_numbers};

use graph::read::range_of;
use graph::{EffectId, InputId, NodeId};
use range::Range;
use request::Request;
use request::codes::{binary_by_code, clamped_width, truth_by_number, type_by_code, unary_by_code};
use word::Word;

// A leaf whose type's code names nothing. Where there is a type, a match makes the request in its place; `map_or` would make this one first, and copy.
fn unnamed_leaf(width: u64) -> Request
    ensures { request_of result ≡ unnamed (clamped width ∷ []) [] }
{
    Request::UnnamedLeaf(clamped_width(width))
}

#[tactic(auto, unfolding(crate::specs::Numbers::constant_by_code))]
pub(crate) fn constant_request(code: u64, width: u64, value: Word) -> Request
    ensures { request_of result ≡ constant_by_code code width (val value) }
{
    match type_by_code(code, width) {
        Some(ty) => Request::Constant(value, ty),
        None => unnamed_leaf(width),
    }
}

#[tactic(auto, unfolding(crate::specs::Numbers::input_by_code))]
pub(crate) fn input_request(number: u64, code: u64, width: u64, range: Option<Range>) -> Request
    ensures { request_of result ≡ input_by_code number code width (interval_of range) }
{
    let id = InputId(number);
    match type_by_code(code, width) {
        Some(ty) => Request::Input(id, range, ty),
        None => unnamed_leaf(width),
    }
}

#[tactic(auto, unfolding(crate::specs::Numbers::effect_by_code))]
pub(crate) fn effect_request(number: u64, code: u64, width: u64) -> Request
    ensures { request_of result ≡ effect_by_code number code width }
{
    let id = EffectId(number);
    match type_by_code(code, width) {
        Some(ty) => Request::Effect(id, ty),
        None => unnamed_leaf(width),
    }
}

#[tactic(auto, unfolding(crate::specs::Numbers::unary_by_codes))]
pub(crate) fn unary_request(
    code: u64,
    width: u64,
    operator: u64,
    parameter: u64,
    id: u64,
) -> Request
    ensures { request_of result ≡ unary_by_codes code width operator parameter id }
{
    let value = NodeId(id);
    match (
        type_by_code(code, width),
        unary_by_code(operator, parameter),
    ) {
        (Some(ty), Some(op)) => Request::Unary(value, ty, op),
        _ => {
            let width = clamped_width(width);
            Request::UnnamedOperation(value, value, width, clamped_width(parameter))
        }
    }
}

#[tactic(auto, unfolding(crate::specs::Numbers::binary_by_codes))]
pub(crate) fn binary_request(code: u64, width: u64, operator: u64, left: u64, right: u64) -> Request
    ensures { request_of result ≡ binary_by_codes code width operator left right }
{
    match (type_by_code(code, width), binary_by_code(operator)) {
        (Some(ty), Some(op)) => Request::Binary(NodeId(left), NodeId(right), ty, op),
        _ => Request::UnnamedOperation(NodeId(left), NodeId(right), clamped_width(width), 0),
    }
}

#[tactic(auto, unfolding(crate::specs::Numbers::slice_by_numbers))]
pub(crate) fn slice_request(id: u64, offset: u64, width: u64) -> Request
    ensures { request_of result ≡ slice_by_numbers id offset width }
{
    Request::Slice(NodeId(id), clamped_width(offset), clamped_width(width))
}

#[tactic(auto, unfolding(crate::specs::Numbers::concat_by_numbers))]
pub(crate) fn concat_request(high: u64, low: u64, low_width: u64, width: u64) -> Request
    ensures { request_of result ≡ concat_by_numbers high low low_width width }
{
    Request::Concat(
        NodeId(high),
        NodeId(low),
        clamped_width(low_width),
        clamped_width(width),
    )
}

#[tactic(auto, unfolding(crate::specs::Numbers::guard_by_numbers))]
pub(crate) fn guard_request(condition: u64, expected: u64) -> Request
    ensures { request_of result ≡ guard_by_numbers condition expected }
{
    match truth_by_number(expected) {
        Some(wanted) => Request::Guard(NodeId(condition), wanted),
        None => Request::UnnamedOperation(NodeId(condition), NodeId(condition), 0, 0),
    }
}

#[tactic(auto, unfolding(word::specs::Value::val))]
pub(crate) fn range_of_ends(
    flag: u64,
    min_low: u64,
    min_high: u64,
    max_low: u64,
    max_high: u64,
) -> Option<Range>
    ensures { interval_of result ≡ range_of flag (pair min_low min_high) (pair max_low max_high) }
{
    let min = Word {
        lo: min_low,
        hi: min_high,
    };
    let max = Word {
        lo: max_low,
        hi: max_high,
    };
    range_of(flag, min, max)
}

#[tactic(auto, unfolding(word::specs::Value::val))]
pub(crate) fn range_request(
    id: u64,
    low_low: u64,
    low_high: u64,
    high_low: u64,
    high_high: u64,
) -> Request
    ensures { request_of result ≡ unsigned_range id (pair low_low low_high) (pair high_low high_high) }
{
    let low = Word {
        lo: low_low,
        hi: low_high,
    };
    let high = Word {
        lo: high_low,
        hi: high_high,
    };
    Request::UnsignedRange(NodeId(id), low, high)
}
