// Questions 2 to 5, each asked of a request in one place.
ghost use Rattle.std.specs.Prelude.{[], ◌∷◌, ◌≡◌};
ghost use Rattle.word.specs.Value.{val};
ghost use Rattle.range.specs.Interval.{interval_of};
ghost use Rattle.evaluate.specs.Operator.{WIDEST};
ghost use Rattle.request.specs.Request.{request_of, all_up_to, all_below, widths, ids, typed, is_bool_value, is_range_of, declarable};

use crate::Request;
use crate::typing::{is_binary_typed, is_concat_typed, is_unary_typed};
use evaluate::code::WIDEST;
use evaluate::type_width;
use graph::NodeId;
use graph::layout::Region;
use graph::read::type_at;
use range::{Range, ScalarType};
use word::Word;

fn is_width(width: u16) -> bool
    ensures { result ≡ all_up_to WIDEST (width ∷ []) }
{
    width <= WIDEST
}

fn are_two_widths(first: u16, second: u16) -> bool
    ensures { result ≡ all_up_to WIDEST (first ∷ second ∷ []) }
{
    is_width(first) && is_width(second)
}

// Question 2: are all widths at most the widest?
pub fn are_widths(request: Request) -> bool
    ensures { result ≡ all_up_to WIDEST (widths (request_of request)) }
{
    match request {
        Request::Constant(_, ty) => is_width(type_width(ty)),
        Request::Input(_, _, ty) => is_width(type_width(ty)),
        Request::Effect(_, ty) => is_width(type_width(ty)),
        Request::Unary(_, ty, op) => are_two_widths(type_width(ty), op.width()),
        Request::Binary(_, _, ty, _) => is_width(type_width(ty)),
        Request::Slice(_, _, width) => is_width(width),
        Request::Concat(_, _, low_width, width) => are_two_widths(low_width, width),
        Request::UnsignedRange(..) => true,
        Request::Guard(..) => true,
        Request::UnnamedLeaf(width) => is_width(width),
        Request::UnnamedOperation(_, _, width, parameter) => are_two_widths(width, parameter),
    }
}

fn is_id(nodes: u64, id: NodeId) -> bool
    ensures { result ≡ all_below nodes (id.0 ∷ []) }
{
    id.0 < nodes
}

fn are_two_ids(nodes: u64, first: NodeId, second: NodeId) -> bool
    ensures { result ≡ all_below nodes (first.0 ∷ second.0 ∷ []) }
{
    is_id(nodes, first) && is_id(nodes, second)
}

// Question 3: are all ids below the number of nodes?
pub fn are_ids(nodes: u64, request: Request) -> bool
    ensures { result ≡ all_below nodes (ids (request_of request)) }
{
    match request {
        Request::Constant(..) => true,
        Request::Input(..) => true,
        Request::Effect(..) => true,
        Request::Unary(value, _, _) => is_id(nodes, value),
        Request::Binary(left, right, _, _) => are_two_ids(nodes, left, right),
        Request::Slice(value, _, _) => is_id(nodes, value),
        Request::Concat(high, low, _, _) => are_two_ids(nodes, high, low),
        Request::UnsignedRange(value, _, _) => is_id(nodes, value),
        Request::Guard(condition, _) => is_id(nodes, condition),
        Request::UnnamedLeaf(_) => true,
        Request::UnnamedOperation(first, second, _, _) => are_two_ids(nodes, first, second),
    }
}

// Question 4: does the typing table hold?
pub fn is_typed(g: &Region, request: Request) -> bool
    ensures { result ≡ typed g.now (request_of request) }
{
    match request {
        Request::Unary(value, ty, op) => is_unary_typed(op, type_at(g, value), ty),
        Request::Binary(left, right, ty, op) => {
            is_binary_typed(op, type_at(g, left), type_at(g, right), ty)
        }
        Request::Concat(high, low, low_width, width) => {
            is_concat_typed(type_at(g, high), type_at(g, low), low_width, width)
        }
        Request::Guard(condition, _) => type_at(g, condition) == ScalarType::Bool,
        Request::UnnamedLeaf(_) => false,
        Request::UnnamedOperation(..) => false,
        _ => true,
    }
}

// Is a Bool 0 or 1?
fn is_bool_value(ty: ScalarType, value: Word) -> bool
    ensures { result ≡ is_bool_value ty (val value) }
{
    ty != ScalarType::Bool || value < Word::from(2)
}

// Is a range not empty and inside its type?
fn is_range_of(ty: ScalarType, range: Option<Range>) -> bool
    ensures { result ≡ is_range_of ty (interval_of range) }
{
    range.is_none_or(|given| given.min <= given.max && given.is_inside(ty))
}

// Question 5, of a constant's value and of an input's range.
pub fn is_declarable(request: Request) -> bool
    ensures { result ≡ declarable (request_of request) }
{
    match request {
        Request::Constant(value, ty) => is_bool_value(ty, value),
        Request::Input(_, range, ty) => is_range_of(ty, range),
        _ => true,
    }
}
