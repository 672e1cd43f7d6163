// A record's body to the request that it names. Each reader splits its fields off, one after the other, and nothing may be left.
ghost use Rattle.std.specs.Prelude.{◌≡◌, ◌≤◌, Some, None, MatchOption, leb, length, drop};
ghost use Rattle.word.specs.Option.{provided};
ghost use Rattle.record.specs.Record.{named_of, type_in, constant_body, input_body, input_flag, effect_body, unary_body, binary_body, slice_body, concat_body, range_body, guard_body, request_in};

use crate::fields::{id_of, word_of};
use graph::read::range_of;
use graph::{EffectId, InputId, NodeId};
use range::ScalarType;
use request::Request;
use request::codes::{binary_by_code, truth_by_number, type_by_code, unary_by_code};

// The type in the first two bytes of a part, and what is left.
fn type_field(part: &[u8]) -> Option<(ScalarType, &[u8])>
    ensures { MatchOption result (provided (leb 2 (length part.now)) (type_in part.now) ≡ None) (λ p. (2 ≤ length part.now) × (type_in part.now ≡ Some p.0) × (p.1.now ≡ drop 2 part.now)) }
{
    let [code, width, rest @ ..] = part else {
        return None;
    };
    Some((type_by_code(u64::from(*code), u64::from(*width))?, rest))
}

fn constant(body: &[u8]) -> Option<Request>
    ensures { named_of result ≡ constant_body body.now }
{
    let (ty, rest) = type_field(body)?;
    let value = rest.as_array()?;
    Some(Request::Constant(word_of(value), ty))
}

#[tactic(auto, using(crate::proofs::Little::little_8))]
fn input(body: &[u8]) -> Option<Request>
    ensures { named_of result ≡ input_body body.now }
{
    let (number, rest) = body.split_first_chunk()?;
    let (ty, rest) = type_field(rest)?;
    input_range(u64::from_le_bytes(*number), ty, rest)
}

// Without a range nothing is left after the flag.
fn input_range(number: u64, ty: ScalarType, rest: &[u8]) -> Option<Request>
    ensures { named_of result ≡ input_flag number ty rest.now }
{
    match rest {
        [0] => Some(Request::Input(InputId(number), None, ty)),
        [1, rest @ ..] => {
            let (min, rest) = rest.split_first_chunk()?;
            let max = rest.as_array()?;
            let range = range_of(1, word_of(min), word_of(max));
            Some(Request::Input(InputId(number), range, ty))
        }
        _ => None,
    }
}

fn effect(body: &[u8]) -> Option<Request>
    ensures { named_of result ≡ effect_body body.now }
{
    let (number, rest) = body.split_first_chunk()?;
    let [code, width] = rest else {
        return None;
    };
    let ty = type_by_code(u64::from(*code), u64::from(*width))?;
    Some(Request::Effect(EffectId(u64::from_le_bytes(*number)), ty))
}

fn unary(body: &[u8]) -> Option<Request>
    ensures { named_of result ≡ unary_body body.now }
{
    let (ty, rest) = type_field(body)?;
    let [code, parameter, rest @ ..] = rest else {
        return None;
    };
    let op = unary_by_code(u64::from(*code), u64::from(*parameter))?;
    let id = rest.as_array()?;
    Some(Request::Unary(NodeId(id_of(id)), ty, op))
}

fn binary(body: &[u8]) -> Option<Request>
    ensures { named_of result ≡ binary_body body.now }
{
    let (ty, rest) = type_field(body)?;
    let (code, rest) = rest.split_first()?;
    let op = binary_by_code(u64::from(*code))?;
    let (left, rest) = rest.split_first_chunk()?;
    let right = rest.as_array()?;
    Some(Request::Binary(NodeId(id_of(left)), NodeId(id_of(right)), ty, op))
}

fn slice(body: &[u8]) -> Option<Request>
    ensures { named_of result ≡ slice_body body.now }
{
    let (id, rest) = body.split_first_chunk()?;
    let (offset, rest) = rest.split_first_chunk()?;
    let [width] = rest else {
        return None;
    };
    Some(Request::Slice(
        NodeId(id_of(id)),
        u16::from_le_bytes(*offset),
        u16::from(*width),
    ))
}

fn concat(body: &[u8]) -> Option<Request>
    ensures { named_of result ≡ concat_body body.now }
{
    let (high, rest) = body.split_first_chunk()?;
    let (low, rest) = rest.split_first_chunk()?;
    let [low_width, width] = rest else {
        return None;
    };
    Some(Request::Concat(
        NodeId(id_of(high)),
        NodeId(id_of(low)),
        u16::from(*low_width),
        u16::from(*width),
    ))
}

fn unsigned_range(body: &[u8]) -> Option<Request>
    ensures { named_of result ≡ range_body body.now }
{
    let (id, rest) = body.split_first_chunk()?;
    let (low, rest) = rest.split_first_chunk()?;
    let high = rest.as_array()?;
    Some(Request::UnsignedRange(NodeId(id_of(id)), word_of(low), word_of(high)))
}

fn guard(body: &[u8]) -> Option<Request>
    ensures { named_of result ≡ guard_body body.now }
{
    let (condition, rest) = body.split_first_chunk()?;
    let [flag] = rest else {
        return None;
    };
    Some(Request::Guard(NodeId(id_of(condition)), truth_by_number(u64::from(*flag))?))
}

// The request of a tag other than retain's, and a body. Each tag stands here alone, beside the reader of its body.
#[tactic(auto, unfolding(crate::specs::Record::request_in))]
pub fn request_in(tag: u8, body: &[u8]) -> Option<Request>
    ensures { named_of result ≡ request_in tag body.now }
{
    match tag {
        1 => constant(body),
        2 => input(body),
        3 => effect(body),
        4 => unary(body),
        5 => binary(body),
        6 => slice(body),
        7 => concat(body),
        8 => unsigned_range(body),
        9 => guard(body),
        _ => None,
    }
}
