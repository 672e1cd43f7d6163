// The requests for C and Rust: a type is its code and width, an operator its code, an answer its number.
// Each stands in two tiers. `.._in_graph` does not ask question 1: it is for a caller that knows the region to be a graph, as every call leaves it.
// On another region nothing is promised of it, not even that it touches lent words alone. C lends words: what they are can stand in a clause alone.
ghost use Rattle.std.specs.Prelude.{true, ◌≡◌};
ghost use Rattle.graph.specs.Node.{pair, range_of};
ghost use Rattle.graph.specs.WellFormed.{is_graph};
ghost use Rattle.request.specs.Request.{request_of, unsigned_range};
ghost use Rattle.native.specs.Perform.{request_in_graph, request_call};
ghost use Rattle.export.specs.Numbers.{constant_by_code, input_by_code, effect_by_code, unary_by_codes, binary_by_codes, slice_by_numbers, concat_by_numbers, guard_by_numbers};
ghost use Rattle.export.specs.Export.{exported, numbered};

use crate::requests::{
    binary_request, concat_request, constant_request, effect_request, guard_request, input_request,
    range_of_ends, range_request, slice_request, unary_request,
};
use native::Numbered;
use native::perform::{call, call_in_graph};
use request::Request;
use word::Word;

// The `unwrap` stands here, in guards.rt, marks.rt and retain_nodes.rt: what a function leaves that lends a `&mut` on, no ordinary clause can say.
#[tactic(auto, using(graph::proofs::Grown::graph_facts))]
fn asked_in_graph(g: &mut [u64], request: Request) -> u64
    requires { is_graph g.old ≡ true }
    ensures { exported result g.new ≡ numbered (request_in_graph g.old (request_of request)) }
{
    let graph = g.as_mut_array().unwrap();
    call_in_graph(graph, request).number()
}

fn asked(g: &mut [u64], request: Request) -> u64
    ensures { exported result g.new ≡ numbered (request_call g.old (request_of request)) }
{
    call(g, request).number()
}

#[tactic(auto, unfolding(word::specs::Value::val))]
#[unsafe(no_mangle)]
pub extern "C" fn scalars_constant_in_graph(
    g: &mut [u64],
    code: u64,
    width: u64,
    low: u64,
    high: u64,
) -> u64
    requires { is_graph g.old ≡ true }
    ensures { exported result g.new ≡ numbered (request_in_graph g.old (constant_by_code code width (pair low high))) }
{
    asked_in_graph(g, constant_request(code, width, Word { lo: low, hi: high }))
}

#[tactic(auto, unfolding(word::specs::Value::val))]
#[unsafe(no_mangle)]
pub extern "C" fn scalars_constant(g: &mut [u64], code: u64, width: u64, low: u64, high: u64) -> u64
    ensures { exported result g.new ≡ numbered (request_call g.old (constant_by_code code width (pair low high))) }
{
    asked(g, constant_request(code, width, Word { lo: low, hi: high }))
}

#[unsafe(no_mangle)]
pub extern "C" fn scalars_input_in_graph(
    g: &mut [u64],
    number: u64,
    code: u64,
    width: u64,
    flag: u64,
    min_low: u64,
    min_high: u64,
    max_low: u64,
    max_high: u64,
) -> u64
    requires { is_graph g.old ≡ true }
    ensures { exported result g.new ≡ numbered (request_in_graph g.old (input_by_code number code width (range_of flag (pair min_low min_high) (pair max_low max_high)))) }
{
    let range = range_of_ends(flag, min_low, min_high, max_low, max_high);
    asked_in_graph(g, input_request(number, code, width, range))
}

#[unsafe(no_mangle)]
pub extern "C" fn scalars_input(
    g: &mut [u64],
    number: u64,
    code: u64,
    width: u64,
    flag: u64,
    min_low: u64,
    min_high: u64,
    max_low: u64,
    max_high: u64,
) -> u64
    ensures { exported result g.new ≡ numbered (request_call g.old (input_by_code number code width (range_of flag (pair min_low min_high) (pair max_low max_high)))) }
{
    let range = range_of_ends(flag, min_low, min_high, max_low, max_high);
    asked(g, input_request(number, code, width, range))
}

#[unsafe(no_mangle)]
pub extern "C" fn scalars_effect_in_graph(g: &mut [u64], number: u64, code: u64, width: u64) -> u64
    requires { is_graph g.old ≡ true }
    ensures { exported result g.new ≡ numbered (request_in_graph g.old (effect_by_code number code width)) }
{
    asked_in_graph(g, effect_request(number, code, width))
}

#[unsafe(no_mangle)]
pub extern "C" fn scalars_effect(g: &mut [u64], number: u64, code: u64, width: u64) -> u64
    ensures { exported result g.new ≡ numbered (request_call g.old (effect_by_code number code width)) }
{
    asked(g, effect_request(number, code, width))
}

#[unsafe(no_mangle)]
pub extern "C" fn scalars_unary_in_graph(
    g: &mut [u64],
    code: u64,
    width: u64,
    operator: u64,
    parameter: u64,
    id: u64,
) -> u64
    requires { is_graph g.old ≡ true }
    ensures { exported result g.new ≡ numbered (request_in_graph g.old (unary_by_codes code width operator parameter id)) }
{
    asked_in_graph(g, unary_request(code, width, operator, parameter, id))
}

#[unsafe(no_mangle)]
pub extern "C" fn scalars_unary(
    g: &mut [u64],
    code: u64,
    width: u64,
    operator: u64,
    parameter: u64,
    id: u64,
) -> u64
    ensures { exported result g.new ≡ numbered (request_call g.old (unary_by_codes code width operator parameter id)) }
{
    asked(g, unary_request(code, width, operator, parameter, id))
}

#[unsafe(no_mangle)]
pub extern "C" fn scalars_binary_in_graph(
    g: &mut [u64],
    code: u64,
    width: u64,
    operator: u64,
    left: u64,
    right: u64,
) -> u64
    requires { is_graph g.old ≡ true }
    ensures { exported result g.new ≡ numbered (request_in_graph g.old (binary_by_codes code width operator left right)) }
{
    asked_in_graph(g, binary_request(code, width, operator, left, right))
}

#[unsafe(no_mangle)]
pub extern "C" fn scalars_binary(
    g: &mut [u64],
    code: u64,
    width: u64,
    operator: u64,
    left: u64,
    right: u64,
) -> u64
    ensures { exported result g.new ≡ numbered (request_call g.old (binary_by_codes code width operator left right)) }
{
    asked(g, binary_request(code, width, operator, left, right))
}

#[unsafe(no_mangle)]
pub extern "C" fn scalars_slice_in_graph(g: &mut [u64], id: u64, offset: u64, width: u64) -> u64
    requires { is_graph g.old ≡ true }
    ensures { exported result g.new ≡ numbered (request_in_graph g.old (slice_by_numbers id offset width)) }
{
    asked_in_graph(g, slice_request(id, offset, width))
}

#[unsafe(no_mangle)]
pub extern "C" fn scalars_slice(g: &mut [u64], id: u64, offset: u64, width: u64) -> u64
    ensures { exported result g.new ≡ numbered (request_call g.old (slice_by_numbers id offset width)) }
{
    asked(g, slice_request(id, offset, width))
}

#[unsafe(no_mangle)]
pub extern "C" fn scalars_concat_in_graph(
    g: &mut [u64],
    high: u64,
    low: u64,
    low_width: u64,
    width: u64,
) -> u64
    requires { is_graph g.old ≡ true }
    ensures { exported result g.new ≡ numbered (request_in_graph g.old (concat_by_numbers high low low_width width)) }
{
    asked_in_graph(g, concat_request(high, low, low_width, width))
}

#[unsafe(no_mangle)]
pub extern "C" fn scalars_concat(
    g: &mut [u64],
    high: u64,
    low: u64,
    low_width: u64,
    width: u64,
) -> u64
    ensures { exported result g.new ≡ numbered (request_call g.old (concat_by_numbers high low low_width width)) }
{
    asked(g, concat_request(high, low, low_width, width))
}

#[unsafe(no_mangle)]
pub extern "C" fn scalars_unsigned_range_in_graph(
    g: &mut [u64],
    id: u64,
    low_low: u64,
    low_high: u64,
    high_low: u64,
    high_high: u64,
) -> u64
    requires { is_graph g.old ≡ true }
    ensures { exported result g.new ≡ numbered (request_in_graph g.old (unsigned_range id (pair low_low low_high) (pair high_low high_high))) }
{
    asked_in_graph(g, range_request(id, low_low, low_high, high_low, high_high))
}

#[unsafe(no_mangle)]
pub extern "C" fn scalars_unsigned_range(
    g: &mut [u64],
    id: u64,
    low_low: u64,
    low_high: u64,
    high_low: u64,
    high_high: u64,
) -> u64
    ensures { exported result g.new ≡ numbered (request_call g.old (unsigned_range id (pair low_low low_high) (pair high_low high_high))) }
{
    asked(g, range_request(id, low_low, low_high, high_low, high_high))
}

#[unsafe(no_mangle)]
pub extern "C" fn scalars_assume_guard_in_graph(g: &mut [u64], condition: u64, expected: u64) -> u64
    requires { is_graph g.old ≡ true }
    ensures { exported result g.new ≡ numbered (request_in_graph g.old (guard_by_numbers condition expected)) }
{
    asked_in_graph(g, guard_request(condition, expected))
}

#[unsafe(no_mangle)]
pub extern "C" fn scalars_assume_guard(g: &mut [u64], condition: u64, expected: u64) -> u64
    ensures { exported result g.new ≡ numbered (request_call g.old (guard_by_numbers condition expected)) }
{
    asked(g, guard_request(condition, expected))
}
