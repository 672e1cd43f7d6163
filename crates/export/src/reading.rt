// The calls that read, for C and Rust: what they find goes into a lent slice, and the answer is 1. A slice of another length is answered
// WRONG_LENGTH. `.._in_graph` does not ask question 1: on a region that is no graph nothing is promised of it, a clause as in calls.rt.
ghost use Rattle.std.specs.Prelude.{true, ◌≡◌, length, ◌<◌, ◌/◌, ◌%◌, ◌^◌, [], ◌∷◌};
ghost use Rattle.word.specs.Value.{val};
ghost use Rattle.word.specs.Option.{from_bool};
ghost use Rattle.evaluate.specs.Answer.{outcome_of};
ghost use Rattle.graph.specs.Layout.{LIMIT};
ghost use Rattle.graph.specs.Node.{pair};
ghost use Rattle.graph.specs.WellFormed.{is_graph};
ghost use Rattle.guard.specs.Guard.{one_guard_of, guard_of};
ghost use Rattle.native.specs.Call.{answer_number, literal_in_graph, literal_call, resolve_in_graph, resolve_call};
ghost use Rattle.native.specs.Guard.{reading_of};
ghost use Rattle.export.specs.Export.{exported};
ghost use Rattle.export.specs.Reading.{put, written, unary_evaluated, binary_evaluated, masked, words_at, node_in_graph, node_call, guard_words, guard_written, guard_by_number, guard_numbered, values_guard, matches_by_code};

use answer::Refusal;
use evaluate::code::WIDEST_WORD;
use evaluate::one_operand::evaluate_unary;
use evaluate::two_operands::evaluate_binary;
use graph::NodeId;
use graph::layout::{Region, SIZE, count, start_of};
use graph::well_formed::is_graph;
use guard::Guard;
use native::{Answer, Numbered, reading, refused_as};
use range::typed::mask;
use request::codes::{binary_by_code, truth_by_number, type_by_code, unary_by_code};
use word::Word;

// The answer where a lent slice has another length than the words for it.
pub const WRONG_LENGTH: u64 = 0x8000_0000_0000_0001;

#[unsafe(no_mangle)]
pub extern "C" fn scalars_is_graph(g: &[u64]) -> u64
    ensures { result ≡ from_bool (is_graph g.now) }
{
    u64::from(is_graph(g))
}

// The region of a graph.
#[tactic(auto, using(graph::proofs::Grown::graph_facts))]
fn region_of(g: &[u64]) -> &Region
    requires { is_graph g.now ≡ true }
    ensures { result.now ≡ g.now }
{
    g.as_array().unwrap()
}

// Words go into a slice of their length.
fn put(out: &mut [u64], words: &[u64]) -> u64
    ensures { exported result out.new ≡ put (length words.now) words.now out.old }
{
    if out.len() != words.len() {
        return WRONG_LENGTH;
    }
    out.copy_from_slice(words);
    1
}

// A word's halves, the low one first.
#[tactic(auto, using(graph::proofs::Codes::halves))]
fn halves_of(word: Word) -> [u64; 2]
    ensures { result ≡ val word % 2 ^ 64 ∷ val word / 2 ^ 64 ∷ [] }
{
    [word.lo, word.hi]
}

// A value goes into a slice of two words. `write_guard` has the same match: one function over arrays would take a definition of its own, beside both.
fn write_value(out: &mut [u64], value: Result<Option<Word>, Refusal>) -> u64
    ensures { exported result out.new ≡ written (outcome_of value) out.old }
{
    match value {
        Ok(Some(found)) => put(out, &halves_of(found)),
        Ok(None) => Answer::None.number(),
        Err(refusal) => refused_as(refusal),
    }
}

// The value of a constant: 1 and its two halves; None; or a refusal.
#[unsafe(no_mangle)]
pub extern "C" fn scalars_literal_in_graph(g: &[u64], id: u64, out: &mut [u64]) -> u64
    requires { is_graph g.now ≡ true }
    ensures { exported result out.new ≡ written (literal_in_graph g.now id) out.old }
{
    write_value(out, reading::literal_in_graph(region_of(g), NodeId(id)))
}

#[unsafe(no_mangle)]
pub extern "C" fn scalars_literal(g: &[u64], id: u64, out: &mut [u64]) -> u64
    ensures { exported result out.new ≡ written (literal_call g.now id) out.old }
{
    write_value(out, reading::literal(g, NodeId(id)))
}

#[unsafe(no_mangle)]
pub extern "C" fn scalars_resolve_in_graph(g: &[u64], id: u64) -> u64
    requires { is_graph g.now ≡ true }
    ensures { result ≡ answer_number (resolve_in_graph g.now id) }
{
    reading::resolve_in_graph(region_of(g), NodeId(id)).number()
}

#[unsafe(no_mangle)]
pub extern "C" fn scalars_resolve(g: &[u64], id: u64) -> u64
    ensures { result ≡ answer_number (resolve_call g.now id) }
{
    reading::resolve(g, NodeId(id)).number()
}

// The words of a node.
fn words_at(g: &Region, node: u64) -> &[u64; SIZE]
    requires { node < LIMIT }
    ensures { result.now ≡ words_at g.now node }
{
    let start = start_of(node);
    g[start..start + SIZE].as_array().unwrap()
}

// A node: 1 and its words, which are its type, range, operation and alias.
#[unsafe(no_mangle)]
#[tactic(auto, using(graph::proofs::Grown::graph_facts), unfolding(crate::specs::Reading::node_in_graph))]
pub extern "C" fn scalars_node_in_graph(g: &[u64], id: u64, out: &mut [u64]) -> u64
    requires { is_graph g.now ≡ true }
    ensures { exported result out.new ≡ node_in_graph g.now id out.old }
{
    let graph = region_of(g);
    if count(graph) <= id {
        return refused_as(Refusal::Id);
    }
    put(out, words_at(graph, id))
}

#[tactic(auto, unfolding(crate::specs::Reading::node_call))]
#[unsafe(no_mangle)]
pub extern "C" fn scalars_node(g: &[u64], id: u64, out: &mut [u64]) -> u64
    ensures { exported result out.new ≡ node_call g.now id out.old }
{
    if is_graph(g) {
        scalars_node_in_graph(g, id, out)
    } else {
        refused_as(Refusal::Graph)
    }
}

// The words of a guard.
fn words_of(guard: Guard) -> [u64; 5]
    ensures { result ≡ guard_words (one_guard_of guard) }
{
    [
        guard.operation.code(),
        guard.left.0,
        guard.right.0,
        u64::from(guard.expected),
        u64::from(guard.host64),
    ]
}

fn write_guard(out: &mut [u64], found: Result<Option<Guard>, Refusal>) -> u64
    ensures { exported result out.new ≡ guard_written (reading_of found) out.old }
{
    match found {
        Ok(Some(guard)) => put(out, &words_of(guard)),
        Ok(None) => Answer::None.number(),
        Err(refusal) => refused_as(refusal),
    }
}

// Question 3, then what the expected answer's number names.
#[tactic(auto, unfolding(crate::specs::Reading::guard_by_number))]
fn guard_by_number(g: &Region, condition: u64, expected: u64) -> Result<Option<Guard>, Refusal>
    ensures { reading_of result ≡ guard_by_number g.now condition expected }
{
    if count(g) <= condition {
        return Err(Refusal::Id);
    }
    let wanted = truth_by_number(expected).ok_or(Refusal::Typing)?;
    reading::guard_in_graph(g, NodeId(condition), wanted)
}

// The guard of a condition: 1 and its words; None; or a refusal.
#[unsafe(no_mangle)]
pub extern "C" fn scalars_guard_in_graph(
    g: &[u64],
    condition: u64,
    expected: u64,
    out: &mut [u64],
) -> u64
    requires { is_graph g.now ≡ true }
    ensures { exported result out.new ≡ guard_written (guard_by_number g.now condition expected) out.old }
{
    write_guard(out, guard_by_number(region_of(g), condition, expected))
}

#[tactic(auto, unfolding(crate::specs::Reading::guard_numbered))]
#[unsafe(no_mangle)]
pub extern "C" fn scalars_guard(g: &[u64], condition: u64, expected: u64, out: &mut [u64]) -> u64
    ensures { exported result out.new ≡ guard_written (guard_numbered g.now condition expected) out.old }
{
    if is_graph(g) {
        scalars_guard_in_graph(g, condition, expected, out)
    } else {
        refused_as(Refusal::Graph)
    }
}

// A guard by its numbers, for values alone: its ids are not looked at.
fn values_guard(operator: u64, expected: u64, host64: u64) -> Option<Guard>
    ensures { guard_of result ≡ values_guard operator expected host64 }
{
    Some(Guard {
        operation: binary_by_code(operator)?,
        left: NodeId(0),
        right: NodeId(0),
        expected: truth_by_number(expected)?,
        host64: truth_by_number(host64)?,
    })
}

// Do two values match a guard? 1 or 0, or refused 4 where a number names nothing or the operator is none that it takes.
#[tactic(auto, unfolding(crate::specs::Reading::matches_by_code, word::specs::Value::val), using(crate::proofs::Numbers::number_match))]
#[unsafe(no_mangle)]
pub extern "C" fn scalars_matches(
    operator: u64,
    expected: u64,
    host64: u64,
    left_low: u64,
    left_high: u64,
    right_low: u64,
    right_high: u64,
) -> u64
    ensures { result ≡ matches_by_code operator expected host64 (pair left_low left_high) (pair right_low right_high) }
{
    let Some(guard) = values_guard(operator, expected, host64) else {
        return refused_as(Refusal::Typing);
    };
    let left = Word {
        lo: left_low,
        hi: left_high,
    };
    let right = Word {
        lo: right_low,
        hi: right_high,
    };
    guard.matches(left, right).number()
}

// An operator by its code on patterns, after question 2.
#[tactic(auto, unfolding(crate::specs::Reading::unary_evaluated))]
fn unary_evaluated(operator: u64, parameter: u64, value: Word) -> Result<Option<Word>, Refusal>
    ensures { outcome_of result ≡ unary_evaluated operator parameter (val value) }
{
    if WIDEST_WORD < parameter {
        return Err(Refusal::Width);
    }
    let op = unary_by_code(operator, parameter).ok_or(Refusal::Typing)?;
    evaluate_unary(op, value)
}

#[tactic(auto, unfolding(crate::specs::Reading::binary_evaluated))]
fn binary_evaluated(
    operator: u64,
    code: u64,
    width: u64,
    left: Word,
    right: Word,
) -> Result<Option<Word>, Refusal>
    ensures { outcome_of result ≡ binary_evaluated operator code width (val left) (val right) }
{
    if WIDEST_WORD < width {
        return Err(Refusal::Width);
    }
    let ty = type_by_code(code, width).ok_or(Refusal::Typing)?;
    let op = binary_by_code(operator).ok_or(Refusal::Typing)?;
    evaluate_binary(op, ty, left, right)
}

#[tactic(auto, unfolding(crate::specs::Reading::masked))]
fn mask_of(width: u64) -> Result<Option<Word>, Refusal>
    ensures { outcome_of result ≡ masked width }
{
    if width <= WIDEST_WORD {
        Ok(Some(mask(width as u16)))
    } else {
        Err(Refusal::Width)
    }
}

#[tactic(auto, unfolding(word::specs::Value::val))]
#[unsafe(no_mangle)]
pub extern "C" fn scalars_evaluate_unary(
    operator: u64,
    parameter: u64,
    low: u64,
    high: u64,
    out: &mut [u64],
) -> u64
    ensures { exported result out.new ≡ written (unary_evaluated operator parameter (pair low high)) out.old }
{
    write_value(
        out,
        unary_evaluated(operator, parameter, Word { lo: low, hi: high }),
    )
}

#[tactic(auto, unfolding(word::specs::Value::val))]
#[unsafe(no_mangle)]
pub extern "C" fn scalars_evaluate_binary(
    operator: u64,
    code: u64,
    width: u64,
    left_low: u64,
    left_high: u64,
    right_low: u64,
    right_high: u64,
    out: &mut [u64],
) -> u64
    ensures { exported result out.new ≡ written (binary_evaluated operator code width (pair left_low left_high) (pair right_low right_high)) out.old }
{
    let left = Word {
        lo: left_low,
        hi: left_high,
    };
    let right = Word {
        lo: right_low,
        hi: right_high,
    };
    write_value(out, binary_evaluated(operator, code, width, left, right))
}

#[unsafe(no_mangle)]
pub extern "C" fn scalars_mask(width: u64, out: &mut [u64]) -> u64
    ensures { exported result out.new ≡ written (masked width) out.old }
{
    write_value(out, mask_of(width))
}
