// The calls by their kinds: 1 to 10 are the records of docs/RECORDS.md, 11 to 15 literal, resolve, is_graph, guard and matches, and from 16
// on the words are handled. A kind's number stands only here, beside the call that it means.
use crate::guards::matched;
use crate::lines::Call;
use crate::region::{Words, peek, poke};
use crate::retains::retained;
use answer::Refusal;
use evaluate::code::{binary_of, unary_of};
use graph::read::range_of;
use graph::well_formed::is_graph;
use graph::{EffectId, InputId, NodeId};
use guard::Guard;
use native::{Answer, by_name, reading};
use word::Word;

// What a call answers that is not refused.
#[derive(Clone, Copy)]
pub(crate) enum Reply {
    Answer(Answer),
    Value(Option<Word>),
    Guard(Option<Guard>),
    Truth(bool),
    Kept(u64),
}

// What becomes of a line that is well formed.
#[derive(Clone, Copy)]
pub(crate) enum Outcome {
    Answered(Result<Reply, Refusal>),
    Words(Word, Word),
    Done,
}

// The calls that have a type. An operator's code that there is not is read as a region reads it.
fn unary(g: &mut [u64], call: Call) -> Option<Result<Answer, Refusal>> {
    let op = unary_of(call.flag, (call.a.lo % 65536) as u16);
    Some(by_name::unary(g, call.ty()?, op, call.id()))
}

fn binary(g: &mut [u64], call: Call) -> Option<Result<Answer, Refusal>> {
    let op = binary_of(call.flag);
    Some(by_name::binary(g, call.ty()?, op, call.id(), NodeId(call.a.lo)))
}

fn input(g: &mut [u64], call: Call) -> Option<Result<Answer, Refusal>> {
    let range = range_of(call.flag, call.a, call.b);
    Some(by_name::input(g, InputId(call.number), call.ty()?, range))
}

fn slice(g: &mut [u64], call: Call) -> Result<Answer, Refusal> {
    by_name::slice(g, call.id(), (call.a.lo % 65536) as u16, call.width)
}

fn concat(g: &mut [u64], call: Call) -> Result<Answer, Refusal> {
    let low_width = (call.b.lo % 65536) as u16;
    by_name::concat(g, call.id(), NodeId(call.a.lo), low_width, call.width)
}

// Performs the call on the first words, as many as it says. A kind, type or length that there is not is malformed. The calls that handle the words
// do so whatever the length given.
pub(crate) fn perform(words: &mut Words, call: Call) -> Option<Outcome> {
    let g = words.get_mut(..call.len)?;
    let id = call.id();
    let at = call.number as usize;
    let is_expected = call.flag != 0;
    let reply = match call.kind {
        1 => by_name::constant(g, call.ty()?, call.a).map(Reply::Answer),
        2 => input(g, call)?.map(Reply::Answer),
        3 => by_name::effect(g, EffectId(call.number), call.ty()?).map(Reply::Answer),
        4 => unary(g, call)?.map(Reply::Answer),
        5 => binary(g, call)?.map(Reply::Answer),
        6 => slice(g, call).map(Reply::Answer),
        7 => concat(g, call).map(Reply::Answer),
        8 => by_name::unsigned_range(g, id, call.a, call.b).map(Reply::Answer),
        9 => by_name::assume_guard(g, id, is_expected).map(Reply::Answer),
        10 => retained(words, call)?.map(Reply::Kept),
        11 => reading::literal(g, id).map(Reply::Value),
        12 => reading::resolve(g, id).map(Reply::Answer),
        13 => Ok(Reply::Truth(is_graph(g))),
        14 => reading::guard(g, id, is_expected).map(Reply::Guard),
        15 => matched(call).map(Reply::Truth),
        16 => {
            words.fill(0);
            return Some(Outcome::Done);
        }
        17 => return poke(words, at, call.a, call.b).map(|_| Outcome::Done),
        18 => return peek(words, at).map(|(a, b)| Outcome::Words(a, b)),
        _ => return None,
    };
    Some(Outcome::Answered(reply))
}
