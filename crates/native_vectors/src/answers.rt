// The text of an answer. After a call's own answer stand the sums of all words.
ghost use Rattle.std.specs.Prelude.{◌≡◌, ◌≤◌, IfSome, length};

use crate::calls::{Outcome, Reply, perform};
use crate::guards::packed;
use crate::lines::call_of;
use crate::region::{Words, sums_of};
use answer::Refusal;
use native::Answer;
use text::{put_decimal, put_text_in_room};
use vector_lines::{put_word_in_room, put_word_line};
use word::Word;

// The most bytes of an answer.
pub(crate) const ROOM: usize = 72;

// Puts a name and a number's decimal digits at the start of out, and answers where they end.
fn put_numbered(name: &[u8], number: u64, out: &mut [u8; ROOM]) -> usize
    requires { length name.now ≤ 8 }
    ensures { result ≤ 28 }
{
    let end = put_text_in_room(name, out);
    end + put_decimal(number, &mut out[end..])
}

// Puts a name of six bytes and a word at the start of out, and answers where they end.
fn put_named(name: &[u8; 6], word: Word, out: &mut [u8; ROOM]) -> usize
    ensures { result ≡ 38 }
{
    let end = put_text_in_room(name, out);
    end + put_word_in_room(word, &mut out[end..])
}

// Puts what a call answered at the start of out, and answers where it ends.
fn put_reply(reply: Result<Reply, Refusal>, out: &mut [u8; ROOM]) -> usize
    ensures { result ≤ 38 }
{
    match reply {
        Ok(Reply::Answer(Answer::Id(id))) => put_numbered(b"id ", id.0, out),
        Ok(Reply::Kept(nodes)) => put_numbered(b"kept ", nodes, out),
        Ok(Reply::Value(Some(value))) => put_named(b"value ", value, out),
        Ok(Reply::Guard(Some(guard))) => put_named(b"guard ", packed(guard), out),
        Ok(Reply::Answer(Answer::None) | Reply::Value(None) | Reply::Guard(None)) => {
            put_text_in_room(b"none", out)
        }
        Ok(Reply::Answer(Answer::Done)) => put_text_in_room(b"done", out),
        Ok(Reply::Truth(true)) => put_text_in_room(b"yes", out),
        Ok(Reply::Truth(false)) => put_text_in_room(b"no", out),
        Err(refusal) => put_numbered(b"refused ", refusal.number(), out),
    }
}

// Puts a space, a word and a line end at the start of out, and answers how many bytes they have.
fn put_last(word: Word, out: &mut [u8]) -> usize
    requires { 34 ≤ length out.old }
    ensures { result ≡ 34 }
{
    out[0] = b' ';
    1 + put_word_line(word, &mut out[1..])
}

// Puts the answer's line at the start of out, and answers where it ends.
fn put_outcome(outcome: Outcome, words: &Words, out: &mut [u8; ROOM]) -> usize
    ensures { result ≤ ROOM }
{
    match outcome {
        Outcome::Answered(reply) => {
            let end = put_reply(reply, out);
            end + put_last(sums_of(words), &mut out[end..])
        }
        Outcome::Words(a, b) => {
            let end = put_named(b"words ", a, out);
            end + put_last(b, &mut out[end..])
        }
        Outcome::Done => put_text_in_room(b"done\n", out),
    }
}

// Performs the call of a line and puts its answer at the start of out, and answers where it ends. A malformed line has no answer.
pub(crate) fn put_answer_to(line: &[u8], words: &mut Words, out: &mut [u8]) -> Option<usize>
    ensures { IfSome result (λ end. end ≤ length out.old) }
{
    let outcome = perform(words, call_of(line.as_array()?)?)?;
    Some(put_outcome(outcome, words, out.first_chunk_mut()?))
}
