// The text of a vector, and of an answer.
// A vector: two hex digits of the operation's code, a space, 32 of the left operand, a space, 32 of the right one, a line end.
// The fields stand at fixed places, so that a reader that splits them off would say no more.
ghost use Rattle.std.specs.Prelude.{◌≤◌, IfSome, length};

use crate::answers::{Answer, answer_of};
use text::put_text_in_room;
use vector_lines::{number_of, put_word_line, word_of};

// The bytes of a vector, and the most that an answer has.
pub(crate) const LINE: usize = 69;

pub(crate) const ROOM: usize = 33;

// The answer to a vector that is well formed.
fn answer_to(line: &[u8; LINE]) -> Option<Answer> {
    let code = number_of(line[..3].strip_suffix(b" ")?)?;
    let a = word_of(line[3..36].strip_suffix(b" ")?)?;
    let b = word_of(line[36..].strip_suffix(b"\n")?)?;
    answer_of(code, a, b)
}

// Puts the answer's line at the start of out, and answers where it ends.
fn put_answer(answer: Answer, out: &mut [u8; ROOM]) -> usize
    ensures { result ≤ ROOM }
{
    match answer {
        Some(w) => put_word_line(w, out),
        None => put_text_in_room(b"none\n", out),
    }
}

// Puts the answer to a vector at the start of out, and answers where it ends. A malformed vector has no answer.
pub(crate) fn put_answer_to(line: &[u8], out: &mut [u8]) -> Option<usize>
    ensures { IfSome result (λ end. end ≤ length out.old) }
{
    let answer = answer_to(line.as_array()?)?;
    Some(put_answer(answer, out.first_chunk_mut()?))
}
