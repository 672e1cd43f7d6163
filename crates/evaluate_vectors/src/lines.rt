// The text of a vector, and of an answer.
// A vector: two hex digits of the code, two of the type, two of the width, and 32 of each of the four operands.
// After each field stands a space, and after the last one a line end. The fields stand at fixed places, so that a reader that splits them off would say no more.
ghost use Rattle.std.specs.Prelude.{◌≡◌, ◌≤◌, IfSome, length};

use crate::answers::{Reply, Vector, answer_of};
use answer::Refusal;
use evaluate::code::type_of;
use range::Range;
use text::put_text_in_room;
use vector_lines::{number_of, put_word_in_room, put_word_line, word_of};

// The bytes of a vector, and the most that an answer has.
pub(crate) const LINE: usize = 141;

pub(crate) const ROOM: usize = 66;

fn vector_of(line: &[u8; LINE]) -> Option<Vector> {
    let code = number_of(line[..3].strip_suffix(b" ")?)?;
    let type_code = number_of(line[3..6].strip_suffix(b" ")?)?;
    let width = u16::try_from(number_of(line[6..9].strip_suffix(b" ")?)?).ok()?;
    let ty = type_of(type_code, width)?;
    let a = word_of(line[9..42].strip_suffix(b" ")?)?;
    let b = word_of(line[42..75].strip_suffix(b" ")?)?;
    let c = word_of(line[75..108].strip_suffix(b" ")?)?;
    let d = word_of(line[108..].strip_suffix(b"\n")?)?;
    Some(Vector {
        code,
        ty,
        width,
        a,
        b,
        c,
        d,
    })
}

fn put_range(range: Range, out: &mut [u8; ROOM]) -> usize
    ensures { result ≡ ROOM }
{
    let middle = put_word_in_room(range.min.as_word(), out);
    out[middle] = b' ';
    let next = middle + 1;
    next + put_word_line(range.max.as_word(), &mut out[next..])
}

// The number of a question is one digit.
fn put_refusal(refusal: Refusal, out: &mut [u8; ROOM]) -> usize
    ensures { result ≡ 10 }
{
    let end = put_text_in_room(b"refused ", out);
    let digit = b'0' + (refusal.number() % 10) as u8;
    end + put_text_in_room(&[digit, b'\n'], &mut out[end..])
}

// Puts the answer's line at the start of out, and answers where it ends.
fn put_answer(answer: Result<Reply, Refusal>, out: &mut [u8; ROOM]) -> usize
    ensures { result ≤ ROOM }
{
    match answer {
        Ok(Reply::Pattern(Some(w))) => put_word_line(w, out),
        Ok(Reply::Interval(Some(range))) => put_range(range, out),
        Ok(Reply::Pattern(None) | Reply::Interval(None)) => put_text_in_room(b"none\n", out),
        Err(refusal) => put_refusal(refusal, out),
    }
}

// Puts the answer to a vector at the start of out, and answers where it ends. A malformed vector has no answer.
pub(crate) fn put_answer_to(line: &[u8], out: &mut [u8]) -> Option<usize>
    ensures { IfSome result (λ end. end ≤ length out.old) }
{
    let answer = answer_of(vector_of(line.as_array()?)?)?;
    Some(put_answer(answer, out.first_chunk_mut()?))
}
