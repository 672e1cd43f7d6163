// The lines of the program, put at the start of a lent slice. They are byte strings, and not `write!`: `Display` promises nothing of the
// bytes that it writes, and these contracts name each of them.
ghost use Rattle.std.specs.Prelude.{cond, ◌≡◌, ◌≤◌, leb, length};
ghost use Rattle.text.specs.Text.{placed};
ghost use Rattle.answer.specs.Refusal.{refusal_number};
ghost use Rattle.native.specs.Call.{answer_of};
ghost use Rattle.native.specs.Retain.{outcome_of};
ghost use Rattle.record.specs.Line.{LINE, BAD, REFUSED, numbered, answer_line, retain_line, nodes_line, Puts};

use answer::Refusal;
use native::Answer;
use text::{put_decimal_in_room, put_text_in_room};

// Room for any line.
pub const LINE: usize = 32;

pub(crate) type Line = [u8; LINE];

// A word, a number and a newline.
#[tactic(auto, using(crate::proofs::Steps::digits_64))]
fn put_numbered(word: &[u8], number: u64, line: &mut Line) -> usize
    requires { length word.now ≤ 11 }
    ensures { Puts (numbered word.now number) line.old line.new result }
{
    let after = put_text_in_room(word, line);
    let end = after + put_decimal_in_room(number, &mut line[after..]);
    end + put_text_in_room(b"\n", &mut line[end..])
}

pub(crate) fn put_refusal(refusal: Refusal, line: &mut Line) -> usize
    ensures { Puts (numbered REFUSED (refusal_number refusal)) line.old line.new result }
{
    put_numbered(b"refused ", refusal.number(), line)
}

pub(crate) fn put_answer(answer: Result<Answer, Refusal>, line: &mut Line) -> usize
    ensures { Puts (answer_line (answer_of answer)) line.old line.new result }
{
    match answer {
        Ok(Answer::Id(id)) => put_numbered(b"id ", id.0, line),
        Ok(Answer::None) => put_text_in_room(b"none\n", line),
        Ok(Answer::Done) => put_text_in_room(b"done\n", line),
        Err(refusal) => put_refusal(refusal, line),
    }
}

pub(crate) fn put_retained(retained: Result<u64, Refusal>, line: &mut Line) -> usize
    ensures { Puts (retain_line (outcome_of retained)) line.old line.new result }
{
    match retained {
        Ok(nodes) => put_numbered(b"kept ", nodes, line),
        Err(refusal) => put_refusal(refusal, line),
    }
}

pub(crate) fn put_bad(line: &mut Line) -> usize
    ensures { Puts BAD line.old line.new result }
{
    put_text_in_room(b"bad record\n", line)
}

// The last line: the number of nodes. Without room for a line nothing is put, and the answer is 0.
pub fn put_nodes(nodes: u64, line: &mut [u8]) -> usize
    ensures value { result ≡ cond (leb LINE (length line.old)) (length (nodes_line nodes)) 0 }
    ensures line_after { line.new ≡ cond (leb LINE (length line.old)) (placed line.old (nodes_line nodes)) line.old }
{
    match line.first_chunk_mut() {
        Some(line) => put_numbered(b"nodes ", nodes, line),
        None => 0,
    }
}
