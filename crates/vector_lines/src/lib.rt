// The text of test vectors: hex digits that are read, and words that are put into a lent slice in hex digits; and the replay of vectors.
#![tactic(auto)]

ghost use Rattle.std.specs.Io.KnownBytes.{Consumes, IsAtEnd};
ghost use Rattle.std.specs.Prelude.{[], ◌∷◌, ◌++◌, ◌≡◌, ◌<◌, ◌≤◌, ◌*◌, ◌/◌, IfSome, IsFalse, IsTrue, OnOk, eqb, leb, ltb, length, take};
ghost use Rattle.word.specs.Value.{val, number_of};
ghost use Rattle.word.specs.Option.{only, provided};
ghost use Rattle.text.specs.Text.{placed, fitting, placed_if, end_of, placed_in};
ghost use Rattle.vector_lines.specs.Replay.{ReplaysWhole, ReplaysSome, Replays};
ghost use Rattle.vector_lines.specs.Text.{digit_value, spelled, hex_digits};

use std::io::{ErrorKind, Read, Result, Write};
use text::put_text_in_room;
use word::Word;

// A hex digit's value. `char::to_digit` would also read the capitals A to F.
#[tactic(auto, unfolding(crate::specs::Text::digit_value))]
fn digit_value(b: u8) -> Option<u64>
    ensures value { result ≡ only (ltb (digit_value b) 16) (digit_value b) }
    ensures bound { IfSome result (λ d. d < 16) }
{
    match b {
        b'0'..=b'9' => Some(u64::from(b - b'0')),
        b'a'..=b'f' => Some(u64::from(b - b'a') + 10),
        _ => None,
    }
}

// The number that up to 16 hex digits spell.
pub fn number_of(text: &[u8]) -> Option<u64>
    ensures { result ≡ provided (leb (length text.now) 16) (spelled text.now) }
{
    if 16 < text.len() {
        return None;
    }
    let mut n = 0;
    for &b in text {
        n = n * 16 + digit_value(b)?;
    }
    Some(n)
}

// The word that 32 hex digits spell.
pub fn word_of(text: &[u8]) -> Option<Word>
    ensures { number_of result ≡ provided (eqb (length text.now) 32) (spelled text.now) }
{
    if text.len() != 32 {
        return None;
    }
    let hi = number_of(&text[..16])?;
    let lo = number_of(&text[16..])?;
    Some(Word { lo, hi })
}

// Puts the 16 hex digits of a half at the start of out, and answers how many there are.
fn put_half(half: u64, out: &mut [u8]) -> usize
    requires { 16 ≤ length out.old }
    ensures value { result ≡ 16 }
    ensures out_after { out.new ≡ placed out.old (hex_digits 16 half) }
{
    let mut text = [0u8; 16];
    io::hex(half, 16, &mut text);
    put_text_in_room(&text, out)
}

// Puts the 32 hex digits of a word at the start of out, and answers how many there are.
pub fn put_word_in_room(w: Word, out: &mut [u8]) -> usize
    requires { 32 ≤ length out.old }
    ensures value { result ≡ 32 }
    ensures out_after { out.new ≡ placed out.old (hex_digits 32 (val w)) }
{
    let middle = put_half(w.hi, out);
    middle + put_half(w.lo, &mut out[middle..])
}

// The same where there is room for it, and else nothing.
pub fn put_word(w: Word, out: &mut [u8]) -> usize
    ensures value { result ≡ fitting 32 out.old }
    ensures out_after { out.new ≡ placed_if 32 out.old (hex_digits 32 (val w)) }
{
    if 32 <= out.len() {
        put_word_in_room(w, out)
    } else {
        0
    }
}

// The same from `at` on, a place that may lie past the slice's end: where there is room for it, and else nothing. Answers where it ends.
#[tactic(auto, unfolding(text::specs::Text::placed))]
pub fn put_word_at(w: Word, out: &mut [u8], at: usize) -> usize
    ensures value { result ≡ end_of out.old at 32 }
    ensures out_after { out.new ≡ placed_in out.old at 32 (hex_digits 32 (val w)) }
{
    if at <= out.len() {
        at + put_word(w, &mut out[at..])
    } else {
        at
    }
}

// Fills a block with what a reader gives, and answers how many bytes came, and whether a read failed: the bytes are the next ones of the reader,
// in their order. Where no read failed there are fewer than the block holds at the reader's end alone. The rest of the block may be anything.
fn read_block<R: Read>(reader: &mut R, block: &mut [u8]) -> (usize, Result<()>)
    ensures in_bounds { result.0 ≤ length block.old }
    ensures bytes { Consumes (R.remaining reader.old) (R.remaining reader.new) (take result.0 block.new) }
    ensures end { OnOk result.1 (result.0 < length block.old → IsAtEnd (R.remaining reader.new)) }
{
    // Each read decides how far it goes, so that no `for` fits.
    let mut at = 0;
    while at < block.len() {
        match reader.read(&mut block[at..]) {
            Ok(0) => return (at, Ok(())),
            Ok(got) => at += got,
            Err(error) => return (at, Err(error)),
        }
    }
    (at, Ok(()))
}

// Fills a block with what a reader gives, and answers how many bytes came: they are the next ones of the reader, in their order. There are fewer
// than the block holds at the reader's end, or where a read fails. The rest of the block may be anything.
pub fn read_full<R: Read>(reader: &mut R, block: &mut [u8]) -> usize
    ensures in_bounds { result ≤ length block.old }
    ensures bytes { Consumes (R.remaining reader.old) (R.remaining reader.new) (take result block.new) }
{
    let (n, _) = read_block(reader, block);
    n
}

// Puts the digits of a word and a line end at the start of out, and answers how many bytes they have.
pub fn put_word_line(w: Word, out: &mut [u8]) -> usize
    requires { 33 ≤ length out.old }
    ensures value { result ≡ 33 }
    ensures out_after { out.new ≡ placed out.old (hex_digits 32 (val w) ++ (10 ∷ [])) }
{
    let end = put_word_in_room(w, out);
    end + put_text_in_room(b"\n", &mut out[end..])
}

// How far the lines of a block were answered: how many bytes the answers have, and whether each line has one.
#[derive(Clone, Copy)]
struct Answered {
    len: usize,
    is_each: bool,
}

// Puts the answers to the lines of block, each of `size` bytes, at the start of out, up to one that has no answer.
fn answer_lines<F: FnMut(&[u8], &mut [u8]) -> Option<usize>>(
    block: &[u8],
    size: usize,
    out: &mut [u8],
    answer: &mut F,
) -> Answered
    requires some_byte { 0 < size }
    requires callable { F.IsAlwaysCallable answer.old }
    ensures in_bounds { result.len ≤ length out.new }
    ensures callable { IsTrue result.is_each → F.IsAlwaysCallable answer.new }
    ensures each { IsTrue result.is_each → ReplaysWhole F.FnMut size answer.old block.now (take result.len out.new) answer.new }
    ensures some { IsFalse result.is_each → ReplaysSome F.FnMut size answer.old block.now (take result.len out.new) }
{
    let mut len = 0;
    for line in block.chunks_exact(size) {
        match answer(line, &mut out[len..]) {
            Some(n) if n <= out.len() - len => len += n,
            _ => {
                return Answered {
                    len,
                    is_each: false,
                };
            }
        }
    }
    Answered { len, is_each: true }
}

// Replays test vectors: reads lines of `size` bytes, as many at a time as block holds, and writes their answers, which out has room for. It stops
// at a line that has no answer and at the reader's end, and with an error where a read or a write fails, or where a block holds no line. `answer`
// puts a line's answer at the start of a slice, and answers where it ends. A line's size is no const parameter, which a bound `FnMut` cannot name.
pub fn replay<R: Read, W: Write, F: FnMut(&[u8], &mut [u8]) -> Option<usize>>(
    reader: &mut R,
    writer: &mut W,
    size: usize,
    block: &mut [u8],
    out: &mut [u8],
    mut answer: F,
) -> Result<()>
    requires callable { F.IsAlwaysCallable answer }
    ensures { OnOk result (Replays F.FnMut size answer (R.remaining reader.old) (R.remaining reader.new) (W.contents writer.old) (W.contents writer.new)) }
{
    if size == 0 || block.len() < size {
        return Err(ErrorKind::InvalidInput.into());
    }
    let whole = block.len() - block.len() % size;
    let block = &mut block[..whole];
    // A proved loop has to end: no run takes so many turns.
    for _ in 0..u64::MAX {
        let (n, read) = read_block(reader, block);
        let answered = answer_lines(&block[..n], size, out, &mut answer);
        writer.write_all(&out[..answered.len])?;
        read?;
        if !answered.is_each || n < whole {
            return Ok(());
        }
    }
    Err(ErrorKind::TimedOut.into())
}

// The same for a caller that shows that out holds `_room` bytes for each line of a block: with answers of at most so many no line ends the
// replay for want of room.
pub fn replay_in_room<R: Read, W: Write, F: FnMut(&[u8], &mut [u8]) -> Option<usize>>(
    reader: &mut R,
    writer: &mut W,
    size: usize,
    block: &mut [u8],
    _room: usize,
    out: &mut [u8],
    answer: F,
) -> Result<()>
    requires callable { F.IsAlwaysCallable answer }
    requires room { length block.old / size * _room ≤ length out.old }
    ensures { OnOk result (Replays F.FnMut size answer (R.remaining reader.old) (R.remaining reader.new) (W.contents writer.old) (W.contents writer.new)) }
{
    replay(reader, writer, size, block, out, answer)
}
