// Text at the start of a lent slice: bytes as they are, and numbers in decimal digits. What comes behind is put into the rest of the slice.
#![tactic(auto)]

ghost use Rattle.std.specs.Prelude.{◌≡◌, ◌≤◌, length};
ghost use Rattle.text.specs.Text.{placed, fitting, placed_if, end_of, placed_in, decimal};

// Puts text at the start of out, and answers how many bytes it has.
#[tactic(auto, unfolding(crate::specs::Text::placed))]
pub fn put_text_in_room(text: &[u8], out: &mut [u8]) -> usize
    requires { length text.now ≤ length out.old }
    ensures value { result ≡ length text.now }
    ensures out_after { out.new ≡ placed out.old text.now }
{
    let len = text.len();
    out[..len].copy_from_slice(text);
    len
}

// The same where there is room for it, and else nothing.
pub fn put_text(text: &[u8], out: &mut [u8]) -> usize
    ensures value { result ≡ fitting (length text.now) out.old }
    ensures out_after { out.new ≡ placed_if (length text.now) out.old text.now }
{
    if text.len() <= out.len() {
        put_text_in_room(text, out)
    } else {
        0
    }
}

// The same from `at` on, a place that may lie past the slice's end: where there is room for it, and else nothing. Answers where it ends.
#[tactic(auto, unfolding(crate::specs::Text::placed))]
pub fn put_text_at(text: &[u8], out: &mut [u8], at: usize) -> usize
    ensures value { result ≡ end_of out.old at (length text.now) }
    ensures out_after { out.new ≡ placed_in out.old at (length text.now) text.now }
{
    if at <= out.len() {
        at + put_text(text, &mut out[at..])
    } else {
        at
    }
}

// How many decimal digits n has.
#[tactic(auto, using(crate::proofs::Decimal::length_small, crate::proofs::Decimal::length_large, crate::proofs::Decimal::decimal_short))]
fn decimal_places(n: u64) -> usize
    ensures { result ≡ length (decimal n) }
{
    if n < 10 {
        1
    } else {
        decimal_places(n / 10) + 1
    }
}

// Puts the decimal digits of n at the start of out, and answers how many there are.
#[tactic(auto, using(crate::proofs::Decimal::length_small, crate::proofs::Decimal::length_large))]
pub fn put_decimal_in_room(n: u64, out: &mut [u8]) -> usize
    requires { length (decimal n) ≤ length out.old }
    ensures value { result ≡ length (decimal n) }
    ensures out_after { out.new ≡ placed out.old (decimal n) }
{
    if n < 10 {
        out[0] = b'0' + n as u8;
        return 1;
    }
    let end = put_decimal_in_room(n / 10, out);
    out[end] = b'0' + (n % 10) as u8;
    end + 1
}

// The same where there is room for them, and else nothing.
pub fn put_decimal(n: u64, out: &mut [u8]) -> usize
    ensures value { result ≡ fitting (length (decimal n)) out.old }
    ensures out_after { out.new ≡ placed_if (length (decimal n)) out.old (decimal n) }
{
    if decimal_places(n) <= out.len() {
        put_decimal_in_room(n, out)
    } else {
        0
    }
}

// The same from `at` on, a place that may lie past the slice's end: where there is room for them, and else nothing. Answers where they end.
#[tactic(auto, unfolding(crate::specs::Text::placed))]
pub fn put_decimal_at(n: u64, out: &mut [u8], at: usize) -> usize
    ensures value { result ≡ end_of out.old at (length (decimal n)) }
    ensures out_after { out.new ≡ placed_in out.old at (length (decimal n)) (decimal n) }
{
    if at <= out.len() {
        at + put_decimal(n, &mut out[at..])
    } else {
        at
    }
}
