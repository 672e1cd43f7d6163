// The operations by their codes: the high digit is the group, the low one the operation.
// A code stands only here, beside the method that it means: an enum of operations would say each twice.
use word::{Signed, Word};

// A pattern of 128 bits, or Rust's None.
pub(crate) type Answer = Option<Word>;

// The low 32 bits.
fn amount(w: Word) -> u32 {
    (w.lo % 0x1_0000_0000) as u32
}

fn word_arithmetic(operation: u64, a: Word, b: Word) -> Option<Answer> {
    Some(match operation {
        0 => Some(a.wrapping_add(b)),
        1 => Some(a.wrapping_sub(b)),
        2 => Some(a.wrapping_neg()),
        3 => Some(a.wrapping_mul(b)),
        4 => a.checked_mul(b),
        5 => a.checked_div(b),
        6 => a.checked_rem(b),
        7 => a.divide(b).map(|d| d.quotient),
        8 => a.divide(b).map(|d| d.remainder),
        9 => a.divide(b).map(|d| Word::from(u64::from(d.steps))),
        _ => return None,
    })
}

fn word_bits(operation: u64, a: Word, b: Word) -> Option<Answer> {
    Some(match operation {
        0 => Some(a & b),
        1 => Some(a | b),
        2 => Some(a ^ b),
        3 => Some(!a),
        4 => Some(Word::from(u64::from(a.leading_zeros()))),
        5 => Some(Word::from(u64::from(a.trailing_zeros()))),
        6 => Some(Word::from(a.is_power_of_two())),
        7 => Some(Word::from(a.is_zero())),
        8 => Some(a.as_signed().as_word()),
        _ => return None,
    })
}

fn word_shift(operation: u64, a: Word, b: Word) -> Option<Answer> {
    let n = amount(b);
    Some(match operation {
        0 => Some(a.unbounded_shl(n)),
        1 => Some(a.unbounded_shr(n)),
        2 => a.checked_shl(n),
        3 => a.checked_shr(n),
        4 => Some(Word::from(a.bit(n))),
        _ => return None,
    })
}

// Five rows stand here and for Signed below: as one function they would take a conversion, and each use would hand it.
fn word_order(operation: u64, a: Word, b: Word) -> Option<Answer> {
    Some(match operation {
        0 => Some(Word::from(a == b)),
        1 => Some(Word::from(a < b)),
        2 => Some(Word::from(a <= b)),
        3 => Some(a.min(b)),
        4 => Some(a.max(b)),
        _ => return None,
    })
}

fn signed_arithmetic(operation: u64, a: Signed, b: Signed) -> Option<Answer> {
    let word = match operation {
        0 => a.wrapping_add(b).as_word(),
        1 => a.wrapping_sub(b).as_word(),
        2 => a.wrapping_mul(b).as_word(),
        3 => a.as_word(),
        4 => a.unsigned_abs(),
        5 => a.unbounded_shr(amount(b.as_word())).as_word(),
        _ => return None,
    };
    Some(Some(word))
}

fn signed_checked(operation: u64, a: Signed, b: Signed) -> Option<Answer> {
    let checked = match operation {
        0 => a.checked_add(b),
        1 => a.checked_sub(b),
        2 => a.checked_mul(b),
        3 => a.checked_neg(),
        4 => a.checked_abs(),
        5 => a.checked_div(b),
        6 => a.checked_rem(b),
        _ => return None,
    };
    Some(checked.map(Signed::as_word))
}

fn signed_bits(operation: u64, a: Signed, b: Signed) -> Option<Answer> {
    let bits = match operation {
        0 => a & b,
        1 => a | b,
        2 => a ^ b,
        3 => !a,
        _ => return None,
    };
    Some(Some(bits.as_word()))
}

fn signed_order(operation: u64, a: Signed, b: Signed) -> Option<Answer> {
    Some(match operation {
        0 => Some(Word::from(a == b)),
        1 => Some(Word::from(a < b)),
        2 => Some(Word::from(a <= b)),
        3 => Some(a.min(b).as_word()),
        4 => Some(a.max(b).as_word()),
        5 => Some(Word::from(a.is_negative())),
        _ => return None,
    })
}

// The answer of the operation that has that code.
pub(crate) fn answer_of(code: u64, a: Word, b: Word) -> Option<Answer> {
    let operation = code % 16;
    let s = a.as_signed();
    let t = b.as_signed();
    match code / 16 {
        0 => word_arithmetic(operation, a, b),
        1 => word_bits(operation, a, b),
        2 => word_shift(operation, a, b),
        3 => word_order(operation, a, b),
        4 => signed_arithmetic(operation, s, t),
        5 => signed_checked(operation, s, t),
        6 => signed_bits(operation, s, t),
        7 => signed_order(operation, s, t),
        _ => None,
    }
}
