// The text of a call: hex digits of its kind (2), the region's length (4), a number (16), a type (2), a width (4), a flag (2)
// and two words (32 each), with a space after each field and a line end after the last.
use evaluate::code::type_of;
use graph::NodeId;
use range::ScalarType;
use vector_lines::{number_of, word_of};
use word::Word;

// The bytes of a line.
pub(crate) const LINE: usize = 102;

// The fields of a call. What its kind does not use is not looked at.
#[derive(Clone, Copy)]
pub(crate) struct Call {
    pub kind: u64,
    pub len: usize,
    pub number: u64,
    pub type_code: u64,
    pub width: u16,
    pub flag: u64,
    pub a: Word,
    pub b: Word,
}

impl Call {
    // The node or the condition that the number names.
    pub(crate) fn id(self) -> NodeId {
        NodeId(self.number)
    }

    // None for a type that there is not.
    pub(crate) fn ty(self) -> Option<ScalarType> {
        type_of(self.type_code, self.width)
    }
}

// The number that so many hex digits at the start of a line spell, and what stands behind the space after them.
fn number_field(line: &[u8], digits: usize) -> Option<(u64, &[u8])> {
    let (field, rest) = line.split_at_checked(digits)?;
    Some((number_of(field)?, rest.strip_prefix(b" ")?))
}

pub(crate) fn call_of(line: &[u8; LINE]) -> Option<Call> {
    let (kind, rest) = number_field(line, 2)?;
    let (len, rest) = number_field(rest, 4)?;
    let (number, rest) = number_field(rest, 16)?;
    let (type_code, rest) = number_field(rest, 2)?;
    let (width, rest) = number_field(rest, 4)?;
    let (flag, rest) = number_field(rest, 2)?;
    let (a, rest) = rest.split_at_checked(32)?;
    let b = rest.strip_prefix(b" ")?.strip_suffix(b"\n")?;
    Some(Call {
        kind,
        len: len as usize,
        number,
        type_code,
        width: u16::try_from(width).ok()?,
        flag,
        a: word_of(a)?,
        b: word_of(b)?,
    })
}
