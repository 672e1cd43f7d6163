// The fields of a record. A field stands at the start of a part of the record; what is left is handed on to the next reader.
ghost use Rattle.std.specs.Prelude.{◌≡◌};
ghost use Rattle.word.specs.Value.{val};
ghost use Rattle.record.specs.Record.{little};

use word::Word;

// An id of two bytes, the low one first.
pub(crate) fn id_of(field: &[u8; 2]) -> u64
    ensures { result ≡ little field.now }
{
    u64::from(u16::from_le_bytes(*field))
}

// A number of 16 bytes.
#[tactic(auto, using(crate::proofs::Little::little_16), unfolding(word::specs::Value::val))]
pub(crate) fn word_of(field: &[u8; 16]) -> Word
    ensures { val result ≡ little field.now }
{
    let (halves, _) = field.as_chunks();
    Word {
        lo: u64::from_le_bytes(halves[0]),
        hi: u64::from_le_bytes(halves[1]),
    }
}
