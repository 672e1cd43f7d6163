// A retain. Of its line the number has the length of the keep list and, 16 bits up, the place of an element that the flag gives;
// the bits of the two words are the other elements, and the width is the length of the mapping. The mapping stands past the region.
use crate::lines::Call;
use crate::region::{MAPPING, WORDS, Words};
use answer::Refusal;
use native::retain_nodes::retain_unmarked;

// The elements that a call gives: the bits of its words, and its flag in one place if it is not 0.
fn keep_of(call: Call) -> [u8; 256] {
    let mut keep = [0u8; 256];
    for (i, element) in keep.iter_mut().enumerate() {
        let word = if i < 128 { call.a } else { call.b };
        *element = word.bit((i % 128) as u32) as u8;
    }
    let place = (call.number / 65536) as usize;
    if call.flag != 0 && place < keep.len() {
        keep[place] = (call.flag % 256) as u8;
    }
    keep
}

// A length that is too large is malformed. A region that would reach into the mapping ends before it: either way it has a wrong length.
pub(crate) fn retained(words: &mut Words, call: Call) -> Option<Result<u64, Refusal>> {
    let keep = keep_of(call);
    let (region, mapping) = words.split_at_mut(MAPPING);
    let kept = keep.get(..(call.number % 65536) as usize)?;
    if WORDS < call.len {
        return None;
    }
    let region = region.get_mut(..call.len.min(MAPPING))?;
    let mapping = mapping.get_mut(..call.width as usize)?;
    Some(retain_unmarked(region, kept, mapping))
}
