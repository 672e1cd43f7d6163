// The words that calls work on, from outside: zeroed, set, shown and summed.
use graph::layout::REGION;
use word::Word;

// The words: the region's, one past its end, and from MAPPING on those for the mapping of a retain.
pub(crate) type Words = [u64; WORDS];

pub(crate) const MAPPING: usize = REGION + 1;

pub(crate) const WORDS: usize = MAPPING + 256;

// Sets four words from `at` on, if there are four.
pub(crate) fn poke(words: &mut Words, at: usize, a: Word, b: Word) -> Option<()> {
    let four = words.get_mut(at..)?.first_chunk_mut::<4>()?;
    *four = [a.lo, a.hi, b.lo, b.hi];
    Some(())
}

// Four words from `at` on, none of them past the one behind the region.
pub(crate) fn peek(words: &Words, at: usize) -> Option<(Word, Word)> {
    let &[a_lo, a_hi, b_lo, b_hi] = words[..MAPPING].get(at..)?.first_chunk::<4>()?;
    Some((Word { lo: a_lo, hi: a_hi }, Word { lo: b_lo, hi: b_hi }))
}

// The sum of the words, and above it the sum of the sums on the way, both modulo 2^64.
pub(crate) fn sums_of(words: &Words) -> Word {
    let mut sum: u64 = 0;
    let mut sums: u64 = 0;
    for &word in words {
        sum = sum.wrapping_add(word);
        sums = sums.wrapping_add(sum);
    }
    Word { lo: sum, hi: sums }
}
