// Comparisons that the ranges of their operands decide.
ghost use Rattle.word.specs.Option.{both_given};
ghost use Rattle.std.specs.Prelude.{◌≡◌};
ghost use Rattle.range.specs.Interval.{bounds_of, interval_of};
ghost use Rattle.fold.specs.Range.{apart, equal_ranges, less_ranges, less_equal_ranges, unsigned_too, comparison};

use evaluate::Binary;
use range::Range;

fn apart(a: Range, b: Range) -> bool
    ensures { result ≡ apart (bounds_of a) (bounds_of b) }
{
    a.max < b.min || b.max < a.min
}

// An `if`, where the next two are chained: with the `==` of two ranges before the chain the search finds no proof.
fn equal_ranges(a: Range, b: Range) -> Option<bool>
    ensures { result ≡ equal_ranges (bounds_of a) (bounds_of b) }
{
    if a.min == a.max && a == b {
        return Some(true);
    }
    apart(a, b).then_some(false)
}

fn less_ranges(a: Range, b: Range) -> Option<bool>
    ensures { result ≡ less_ranges (bounds_of a) (bounds_of b) }
{
    let less = a.max < b.min;
    less.then_some(true)
        .or_else(|| (b.max <= a.min).then_some(false))
}

fn less_equal_ranges(a: Range, b: Range) -> Option<bool>
    ensures { result ≡ less_equal_ranges (bounds_of a) (bounds_of b) }
{
    let less_equal = a.max <= b.min;
    less_equal
        .then_some(true)
        .or_else(|| (b.max < a.min).then_some(false))
}

// Are both not negative, so that unsigned and signed order are one?
pub fn unsigned_too(a: Range, b: Range) -> bool
    ensures { result ≡ unsigned_too (bounds_of a) (bounds_of b) }
{
    a.is_nonnegative() && b.is_nonnegative()
}

#[tactic(auto, unfolding(crate::specs::Range::comparison))]
fn comparison(op: Binary, a: Range, b: Range) -> Option<bool>
    ensures { result ≡ comparison op (bounds_of a) (bounds_of b) }
{
    match op {
        Binary::Equal => equal_ranges(a, b),
        Binary::NotEqual => equal_ranges(a, b).map(|truth| !truth),
        Binary::LessSigned => less_ranges(a, b),
        Binary::LessUnsigned if unsigned_too(a, b) => less_ranges(a, b),
        Binary::LessEqualSigned => less_equal_ranges(a, b),
        Binary::LessEqualUnsigned if unsigned_too(a, b) => less_equal_ranges(a, b),
        _ => None,
    }
}

// What two ranges say of a comparison, if both are there.
pub fn compared(op: Binary, left: Option<Range>, right: Option<Range>) -> Option<bool>
    ensures { result ≡ both_given (interval_of left) (interval_of right) (comparison op) }
{
    comparison(op, left?, right?)
}
