// The sets of operators that the folds, the guards and the typing table ask for. An operator that a set does not name is not in it.
ghost use Rattle.std.specs.Prelude.{◌≡◌};
ghost use Rattle.fold.specs.Shape.{is_any};
ghost use Rattle.fold.specs.Operator.{bitwise, equalities, sums, strict_orders, unsigned_orders, comparisons, shifts, any_shift, commutative, modular_ops, zero_keeps, zero_makes_zero, kept_twice, zero_twice, true_twice, false_twice};

use evaluate::Binary;

// And, Or and Xor.
pub fn is_bitwise(op: Binary) -> bool
    ensures { result ≡ is_any bitwise op }
{
    matches!(op, Binary::And | Binary::Or | Binary::Xor)
}

// Equal and NotEqual.
pub fn is_equality(op: Binary) -> bool
    ensures { result ≡ is_any equalities op }
{
    matches!(op, Binary::Equal | Binary::NotEqual)
}

// Add and Sub.
pub fn is_sum(op: Binary) -> bool
    ensures { result ≡ is_any sums op }
{
    matches!(op, Binary::Add | Binary::Sub)
}

// LessSigned and LessUnsigned.
pub fn is_strict_order(op: Binary) -> bool
    ensures { result ≡ is_any strict_orders op }
{
    matches!(op, Binary::LessSigned | Binary::LessUnsigned)
}

// LessUnsigned and LessEqualUnsigned.
pub fn is_unsigned_order(op: Binary) -> bool
    ensures { result ≡ is_any unsigned_orders op }
{
    matches!(op, Binary::LessUnsigned | Binary::LessEqualUnsigned)
}

// The comparisons.
pub fn is_comparison(op: Binary) -> bool
    ensures { result ≡ is_any comparisons op }
{
    matches!(
        op,
        Binary::LessSigned
            | Binary::LessUnsigned
            | Binary::LessEqualSigned
            | Binary::LessEqualUnsigned
            | Binary::Equal
            | Binary::NotEqual
    )
}

// The shifts that are folded.
pub fn is_folded_shift(op: Binary) -> bool
    ensures { result ≡ is_any shifts op }
{
    matches!(op, Binary::ShiftLeft | Binary::ShiftRight)
}

// All shifts.
pub fn is_shift(op: Binary) -> bool
    ensures { result ≡ is_any any_shift op }
{
    matches!(
        op,
        Binary::ShiftLeft | Binary::ShiftRight | Binary::ArithmeticShiftRight
    )
}

// The operators whose operands may change places.
pub fn is_commutative(op: Binary) -> bool
    ensures { result ≡ is_any commutative op }
{
    matches!(
        op,
        Binary::Add
            | Binary::Mul
            | Binary::And
            | Binary::Or
            | Binary::Xor
            | Binary::Equal
            | Binary::NotEqual
    )
}

// The operators whose low bits depend on low bits alone.
pub fn is_modular(op: Binary) -> bool
    ensures { result ≡ is_any modular_ops op }
{
    matches!(
        op,
        Binary::Add | Binary::Sub | Binary::Mul | Binary::And | Binary::Or | Binary::Xor
    )
}

// The operators that 0 on the right leaves as it is.
pub fn is_kept_by_zero(op: Binary) -> bool
    ensures { result ≡ is_any zero_keeps op }
{
    matches!(
        op,
        Binary::Add
            | Binary::Sub
            | Binary::Or
            | Binary::Xor
            | Binary::ShiftLeft
            | Binary::ShiftRight
            | Binary::ArithmeticShiftRight
    )
}

// The operators that 0 on the right makes 0.
pub fn is_zero_by_zero(op: Binary) -> bool
    ensures { result ≡ is_any zero_makes_zero op }
{
    matches!(op, Binary::And | Binary::Mul)
}

// One value with itself is that value.
pub fn is_kept_twice(op: Binary) -> bool
    ensures { result ≡ is_any kept_twice op }
{
    matches!(op, Binary::And | Binary::Or)
}

// One value with itself is 0.
pub fn is_zero_twice(op: Binary) -> bool
    ensures { result ≡ is_any zero_twice op }
{
    matches!(op, Binary::Sub | Binary::Xor)
}

// One value compared with itself is true.
pub fn is_true_twice(op: Binary) -> bool
    ensures { result ≡ is_any true_twice op }
{
    matches!(
        op,
        Binary::Equal | Binary::LessEqualSigned | Binary::LessEqualUnsigned
    )
}

// One value compared with itself is false.
pub fn is_false_twice(op: Binary) -> bool
    ensures { result ≡ is_any false_twice op }
{
    matches!(
        op,
        Binary::NotEqual | Binary::LessSigned | Binary::LessUnsigned
    )
}
