// What numbers name: types, operators, ranges and truth values.
ghost use Rattle.std.specs.Prelude.{◌≡◌, min, ◌-◌, ◌^◌};
ghost use Rattle.request.specs.Codes.{type_by_code, unary_by_code, binary_by_code, truth_by_number};

use evaluate::code::{BITS, BOOL, INTEGER, binary_of, is_binary_code, is_unary_code, unary_of};
use evaluate::{Binary, Unary};
use range::ScalarType;

// A width as a u16; a larger one stays above the widest.
pub fn clamped_width(width: u64) -> u16
    ensures { result ≡ min width (2 ^ 16 - 1) }
{
    u16::try_from(width).unwrap_or(u16::MAX)
}

pub fn type_by_code(code: u64, width: u64) -> Option<ScalarType>
    ensures { result ≡ type_by_code code width }
{
    match code {
        BOOL if width == 0 => Some(ScalarType::Bool),
        BITS => Some(ScalarType::Bits(clamped_width(width))),
        INTEGER if width == 0 => Some(ScalarType::Integer),
        _ => None,
    }
}

pub fn unary_by_code(code: u64, parameter: u64) -> Option<Unary>
    ensures { result ≡ unary_by_code code parameter }
{
    if is_unary_code(code, parameter) {
        Some(unary_of(code, clamped_width(parameter)))
    } else {
        None
    }
}

pub fn binary_by_code(code: u64) -> Option<Binary>
    ensures { result ≡ binary_by_code code }
{
    if is_binary_code(code) {
        Some(binary_of(code))
    } else {
        None
    }
}

pub fn truth_by_number(number: u64) -> Option<bool>
    ensures { result ≡ truth_by_number number }
{
    match number {
        0 => Some(false),
        1 => Some(true),
        _ => None,
    }
}
