// From a condition to a guard (linear.rs 12 to 50).
ghost use Rattle.std.specs.Prelude.{◌≡◌};
ghost use Rattle.guard.specs.Condition.{one_comparison_of};
ghost use Rattle.guard.specs.Guard.{unsigned_for, one_guard_of, guard_by, fit_host, guard_of, guarded};

use crate::reading::{behind_nots, comparison_at};
use crate::{Comparison, Condition, Guard};
use evaluate::Binary;
use fold::shape::fits;
use graph::NodeId;
use graph::layout::Region;
use graph::read::range_at;

// Values that are not negative have one order.
fn unsigned_for(op: Binary) -> Binary
    ensures { result ≡ unsigned_for op }
{
    match op {
        Binary::LessSigned => Binary::LessUnsigned,
        Binary::LessEqualSigned => Binary::LessEqualUnsigned,
        _ => op,
    }
}

// Do the ranges of both operands lie in 0 to 2^64 - 1?
fn fit_host(g: &Region, comparison: Comparison) -> bool
    ensures { result ≡ fit_host g.now (one_comparison_of comparison) }
{
    fits(range_at(g, comparison.left), 64) && fits(range_at(g, comparison.right), 64)
}

fn guard_by(comparison: Comparison, expected: bool, host64: bool) -> Guard
    ensures { one_guard_of result ≡ guard_by (one_comparison_of comparison) expected host64 }
{
    let Comparison { op, left, right } = comparison;
    Guard {
        operation: if host64 { unsigned_for(op) } else { op },
        left,
        right,
        expected,
        host64,
    }
}

// The guard of a condition, if there is a comparison behind its BoolNots.
#[tactic(auto, unfolding(crate::specs::Guard::guarded))]
pub fn guarded(g: &Region, condition: NodeId, expected: bool) -> Option<Guard>
    ensures { guard_of result ≡ guarded g.now condition.0 expected }
{
    let Condition { node, expected } = behind_nots(g, condition, expected);
    let comparison = comparison_at(g, node)?;
    Some(guard_by(comparison, expected, fit_host(g, comparison)))
}
