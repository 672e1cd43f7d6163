// What a guard would narrow. Where it would narrow nothing, it writes nothing.
ghost use Rattle.std.specs.Prelude.{◌≡◌};
ghost use Rattle.assume.specs.Limits.{limits_of};
ghost use Rattle.assume.specs.Narrowing.{narrows_at, narrowing};
ghost use Rattle.assume.specs.Sides.{sides_of, sides};

use crate::limit::{comparable, limits_by, meet, narrows};
use crate::{Limits, Sides};
use graph::NodeId;
use graph::layout::Region;
use graph::read::{range_at, resolve, type_at};
use guard::reading::{behind_nots, comparison_at};
use guard::{Comparison, Condition};

// Do limits narrow the node that this one is by now?
#[tactic(auto, unfolding(crate::specs::Narrowing::narrows_at))]
fn narrows_at(g: &Region, node: NodeId, limits: Limits) -> bool
    ensures { result ≡ narrows_at g.now node.0 (limits_of limits) }
{
    let target = resolve(g, node);
    range_at(g, target).is_some_and(|old| narrows(type_at(g, target), old, meet(old, limits)))
}

// Both operands of a condition, which are resolved, and their limits by the ranges that they have. Inlined where a guard is taken, with limits_by: the answer is not
// copied then. `then` here and `filter` below would not be inlined with it, and a guard would take 698 instructions for 440.
#[tactic(auto, unfolding(crate::specs::Sides::sides))]
#[inline(always)]
fn sides(g: &Region, condition: NodeId, expected: bool) -> Option<Sides>
    ensures { sides_of result ≡ sides g.now condition.0 expected }
{
    let Condition { node, expected } = behind_nots(g, condition, expected);
    let Comparison { op, left, right } = comparison_at(g, node)?;
    let left = resolve(g, left);
    let right = resolve(g, right);
    let a = range_at(g, left)?;
    let b = range_at(g, right)?;
    if !comparable(op, a, b) {
        return None;
    }
    Some(Sides {
        left,
        right,
        limits: limits_by(op, expected, a, b),
    })
}

// What a guard refines, if it narrows a node. The condition is not resolved. Inlined, as `sides` is.
#[tactic(auto, unfolding(crate::specs::Narrowing::narrows_either, crate::specs::Narrowing::narrowing))]
#[inline(always)]
pub fn narrowing(g: &Region, condition: NodeId, expected: bool) -> Option<Sides>
    ensures { sides_of result ≡ narrowing g.now condition.0 expected }
{
    let both = sides(g, condition, expected)?;
    let limits = both.limits;
    if narrows_at(g, both.left, limits.left) || narrows_at(g, both.right, limits.right) {
        Some(both)
    } else {
        None
    }
}
