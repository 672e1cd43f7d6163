// Both operands of a guard refined (assume.rs 104 to 150, after the limits are known).
ghost use Rattle.std.specs.Prelude.{◌≡◌};
ghost use Rattle.assume.specs.Limits.{pair_of};
ghost use Rattle.assume.specs.Refine.{outcome_of, assumed};
ghost use Rattle.assume.specs.Assume.{refined_both};

use crate::refine::refine;
use crate::{Full, Outcome, Sides};
use graph::layout::Region;

// The left operand first.
#[tactic(auto, unfolding(crate::specs::Assume::refined_both))]
pub fn refine_both(g: &mut Region, both: Sides) -> Result<Outcome, Full>
    ensures { assumed (outcome_of result) g.new ≡ refined_both g.old both.left.0 both.right.0 (pair_of both.limits) }
{
    let first = refine(g, Ok(Outcome::Unchanged), both.left, both.limits.left)?;
    refine(g, Ok(first), both.right, both.limits.right)
}
