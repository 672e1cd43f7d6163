// Refining a node to limits (assume.rs 26 to 79).
ghost use Rattle.std.specs.Prelude.{◌≡◌};
ghost use Rattle.range.specs.Interval.{bounds_of};
ghost use Rattle.assume.specs.Limits.{limits_of};
ghost use Rattle.assume.specs.Refine.{outcome_of, step_of, narrowing_of, narrow, refine_step, assumed, refined};

use crate::base::base_of;
use crate::limit::{limited_to, meet, narrows};
use crate::{Full, Limits, Next, Outcome, Step};
use graph::alias::set_alias;
use graph::insert::insert;
use graph::layout::{LIMIT, Region};
use graph::read::{range_at, resolve, type_at};
use graph::{NodeId, Operation};
use range::Range;

// The Refine that is stored or found becomes the node's alias.
fn narrow(g: &mut Region, node: NodeId, range: Range) -> Result<Option<Next>, Full>
    ensures { narrowing_of result g.new ≡ narrow g.old node.0 (bounds_of range) }
{
    let ty = type_at(g, node);
    let found = insert(g, ty, Some(range), Operation::Refine(node)).map_err(|_| Full)?;
    set_alias(g, node, found);
    Ok(base_of(g, node, range))
}

// A node that has no alias, refined to limits.
#[tactic(auto, unfolding(crate::specs::Refine::refine_step))]
fn refine_step(g: &mut Region, node: NodeId, limits: Limits) -> Result<Step, Full>
    ensures { step_of result g.new ≡ refine_step g.old node.0 (limits_of limits) }
{
    let Some(old) = range_at(g, node) else {
        return Ok(Step::Unchanged);
    };
    let met = meet(old, limits);
    if !narrows(type_at(g, node), old, met) {
        return Ok(Step::Unchanged);
    }
    let next = narrow(g, node, met)?;
    Ok(Step::Narrowed(next))
}

// A node refined to limits, then the base of the sum that it is, and so on.
pub fn refine(
    g: &mut Region,
    so_far: Result<Outcome, Full>,
    node: NodeId,
    limits: Limits,
) -> Result<Outcome, Full>
    ensures { assumed (outcome_of result) g.new ≡ refined (outcome_of so_far) g.old node.0 (limits_of limits) }
{
    let mut done = so_far;
    let mut at = node;
    let mut wanted = limits;
    for _ in 0..LIMIT {
        let target = resolve(g, at);
        let Step::Narrowed(next) = refine_step(g, target, wanted)? else {
            return done;
        };
        done = Ok(Outcome::Narrowed);
        let Some(more) = next else {
            return done;
        };
        at = more.node;
        wanted = limited_to(more.range);
    }
    done
}
