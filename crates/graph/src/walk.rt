// Down a chain of nodes.
ghost use Rattle.graph.specs.Chains.{Walked};

use crate::layout::LIMIT;

// Where a chain of steps ends: at a value that leads nowhere, or after as many steps as there can be nodes.
#[inline(always)]
pub fn walk<T: Copy, F: Fn(T) -> Option<T>>(from: T, step: F) -> T
    requires { F.IsAlwaysCallable step }
    ensures { Walked (F.post step) from result }
{
    let mut at = from;
    for _ in 0..LIMIT {
        let Some(next) = step(at) else {
            return at;
        };
        at = next;
    }
    at
}
