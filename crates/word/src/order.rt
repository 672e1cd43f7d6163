// Equality and order: those of the numbers that words stand for.
ghost use Rattle.std.specs.Prelude.{◌≡◌, ◌+◌, ◌*◌, ◌^◌, nat_eq};
ghost use Rattle.std.specs.Ordering.{as_partial_cmp, int_cmp, int_eq, nat_cmp, on};
ghost use Rattle.std.specs.Cmp.{partial_order_from_own_ties};
ghost use Rattle.std.specs.Cmp.Rules.{comparing};
ghost use Rattle.std.proofs.Common.{rules};
ghost use Rattle.word.specs.Value.{val, int_of};

use crate::{Signed, Word};
use std::cmp::Ordering;

impl Word {
    // The high half and the low one, which compare as the number does.
    fn halves(self) -> (u64, u64)
        ensures { val self ≡ result.0 * 2 ^ 64 + result.1 }
    {
        (self.hi, self.lo)
    }
}

impl PartialEq for Word {
    ghost eq = { on val nat_eq };

    ghost laws = { Prim.search (comparing, rules) };

    fn eq(&self, other: &Word) -> bool {
        self.halves() == other.halves()
    }
}

impl Eq for Word {
    ghost laws = { Prim.search (comparing, rules) };
}

impl Ord for Word {
    ghost cmp = { on val nat_cmp };

    ghost total = { Prim.search (comparing, rules) };

    ghost matches_partial_cmp = { Prim.search (comparing, rules) };

    ghost matches_eq = { Prim.search (comparing, rules) };

    fn cmp(&self, other: &Word) -> Ordering {
        self.halves().cmp(&other.halves())
    }
}

impl PartialOrd for Word {
    ghost partial_cmp = { as_partial_cmp (on val nat_cmp) };

    ghost laws = { partial_order_from_own_ties (Prim.search (comparing, rules)) (Prim.search (comparing, rules)) };

    fn partial_cmp(&self, other: &Word) -> Option<Ordering> {
        Some(self.cmp(other))
    }
}

impl Signed {
    // The same of an integer: its high half carries the sign.
    fn halves(self) -> (i64, u64)
        ensures { (result.0 ≡ self.hi) × (result.1 ≡ self.lo) }
    {
        (self.hi, self.lo)
    }
}

// Word's impls again: the two stay structs of their own by a rule of the project, and no macro of the repository may write an impl with ghost
// members (`rt verdict` refuses it).
impl PartialEq for Signed {
    ghost eq = { on int_of int_eq };

    ghost laws = { Prim.search (comparing, rules) };

    fn eq(&self, other: &Signed) -> bool {
        self.halves() == other.halves()
    }
}

impl Eq for Signed {
    ghost laws = { Prim.search (comparing, rules) };
}

impl Ord for Signed {
    ghost cmp = { on int_of int_cmp };

    ghost total = { Prim.search (comparing, rules) };

    ghost matches_partial_cmp = { Prim.search (comparing, rules) };

    ghost matches_eq = { Prim.search (comparing, rules) };

    fn cmp(&self, rhs: &Signed) -> Ordering {
        self.halves().cmp(&rhs.halves())
    }
}

impl PartialOrd for Signed {
    ghost partial_cmp = { as_partial_cmp (on int_of int_cmp) };

    ghost laws = { partial_order_from_own_ties (Prim.search (comparing, rules)) (Prim.search (comparing, rules)) };

    fn partial_cmp(&self, other: &Signed) -> Option<Ordering> {
        Some(self.cmp(other))
    }
}
