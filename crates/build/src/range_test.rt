// unsigned_range: low <= value <= high as one comparison. It costs no unit of its own.
ghost use Rattle.std.specs.Prelude.{◌≡◌};
ghost use Rattle.word.specs.Value.{val};
ghost use Rattle.graph.specs.Insert.{built_of};
ghost use Rattle.build.specs.Build.{out, build, exec, is_testable, range_prog, unsigned_range};

use crate::{Budget, constant_binary};
use evaluate::Binary;
use graph::layout::Region;
use graph::read::type_at;
use graph::{NodeId, Unbuilt};
use range::ScalarType;
use range::typed::mask;
use word::Word;

// At most 64 bits, and a range of them that is not empty.
#[tactic(auto, using(word::proofs::Compared::le_word))]
fn is_testable(width: u16, low: Word, high: Word) -> bool
    ensures { result ≡ is_testable width (val low) (val high) }
{
    width <= 64 && low <= high && high <= mask(width)
}

// value - low <= high - low.
fn difference_test(
    g: &mut Region,
    budget: &mut Budget,
    ty: ScalarType,
    value: NodeId,
    low: Word,
    high: Word,
) -> Result<NodeId, Unbuilt>
    ensures { out (built_of result) budget.new.units g.new ≡ exec build (range_prog ty value.0 (val low) (val high)) budget.old.units g.old }
{
    let difference = constant_binary(g, budget, ty, low, ty, Binary::Sub, value)?;
    let extent = high.wrapping_sub(low);
    constant_binary(
        g,
        budget,
        ty,
        extent,
        ScalarType::Bool,
        Binary::LessEqualUnsigned,
        difference,
    )
}

#[tactic(auto, unfolding(crate::specs::Build::unsigned_range))]
pub fn unsigned_range(
    g: &mut Region,
    budget: &mut Budget,
    value: NodeId,
    low: Word,
    high: Word,
) -> Result<NodeId, Unbuilt>
    ensures { out (built_of result) budget.new.units g.new ≡ unsigned_range value.0 (val low) (val high) budget.old.units g.old }
{
    match type_at(g, value) {
        ScalarType::Bits(width) if is_testable(width, low, high) => {
            difference_test(g, budget, ScalarType::Bits(width), value, low, high)
        }
        _ => Err(Unbuilt::None),
    }
}
