// A list of guards: taken in its order, or wholly left.
#![tactic(auto)]

pub mod calls;
mod in_turn;
mod list;

ghost use Rattle.std.specs.Prelude.{◌≡◌, length};

// Guards as they are lent: conditions, and one answer for each.
#[derive(Clone, Copy)]
pub(crate) struct Guards<'a> {
    pub conditions: &'a [u64],
    pub answers: &'a [u64],
    ghost even: { length answers.now ≡ length conditions.now },
}
