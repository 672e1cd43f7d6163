// Marks: what a graph was at some moment, in a lent region of their own, and the calls that set them, return to them and drop them.
#![tactic(auto)]

pub mod calls;
pub mod layout;
pub mod moving;
pub mod retain_nodes;
pub mod well_formed;

use native::Numbered;

#[derive(Clone, Copy)]
pub struct MarkId(pub u64);

// A mark is its own number.
impl Numbered for MarkId {
    ghost as_number = { λ k. k.0 };

    fn number(self) -> u64 {
        self.0
    }
}
