// Question 6: may these nodes be kept?
ghost use Rattle.std.specs.Prelude.{◌≡◌, ◌<◌, length};
ghost use Rattle.retain.specs.Retain.{is_kept, has_first, has_second, operands_at, are_kept, is_allowed, are_allowed, is_keep_list};

use evaluate::code::BINARY;
use graph::layout::{CONCAT, OPERATION, REFINE, Region, SLICE, X, Y, count, word_at};

// Does field X of an operation hold an operand?
pub fn has_first(code: u64) -> bool
    ensures { result ≡ has_first code }
{
    code == REFINE || SLICE <= code
}

// Does field Y?
pub fn has_second(code: u64) -> bool
    ensures { result ≡ has_second code }
{
    code == CONCAT || BINARY <= code
}

fn is_kept(keep: &[u8], id: u64) -> bool
    ensures { result ≡ is_kept keep.now id }
{
    keep.get(id as usize) == Some(&1)
}

fn are_operands_kept(g: &Region, keep: &[u8], node: u64) -> bool
    ensures { result ≡ are_kept keep.now (operands_at g.now node) }
{
    let code = word_at(g, node, OPERATION);
    !has_first(code)
        || (is_kept(keep, word_at(g, node, X))
            && (!has_second(code) || is_kept(keep, word_at(g, node, Y))))
}

// A node may be kept if its operands are. An element is a number of any value.
fn is_allowed(g: &Region, keep: &[u8], node: u64) -> bool
    requires { node < length keep.now }
    ensures { result ≡ is_allowed g.now keep.now node }
{
    match keep[node as usize] {
        0 => true,
        1 => are_operands_kept(g, keep, node),
        _ => false,
    }
}

fn are_allowed(g: &Region, keep: &[u8]) -> bool
    ensures { result ≡ are_allowed g.now keep.now (length keep.now) }
{
    (0..keep.len() as u64).all(|node| is_allowed(g, keep, node))
}

#[tactic(auto, unfolding(crate::specs::Retain::is_keep_list))]
pub fn is_keep_list(g: &Region, keep: &[u8], mapping: &[u64]) -> bool
    ensures { result ≡ is_keep_list g.now keep.now mapping.now }
{
    let nodes = count(g);
    keep.len() as u64 == nodes && mapping.len() as u64 == nodes && are_allowed(g, keep)
}
