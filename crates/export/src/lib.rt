// The calls for C and Rust: numbers and slices alone.
#![tactic(auto)]

pub mod calls;
pub mod guards;
pub mod marks;
pub mod reading;
pub mod requests;
pub mod retain_nodes;
