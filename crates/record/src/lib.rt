// Records of the program: what a record's bytes ask for, the call, and its line.
#![tactic(auto)]

pub mod decode;
pub mod fields;
pub mod line;
pub mod perform;
