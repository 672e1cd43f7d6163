// 128-bit words as two 64-bit halves, with the operations of Rust's u128 and i128 that the scalar graph uses.
#![tactic(auto)]

pub mod bits;
pub mod order;
pub mod product;
pub mod quotient;
pub mod reading;
pub mod shift;
pub mod sum;

// A u128: hi * 2^64 + lo.
#[derive(Clone, Copy)]
pub struct Word {
    pub lo: u64,
    pub hi: u64,
}

// An i128: hi * 2^64 + lo. The high half carries the sign.
#[derive(Clone, Copy)]
pub struct Signed {
    pub lo: u64,
    pub hi: i64,
}

// What a division gives: the quotient, the remainder, and its number of steps.
#[derive(Clone, Copy)]
pub struct Division {
    pub quotient: Word,
    pub remainder: Word,
    pub steps: u32,
}
