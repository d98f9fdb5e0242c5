// C entry points into the inner layers, for tests and benchmarks. They are no part of the product.
#![tactic(auto)]

pub mod chips;
pub mod ciphers;
pub mod pages;

// The replies: done, and refused, which changes nothing.
// Stays (1): C gets these numbers.
pub const DONE: u32 = 0;

pub const REFUSED: u32 = 255;
