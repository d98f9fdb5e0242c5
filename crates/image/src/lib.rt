// The flash image: its pages and blocks, the two steps of the flash, and power cuts.
#![tactic(auto)]

pub mod blocks;
pub mod keys;
pub mod look;
pub mod steps;

// What is left of the power: so many whole steps, then the first bytes of the next, then none.
// Stays (1): the definition `act` keeps the bytes of a power that is off, and theorems speak of what it leaves.
#[derive(Clone, Copy)]
pub struct Power {
    pub steps: u64,
    pub bytes: usize,
    pub on: bool,
}
