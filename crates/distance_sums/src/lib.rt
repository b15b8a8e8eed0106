// What the four distances share: counts over 1-bit bodies, and whole-number sums over Float8 bodies.
#![tactic(auto)]

pub mod bits;
pub mod float8;
