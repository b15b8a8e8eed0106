// What bodies hold: the elements of a 1-bit and of a Float8 body, and the entries of two sparse ones, merged.
#![tactic(auto)]

pub mod bits;
pub mod float8;
pub mod sparse;
