// What the conversions share: copies and zeros, the entries of a sparse body, bits, and quantizing.
#![tactic(auto)]

pub mod bits;
pub mod entries;
pub mod filling;
pub mod quantized;
