// Files of vectors, fvecs and bvecs, in a slice: what stands at a place, its elements, and appending to one.
#![tactic(auto)]

mod appending;
mod reading;

pub use appending::fvecs_append;
pub use reading::{bvecs_at, fvecs_at, fvecs_part};
use vector_types::Dims;

// A vector of a file: its elements stand from `start` up to `next`, where the next vector starts.
#[derive(Clone, Copy, PartialEq, Eq)]
pub struct Found {
    pub dims: Dims,
    pub start: usize,
    pub next: usize,
}
