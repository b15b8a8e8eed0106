// What C and Rust programs call: reading, writing, converting, the distances, the nearer of two, and
// files of vectors.
// Each export answers the number of a refusal (docs/RULES.md), 0 where there is none. It writes its values
// into the fields of one lent answer, and leaves every other field as it was.
#![tactic(auto)]

mod converting;
mod distances;
mod nearest;
mod reading;
mod vecs_files;
mod writing;

pub use answer_fields::Answer;
pub use converting::fulandewu_convert;
pub use distances::{
    fulandewu_distance_cos, fulandewu_distance_dot, fulandewu_distance_jaccard,
    fulandewu_distance_l2,
};
pub use nearest::{
    fulandewu_nearer_cos, fulandewu_nearer_dot, fulandewu_nearer_jaccard, fulandewu_nearer_l2,
};
pub use reading::fulandewu_read;
pub use vecs_files::{fulandewu_bvecs_read, fulandewu_fvecs_append, fulandewu_fvecs_read};
pub use writing::fulandewu_write;
