// The answer that a caller of an export lends, and what each operation's answer writes into it. The exports
// themselves are in `fulandewu`.
#![tactic(auto)]

mod blobs;
mod fields;
mod files;
mod pairs;
mod refusing;

pub use blobs::{report_converted, report_view, report_written};
pub use fields::Answer;
pub use files::{report_fill, report_vector};
pub use pairs::{report_distance, report_nearer};
