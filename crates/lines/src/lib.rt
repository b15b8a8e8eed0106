// What the programs over lines share: the fields of a line, and numbers in hexadecimal and decimal.
#![tactic(auto)]

pub mod hex;
pub mod text;
