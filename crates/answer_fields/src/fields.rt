// The answer that a caller lends, `struct fulandewu_answer` in C: 32 fields of 8 bytes each, in an order
// that never changes. Those that have no name here are for later exports.
pub type Answer = [u64; 32];

pub(crate) const DISTANCE: usize = 0;

pub(crate) const KIND: usize = 1;

pub(crate) const DIMS: usize = 2;

pub(crate) const LENGTH: usize = 3;

pub(crate) const NEEDED: usize = 4;

pub(crate) const WHICH: usize = 5;

pub(crate) const NEARER: usize = 6;

pub(crate) const ENTRY: usize = 7;

pub(crate) const READINGS: usize = 8;

pub(crate) const OTHER_READINGS: usize = 9;

pub(crate) const START: usize = 10;

pub(crate) const NEXT: usize = 11;

pub(crate) const PLACE: usize = 12;

pub(crate) const FOUND: usize = 13;

pub(crate) const FILL: usize = 14;
