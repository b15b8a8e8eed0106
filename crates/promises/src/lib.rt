// What the contracts of all crates share: determinism, and what a writer leaves of a buffer. There is no code here.
#![tactic(auto)]
