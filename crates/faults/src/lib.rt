// What the array answers in place of doing what it was asked: a backplane's fault inside that of the log or of a stripe, inside that of the array.
#![tactic(auto)]

pub mod fault;
pub mod shown;
pub mod told;
