// A run: the array is formatted, calls are made on it one after the other, and the answers are right by the history of the calls.
#![tactic(auto)]

pub mod call;
pub mod run;
