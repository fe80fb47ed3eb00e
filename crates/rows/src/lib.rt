// The row of a stripe: shares of deltas, lost columns, pending sums, and solving in lent work bytes.
#![tactic(auto)]

pub mod fault;
mod pending;
pub mod row;
pub mod shares;
pub mod solving;
pub mod stripe;
