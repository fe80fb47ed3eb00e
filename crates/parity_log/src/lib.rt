// The log as it stands in the cells: its walk, and its pending records by stripe.
#![tactic(auto)]

pub mod log;
pub mod pending;
pub mod stripes;
pub mod walk;
