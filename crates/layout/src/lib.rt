// The formats: blocks and numbers in bytes, the places of stripes, cell 0, and the heads of log records.
#![tactic(auto)]

pub mod blocks;
pub mod head;
pub mod header;
pub mod marks;
pub mod shape;
pub mod stripes;
