// The array: blocks spread over the disks of a backplane with their checks, and a log from which an interrupted store is finished.
#![tactic(auto)]

pub mod array;
pub mod clear;
mod finish;
pub mod fold;
pub mod format;
mod parity;
mod parts;
mod places;
pub mod read;
pub mod rebuild;
mod record;
mod records;
mod row;
pub mod slots;
pub mod start;
pub mod started;
pub mod state;
pub mod write;
