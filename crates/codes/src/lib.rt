// Codes: check bytes for the data bytes of a row, so that lost bytes can be solved.
#![tactic(auto)]

mod code;
mod double;
mod fault;
mod row;
mod single;

pub use code::{Code, encode, restore};
pub use double::DoubleParity;
pub use fault::RowFault;
pub use single::SingleParity;
