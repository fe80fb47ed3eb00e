// A line of text for each fault: the layer it arose in, where, and what happened.
use crate::fault::{ArrayFault, LogFault, StripeFault};
use std::error::Error;
use std::fmt;

impl fmt::Display for LogFault {
    fn fmt<W: fmt::Write>(&self, f: &mut fmt::Formatter<W>) -> fmt::Result {
        match *self {
            LogFault::Full(free) => write!(f, "log: full, with {free} cells free"),
            LogFault::Pending(stripe) => write!(f, "log: stripe {stripe} has pending records"),
            LogFault::Damaged(cell) => write!(f, "log: damaged at cell {cell}"),
            LogFault::Overfull => write!(f, "log: no room for the parity records that it owes"),
            LogFault::AtCell(fault) => write!(f, "{fault}"),
        }
    }
}

impl fmt::Display for StripeFault {
    fn fmt<W: fmt::Write>(&self, f: &mut fmt::Formatter<W>) -> fmt::Result {
        match *self {
            StripeFault::NoBlock => write!(f, "stripe: no such block"),
            StripeFault::NoStripe => write!(f, "stripe: no such stripe"),
            StripeFault::PastRepair(stripe, lost) => write!(
                f,
                "stripe: {stripe} has {lost} lost columns, more than its checks restore"
            ),
            StripeFault::AtBlock(fault) => write!(f, "{fault}"),
        }
    }
}

impl fmt::Display for ArrayFault {
    fn fmt<W: fmt::Write>(&self, f: &mut fmt::Formatter<W>) -> fmt::Result {
        match *self {
            ArrayFault::BlockLength => write!(f, "array: the block given is not 512 bytes"),
            ArrayFault::ShortWork => write!(f, "array: the work area is too short"),
            ArrayFault::NoSlot => write!(f, "array: no such slot"),
            ArrayFault::Sizes => write!(f, "array: the backplane's sizes are outside the limits"),
            ArrayFault::NotStarted => write!(f, "array: not started"),
            ArrayFault::Rebuilt => write!(f, "array: every stripe of the slot is good"),
            ArrayFault::NotLaidOut => write!(
                f,
                "array: cell 0 is not as laid out for this code and backplane"
            ),
            ArrayFault::OfBackplane(fault) => write!(f, "{fault}"),
            ArrayFault::OfLog(fault) => write!(f, "{fault}"),
            ArrayFault::OfStripe(fault) => write!(f, "{fault}"),
        }
    }
}

impl Error for LogFault {}

impl Error for StripeFault {}

impl Error for ArrayFault {}
