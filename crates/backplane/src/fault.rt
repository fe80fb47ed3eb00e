// What a backplane answers in place of doing what it was asked.
ghost use Rattle.std.specs.Prelude.{◌≡◌};
ghost use Rattle.backplane.specs.Faults.{number, detail_a, detail_b};

use std::error::Error;
use std::fmt;

// The place of a store.
#[derive(Clone, Copy, Debug, PartialEq, Eq)]
pub enum Place {
    // slot and block
    OfBlock(u32, u32),
    OfCell(u32),
}

#[derive(Clone, Copy, Debug, PartialEq, Eq)]
pub enum BackplaneFault {
    // the power is off
    Off,
    // there is no such place, or other than 512 bytes are given
    NoPlace,
    // the slot's disk is dead
    Dead,
    // the slot's disk is live
    Live,
    // the power failed at this store
    Cut(Place),
}

impl BackplaneFault {
    // The number that a caller of the array is told; 0 for what never reaches one.
    pub fn number(self) -> u32
        ensures { result ≡ number self }
    {
        match self {
            BackplaneFault::Off => 0,
            BackplaneFault::NoPlace => 0,
            BackplaneFault::Live => 12,
            BackplaneFault::Dead => 13,
            BackplaneFault::Cut(_) => 20,
        }
    }

    // Slot and block of a cut, or 255 and cell; else 0 and 0.
    pub fn details(self) -> (u32, u32)
        ensures first { result.0 ≡ detail_a self }
        ensures second { result.1 ≡ detail_b self }
    {
        match self {
            BackplaneFault::Cut(Place::OfBlock(slot, block)) => (slot, block),
            BackplaneFault::Cut(Place::OfCell(cell)) => (255, cell),
            _ => (0, 0),
        }
    }
}

impl fmt::Display for BackplaneFault {
    fn fmt<W: fmt::Write>(&self, f: &mut fmt::Formatter<W>) -> fmt::Result {
        match *self {
            BackplaneFault::Off => write!(f, "backplane: the power is off"),
            BackplaneFault::NoPlace => write!(f, "backplane: no such place"),
            BackplaneFault::Dead => write!(f, "backplane: the disk is dead"),
            BackplaneFault::Live => write!(f, "backplane: the disk is live"),
            BackplaneFault::Cut(Place::OfBlock(slot, block)) => {
                write!(
                    f,
                    "backplane: the power failed at block {block} of slot {slot}"
                )
            }
            BackplaneFault::Cut(Place::OfCell(cell)) => {
                write!(f, "backplane: the power failed at cell {cell}")
            }
        }
    }
}

impl Error for BackplaneFault {}
