// The faults of the log, of stripes and of the array.
ghost use Rattle.std.specs.Prelude.{◌≡◌};
ghost use Rattle.faults.specs.declared.fault.LogFault.TheVariants.{AtCell};
ghost use Rattle.faults.specs.declared.fault.StripeFault.TheVariants.{AtBlock};
ghost use Rattle.faults.specs.declared.fault.ArrayFault.TheVariants.{OfBackplane, OfLog, OfStripe};

use backplane::fault::BackplaneFault;

#[derive(Clone, Copy, Debug, PartialEq, Eq)]
pub enum LogFault {
    // the log has no room for the record; so many cells are free
    Full(u32),
    // this stripe has pending records, and none below it has
    Pending(u32),
    // the record that begins in this cell breaks the layout
    Damaged(u32),
    // the log has no room for the parity records that it owes
    Overfull,
    AtCell(BackplaneFault),
}

#[derive(Clone, Copy, Debug, PartialEq, Eq)]
pub enum StripeFault {
    // there is no block of this number
    NoBlock,
    // there is no stripe of this number
    NoStripe,
    // this stripe has so many lost columns, more than it has checks
    PastRepair(u32, u32),
    AtBlock(BackplaneFault),
}

#[derive(Clone, Copy, Debug, PartialEq, Eq)]
pub enum ArrayFault {
    // the block given is not 512 bytes
    BlockLength,
    // the work area is too short
    ShortWork,
    // there is no slot of this number
    NoSlot,
    // the backplane's sizes are outside the limits
    Sizes,
    // the array is not started
    NotStarted,
    // every stripe of the slot is good
    Rebuilt,
    // cell 0 is not as laid out for this code and backplane
    NotLaidOut,
    OfBackplane(BackplaneFault),
    OfLog(LogFault),
    OfStripe(StripeFault),
}

impl From<BackplaneFault> for LogFault {
    ghost from_gives = { λ f r. r ≡ AtCell f };

    fn from(f: BackplaneFault) -> LogFault {
        LogFault::AtCell(f)
    }
}

impl From<BackplaneFault> for StripeFault {
    ghost from_gives = { λ f r. r ≡ AtBlock f };

    fn from(f: BackplaneFault) -> StripeFault {
        StripeFault::AtBlock(f)
    }
}

impl From<BackplaneFault> for ArrayFault {
    ghost from_gives = { λ f r. r ≡ OfBackplane f };

    fn from(f: BackplaneFault) -> ArrayFault {
        ArrayFault::OfBackplane(f)
    }
}

impl From<LogFault> for ArrayFault {
    ghost from_gives = { λ f r. r ≡ OfLog f };

    fn from(f: LogFault) -> ArrayFault {
        ArrayFault::OfLog(f)
    }
}

impl From<StripeFault> for ArrayFault {
    ghost from_gives = { λ f r. r ≡ OfStripe f };

    fn from(f: StripeFault) -> ArrayFault {
        ArrayFault::OfStripe(f)
    }
}
