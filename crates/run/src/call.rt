// The calls of a run, and what they are answered.
ghost use Rattle.std.specs.Prelude.{◌≡◌};
ghost use Rattle.run.specs.declared.call.Outcome.TheVariants.{Done, Block, Number};
ghost use Rattle.run.specs.declared.call.RunFault.TheVariants.{Format, NoMemory};

use faults::fault::ArrayFault;
use std::alloc::AllocError;
use std::error::Error;
use std::fmt;

#[derive(Clone, Copy, Debug, PartialEq, Eq)]
pub enum Call<'a> {
    // a block number
    Read(u32),
    Clear,
    // a slot
    Pull(u32),
    // a slot
    Fit(u32),
    // a slot
    Rebuild(u32),
    Start,
    // a block number and the block
    Write(u32, &'a [u8]),
    // a stripe
    Fold(u32),
}

// What a call gives that is not refused.
#[derive(Clone, Copy, Debug, PartialEq, Eq)]
pub enum Outcome {
    Done,
    Block([u8; 512]),
    Number(u32),
}

// What a call is answered.
pub type Answer = Result<Outcome, ArrayFault>;

impl From<()> for Outcome {
    ghost from_gives = { λ _ r. r ≡ Done };

    fn from(_: ()) -> Outcome {
        Outcome::Done
    }
}

impl From<[u8; 512]> for Outcome {
    ghost from_gives = { λ b r. r ≡ Block b };

    fn from(b: [u8; 512]) -> Outcome {
        Outcome::Block(b)
    }
}

impl From<u32> for Outcome {
    ghost from_gives = { λ n r. r ≡ Number n };

    fn from(n: u32) -> Outcome {
        Outcome::Number(n)
    }
}

// Why a run was not made whole.
#[derive(Clone, Copy, Debug, PartialEq, Eq)]
pub enum RunFault {
    // the array could not be formatted, and no call was made
    Format(ArrayFault),
    // there was no memory for an answer, and no call was made after it
    NoMemory(AllocError),
}

impl From<ArrayFault> for RunFault {
    ghost from_gives = { λ f r. r ≡ Format f };

    fn from(f: ArrayFault) -> RunFault {
        RunFault::Format(f)
    }
}

impl From<AllocError> for RunFault {
    ghost from_gives = { λ e r. r ≡ NoMemory e };

    fn from(e: AllocError) -> RunFault {
        RunFault::NoMemory(e)
    }
}

impl fmt::Display for RunFault {
    fn fmt<W: fmt::Write>(&self, f: &mut fmt::Formatter<W>) -> fmt::Result {
        match *self {
            RunFault::Format(fault) => write!(f, "the array could not be formatted: {fault}"),
            RunFault::NoMemory(_) => write!(f, "no memory for the answers"),
        }
    }
}

impl Error for RunFault {}
