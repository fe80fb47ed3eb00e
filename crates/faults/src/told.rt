// What a caller is told of a fault: its number, its layer and two details.
ghost use Rattle.std.specs.Prelude.{◌≡◌};
ghost use Rattle.model.specs.Verdict.{Refusal};
ghost use Rattle.faults.specs.Refusals.{backplane_refusal, log_refusal, stripe_refusal, array_refusal, layer_named};

use crate::fault::{ArrayFault, LogFault, StripeFault};
use backplane::fault::BackplaneFault;

// The layer in which a fault arose.
#[derive(Clone, Copy, Debug, PartialEq, Eq)]
pub enum Layer {
    Backplane,
    Log,
    Stripe,
    Array,
}

// A fault that a caller is told of, by the refusal of the rules that belongs to it.
pub trait Told {
    ghost refusal: { Self → Refusal };

    // The numbers are fixed by the rules of the calls.
    fn number(self) -> u32
        ensures { result ≡ (refusal self).number };

    fn layer(self) -> Layer
        ensures { layer_named result ≡ (refusal self).layer };

    // Where it happened: two numbers, 0 and 0 where the number says it all.
    fn details(self) -> (u32, u32)
        ensures first { result.0 ≡ (refusal self).a }
        ensures second { result.1 ≡ (refusal self).b };
}

impl Told for BackplaneFault {
    ghost refusal = { backplane_refusal };

    fn number(self) -> u32 {
        BackplaneFault::number(self)
    }

    fn layer(self) -> Layer {
        Layer::Backplane
    }

    fn details(self) -> (u32, u32) {
        BackplaneFault::details(self)
    }
}

impl Told for LogFault {
    ghost refusal = { log_refusal };

    fn number(self) -> u32 {
        match self {
            LogFault::Full(_) => 16,
            LogFault::Pending(_) => 17,
            LogFault::Damaged(_) => 19,
            LogFault::Overfull => 19,
            LogFault::AtCell(f) => f.number(),
        }
    }

    fn layer(self) -> Layer {
        match self {
            LogFault::AtCell(f) => f.layer(),
            _ => Layer::Log,
        }
    }

    fn details(self) -> (u32, u32) {
        match self {
            LogFault::Full(free) => (free, 0),
            LogFault::Pending(stripe) => (stripe, 0),
            LogFault::Damaged(cell) => (cell, 0),
            LogFault::Overfull => (0, 0),
            LogFault::AtCell(f) => f.details(),
        }
    }
}

impl Told for StripeFault {
    ghost refusal = { stripe_refusal };

    fn number(self) -> u32 {
        match self {
            StripeFault::NoBlock => 3,
            StripeFault::NoStripe => 4,
            StripeFault::PastRepair(_, _) => 15,
            StripeFault::AtBlock(f) => f.number(),
        }
    }

    fn layer(self) -> Layer {
        match self {
            StripeFault::AtBlock(f) => f.layer(),
            _ => Layer::Stripe,
        }
    }

    fn details(self) -> (u32, u32) {
        match self {
            StripeFault::PastRepair(stripe, lost) => (stripe, lost),
            StripeFault::AtBlock(f) => f.details(),
            _ => (0, 0),
        }
    }
}

impl Told for ArrayFault {
    ghost refusal = { array_refusal };

    fn number(self) -> u32 {
        match self {
            ArrayFault::BlockLength => 1,
            ArrayFault::ShortWork => 2,
            ArrayFault::NoSlot => 5,
            ArrayFault::Sizes => 6,
            ArrayFault::NotStarted => 11,
            ArrayFault::Rebuilt => 14,
            ArrayFault::NotLaidOut => 18,
            ArrayFault::OfBackplane(f) => f.number(),
            ArrayFault::OfLog(f) => f.number(),
            ArrayFault::OfStripe(f) => f.number(),
        }
    }

    fn layer(self) -> Layer {
        match self {
            ArrayFault::OfBackplane(f) => f.layer(),
            ArrayFault::OfLog(f) => f.layer(),
            ArrayFault::OfStripe(f) => f.layer(),
            _ => Layer::Array,
        }
    }

    fn details(self) -> (u32, u32) {
        match self {
            ArrayFault::OfBackplane(f) => f.details(),
            ArrayFault::OfLog(f) => f.details(),
            ArrayFault::OfStripe(f) => f.details(),
            _ => (0, 0),
        }
    }
}
