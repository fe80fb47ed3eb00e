// What a started array goes by.
ghost use Rattle.std.specs.Prelude.{◌≡◌, ◌-◌, ◌≤◌};

use layout::header::Header;
use layout::shape::Shape;
use parity_log::log::Log;
use rows::stripe::Stripe;

// The header held, and the shape that it fits.
#[derive(Clone, Copy, Debug, PartialEq, Eq)]
pub struct Started {
    pub header: Header,
    pub shape: Shape,
}

impl Started {
    // The log in the cells in use.
    pub(crate) fn log(&self) -> Log
        ensures columns { result.columns ≡ self.now.shape.columns }
        ensures used { result.used ≡ self.now.header.used }
    {
        Log {
            columns: self.shape.columns,
            used: self.header.used,
        }
    }

    // How many check rows a stripe has.
    pub(crate) fn checks(&self) -> u8
        requires { self.now.shape.columns ≤ self.now.shape.slots }
        ensures { result ≡ self.now.shape.slots - self.now.shape.columns }
    {
        self.shape.slots - self.shape.columns
    }

    // The stripe of this number.
    pub(crate) fn stripe(&self, number: u32) -> Stripe<'_>
        ensures header { result.header.now ≡ self.now.header }
        ensures columns { result.columns ≡ self.now.shape.slots }
        ensures number { result.number ≡ number }
    {
        Stripe {
            header: &self.header,
            columns: self.shape.slots,
            number,
        }
    }
}
