// Why there is no row.
ghost use Rattle.std.specs.Prelude.{◌≡◌};
ghost use Rattle.rows.specs.declared.fault.RowError.TheVariants.{AtPlace};

use backplane::fault::BackplaneFault;
use std::error::Error;
use std::fmt;

#[derive(Clone, Copy, Debug, PartialEq, Eq)]
pub enum RowError {
    // there is no such row, or it cannot be solved, or the bytes given have no room
    NoRow,
    // carried by `?` only: no public function of rows answers it
    AtPlace(BackplaneFault),
}

impl From<BackplaneFault> for RowError {
    ghost from_gives = { λ f r. r ≡ AtPlace f };

    fn from(f: BackplaneFault) -> RowError {
        RowError::AtPlace(f)
    }
}

impl fmt::Display for RowError {
    fn fmt<W: fmt::Write>(&self, f: &mut fmt::Formatter<W>) -> fmt::Result {
        match *self {
            RowError::NoRow => write!(f, "row: there is none"),
            RowError::AtPlace(fault) => write!(f, "row: {fault}"),
        }
    }
}

impl Error for RowError {}
