// Why a row is left as it was.
ghost use Rattle.std.specs.Prelude.{Some};
ghost use Rattle.codes.specs.Fault.{shown};

use std::error::Error;
use std::fmt;

#[derive(Clone, Copy, Debug, PartialEq, Eq)]
pub enum RowFault {
    // the sizes do not fit the code, or the lost places are past the row or too many
    Unsolvable,
    // the sizes do not fit the code
    Uncodable,
}

impl fmt::Display for RowFault {
    ghost output = { λ f. Some (shown f) };

    fn fmt<W: fmt::Write>(&self, f: &mut fmt::Formatter<W>) -> fmt::Result {
        f.write_str(match self {
            RowFault::Unsolvable => "row: not to be solved by this code",
            RowFault::Uncodable => "row: no place for the checks of this code",
        })
    }
}

impl Error for RowFault {}
