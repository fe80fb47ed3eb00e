// Good and lost columns of a stripe, by the slots' life and their good stripes.
ghost use Rattle.std.specs.Prelude.{◌≡◌};
ghost use Rattle.model.specs.Row.{missing};
ghost use Rattle.model.specs.Rules.{good_of};
ghost use Rattle.rows.specs.Lost.{is_lost_of, lost_flags};

use backplane::Backplane;
use layout::header::Header;
use layout::stripes::place;

// A stripe of an array, with so many columns in its row, and what cell 0 says of them.
#[derive(Clone, Copy, Debug, PartialEq, Eq)]
pub struct Stripe<'a> {
    pub header: &'a Header,
    pub columns: u8,
    pub number: u32,
}

impl Stripe<'_> {
    // Whether this is one of the columns, and its block is lost: its slot is dead, or the stripe is not below that slot's good stripes.
    pub fn is_lost<B: Backplane>(self, plane: &B, column: u8) -> bool
        ensures { result ≡ is_lost_of self.entry.columns (B.Backplane.view plane.now).live (good_of self.entry.header.now) self.entry.number column }
    {
        if column >= self.columns {
            return false;
        }
        let (slot, _) = place(self.columns, self.number, column);
        !(plane.live(slot) & (self.number < self.good_stripes(slot)))
    }

    // A flag for each lost column; only sixteen columns are looked at.
    pub fn lost_columns<B: Backplane>(self, plane: &B) -> [bool; 16]
        ensures { result ≡ lost_flags self.entry.columns (B.Backplane.view plane.now).live (good_of self.entry.header.now) self.entry.number }
    {
        std::array::from_fn(|c| self.is_lost(plane, c as u8))
    }

    // How many columns are lost.
    pub fn count_lost<B: Backplane>(self, plane: &B) -> u32
        ensures { result ≡ missing self.entry.columns (B.Backplane.view plane.now).live (good_of self.entry.header.now) self.entry.number }
    {
        (0..self.columns)
            .filter(|c| self.is_lost(plane, *c))
            .count() as u32
    }

    // The good stripes of a slot, none past the last slot.
    pub fn good_stripes(self, slot: u32) -> u32
        ensures { result ≡ good_of self.entry.header.now slot }
    {
        self.header.good.get(slot as usize).copied().unwrap_or(0)
    }
}
