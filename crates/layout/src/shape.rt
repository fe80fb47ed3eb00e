// What cell 0 says of the code and of the backplane.
ghost use Rattle.std.specs.Prelude.{◌≡◌, ◌≤◌, is_some, if◌then◌else◌, nat_lt};
ghost use Rattle.layout.specs.Limits.{within_limits, shape_of, shape_with};

use backplane::sizes::Sizes;

#[derive(Clone, Copy, Debug, PartialEq, Eq)]
pub struct Shape {
    // the code's number
    pub code: u8,
    // the data columns
    pub columns: u8,
    // the slots, one for each column
    pub slots: u8,
    // the blocks on each disk, one for each stripe
    pub blocks: u32,
    // the log cells
    pub cells: u32,
}

impl Shape {
    // The shape of an array with so many check rows on a backplane of these sizes, if it is within the limits.
    pub fn of(code: u8, rows: u32, sizes: Sizes) -> Option<Shape>
        ensures value { result ≡ shape_of code rows sizes.slots sizes.blocks sizes.cells }
        ensures limits { 1 ≤ rows → rows ≤ 4 → is_some result ≡ within_limits rows (shape_with code rows sizes.slots sizes.blocks sizes.cells) }
    {
        let columns = sizes.slots.saturating_sub(rows);
        if !(1..=4).contains(&rows) || columns > 12 {
            return None;
        }
        let shape = Shape {
            code,
            columns: columns as u8,
            slots: sizes.slots as u8,
            blocks: sizes.blocks,
            cells: sizes.cells,
        };
        shape.within(rows).then_some(shape)
    }

    // Whether the limits are kept, with so many check rows.
    pub fn within(&self, rows: u32) -> bool
        ensures { result ≡ within_limits rows self.now }
    {
        (2..=12).contains(&self.columns)
            && self.slots as u64 == self.columns as u64 + rows as u64
            && (1..=65536).contains(&self.blocks)
            && (8..=4096).contains(&self.cells)
    }

    // How many good stripes a slot may have: none where there is no slot.
    pub(crate) fn most_good(&self, slot: usize) -> u32
        ensures { result ≡ (if nat_lt slot self.now.slots then self.now.blocks else 0) }
    {
        if slot < self.slots as usize {
            self.blocks
        } else {
            0
        }
    }
}
