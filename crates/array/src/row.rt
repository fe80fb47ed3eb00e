// A stripe of a started array: where its blocks lie, its columns, and its row.
ghost use Rattle.std.specs.Prelude.{◌≡◌, ◌+◌, ◌-◌, ◌*◌, ◌<◌, ◌≤◌, true, false, IfSome, MatchOption};
ghost use Rattle.layout.specs.Bytes.{sum_of};
ghost use Rattle.layout.specs.Stripes.{slot_of, stripe_of, column_of};
ghost use Rattle.model.specs.Row.{good_at, settled_with};
ghost use Rattle.model.specs.Rules.{good_of, log_of, lost_in, row_of};
ghost use Rattle.rows.specs.Columns.{column_in};
ghost use Rattle.rows.specs.Rows.{HoldsRow};
ghost use Rattle.parity_log.specs.Codes.{coding_on};
ghost use Rattle.array.specs.Calls.{Performed};
ghost use Rattle.array.specs.Ready.{Fits, Opens};
ghost use Rattle.array.specs.Repairs.{Repairable};
ghost use Rattle.array.specs.Starts.{to_good};

use crate::parts::{BLOCK, Block, Row};
use crate::places::put;
use crate::started::Started;
use backplane::Backplane;
use backplane::fault::Place;
use codes::Code;
use faults::fault::{ArrayFault, StripeFault};
use layout::blocks::sum_into;
use layout::stripes::{locate, place};
use rows::row::{add_pending_to_column, row_of_stripe};

// The stripe and the column of a block that there is.
pub(crate) fn locate_block<B: Backplane, C: Code>(
    plane: &B,
    started: &Started,
    block: u32,
) -> (u32, u8)
    requires started { Opens (coding_on C.Code (B.Backplane.view plane.now)) (B.Backplane.view plane.now) started.now }
    requires block { block < (B.Backplane.view plane.now).blocks * ((B.Backplane.view plane.now).slots - C.Code.ROWS) }
    ensures stripe { result.0 ≡ stripe_of ((B.Backplane.view plane.now).slots - C.Code.ROWS) block }
    ensures column { result.1 ≡ column_of ((B.Backplane.view plane.now).slots - C.Code.ROWS) block }
    ensures within { result.0 < (B.Backplane.view plane.now).blocks }
    ensures below { result.1 < started.now.shape.slots }
{
    locate(started.shape.columns, block)
}

// Refuses a stripe that is past repair: one with more lost columns than checks.
pub(crate) fn check_repairable<B: Backplane, C: Code>(
    plane: &B,
    started: &Started,
    stripe: u32,
) -> Result<(), StripeFault>
    requires { Opens (coding_on C.Code (B.Backplane.view plane.now)) (B.Backplane.view plane.now) started.now }
    ensures { Repairable (coding_on C.Code (B.Backplane.view plane.now)) (B.Backplane.view plane.now) started.now.header stripe result }
{
    let lost = started.stripe(stripe).count_lost(plane);
    if lost as usize > C::ROWS {
        return Err(StripeFault::PastRepair(stripe, lost));
    }
    Ok(())
}

// The slot of a column of a stripe, where its block there is good.
pub(crate) fn good_slot<B: Backplane>(
    plane: &B,
    started: &Started,
    stripe: u32,
    column: u8,
) -> Option<u32>
    requires { Fits (B.Backplane.view plane.now) started.now }
    ensures value { MatchOption result (good_at started.now.shape.slots (B.Backplane.view plane.now).live (good_of started.now.header) stripe column ≡ false) (λ d. (good_at started.now.shape.slots (B.Backplane.view plane.now).live (good_of started.now.header) stripe column ≡ true) × (d ≡ slot_of started.now.shape.slots stripe column)) }
    ensures live { IfSome result (λ d. (d < (B.Backplane.view plane.now).slots) × ((B.Backplane.view plane.now).live d ≡ true)) }
{
    let (slot, _) = place(started.shape.slots, stripe, column);
    if plane.live(slot) && stripe < started.stripe(stripe).good_stripes(slot) {
        Some(slot)
    } else {
        None
    }
}

// Stores bytes in the block of a column of a stripe, where that is good.
pub(crate) fn store_good<B: Backplane>(
    plane: &mut B,
    started: &Started,
    stripe: u32,
    column: u8,
    bytes: &Block,
) -> Result<(), ArrayFault>
    requires fits { Fits (B.Backplane.view plane.old) started.now }
    requires stripe { stripe < (B.Backplane.view plane.old).blocks }
    ensures { Performed (to_good started.now.shape.slots (B.Backplane.view plane.old).live started.now.header stripe column bytes.now) (B.Backplane.view plane.old) result (B.Backplane.view plane.new) }
{
    match good_slot(plane, started, stripe, column) {
        Some(slot) => put(plane, Place::OfBlock(slot, stripe), bytes),
        None => Ok(()),
    }
}

// Reads the row of a stripe that is not past repair.
pub(crate) fn load_row<B: Backplane, C: Code>(
    plane: &mut B,
    started: &Started,
    stripe: u32,
    row: &mut Row,
    cell: &mut Block,
)
    requires started { Opens (coding_on C.Code (B.Backplane.view plane.old)) (B.Backplane.view plane.old) started.now }
    requires stripe { stripe < (B.Backplane.view plane.old).blocks }
    requires repairable { lost_in (coding_on C.Code (B.Backplane.view plane.old)) (B.Backplane.view plane.old) started.now.header stripe ≤ C.Code.ROWS }
    ensures holds { HoldsRow (coding_on C.Code (B.Backplane.view plane.old)) (B.Backplane.view plane.old) started.now.header stripe row.new }
    ensures kept { B.Backplane.view plane.new ≡ B.Backplane.view plane.old }
{
    row_of_stripe::<B, C>(plane, &started.header, stripe, row, cell).unwrap();
}

// Adds the shares of the pending deltas to a column of the row, if that is a check column.
pub(crate) fn add_pending<B: Backplane, C: Code>(
    plane: &mut B,
    started: &Started,
    stripe: u32,
    column: u8,
    row: &mut Row,
    cell: &mut Block,
)
    requires started { Opens (coding_on C.Code (B.Backplane.view plane.old)) (B.Backplane.view plane.old) started.now }
    requires column { column < started.now.shape.slots }
    ensures settled { column_in row.new column ≡ settled_with (coding_on C.Code (B.Backplane.view plane.old)) (log_of (coding_on C.Code (B.Backplane.view plane.old)) (B.Backplane.view plane.old) started.now.header) stripe column (column_in row.old column) }
    ensures kept { B.Backplane.view plane.new ≡ B.Backplane.view plane.old }
{
    add_pending_to_column::<B, C>(plane, &started.header, stripe, column, row, cell).unwrap();
}

// A column of the row.
pub(crate) fn row_column(row: &Row, column: u8) -> &Block
    requires { column < 16 }
    ensures { result.now ≡ column_in row.now column }
{
    let Some(block) = row[BLOCK * column as usize..].first_chunk() else {
        unreachable()
    };
    block
}
