// Rebuilding a disk, a stripe at a time: its block is found from the row, and then counted as good.
ghost use Rattle.std.specs.Prelude.{◌≡◌, ◌+◌, ◌<◌, ◌≤◌, true, [], ◌∷◌, length, Some};
ghost use Rattle.backplane.specs.Plane.{to_block, to_cell};
ghost use Rattle.layout.specs.Header.{with_good, header_bytes};
ghost use Rattle.model.specs.Rules.{Rebuild, lost_in, rebuilt};
ghost use Rattle.model.specs.Verdict.{of_number};
ghost use Rattle.parity_log.specs.Codes.{coding_on};
ghost use Rattle.array.specs.Calls.{view_of, coding_of, shape_for, reply_of, wiped, Performed, Made, Same, Follows};
ghost use Rattle.array.specs.Ready.{Ready, Opens};
ghost use Rattle.array.specs.Repairs.{NextStripe, repairs};

use crate::array::Array;
use crate::parts::{Block, Parts, Row, check_work, split_work};
use crate::places::put;
use crate::row::{add_pending, check_repairable, load_row, row_column};
use crate::started::Started;
use backplane::Backplane;
use backplane::fault::{BackplaneFault, Place};
use codes::Code;
use faults::fault::ArrayFault;
use layout::blocks::WorkArea;
use layout::header::Header;
use layout::shape::Shape;
use layout::stripes::column_on;

impl<B: Backplane, C: Code> Array<B, C> {
    // Rebuilds the first stripe of a slot that is not good there, and answers how many are then.
    pub fn rebuild(&mut self, slot: u32, work: &mut [u8]) -> Result<u32, ArrayFault>
        ensures does { Follows B.Backplane C.Code (Rebuild slot (length work.old)) self.old (reply_of of_number result) self.new }
        ensures area { work.new ≡ wiped work.old }
    {
        check_work(work)?;
        let area = WorkArea(work);
        self.rebuild_in(slot, area.0)
    }

    fn rebuild_in(&mut self, slot: u32, work: &mut [u8]) -> Result<u32, ArrayFault>
        requires { 10240 ≤ length work.old }
        ensures { Follows B.Backplane C.Code (Rebuild slot (length work.old)) self.old (reply_of of_number result) self.new }
    {
        if !self.has_slot(slot) {
            return Err(ArrayFault::NoSlot);
        }
        let Some(started) = self.opened() else {
            return Err(ArrayFault::NotStarted);
        };
        match next_stripe::<B, C>(&self.backplane, &started, slot) {
            Err(fault) => Err(fault),
            Ok(stripe) => self.rebuild_stripe(&started, slot, stripe, split_work(work)),
        }
    }

    fn rebuild_stripe(
        &mut self,
        started: &Started,
        slot: u32,
        stripe: u32,
        parts: Parts<'_>,
    ) -> Result<u32, ArrayFault>
        requires started { Opens (coding_of B.Backplane C.Code self.old) (view_of B.Backplane C.Code self.old) started.now }
        requires slot { slot < (view_of B.Backplane C.Code self.old).slots }
        requires live { (view_of B.Backplane C.Code self.old).live slot ≡ true }
        requires stripe { stripe < (view_of B.Backplane C.Code self.old).blocks }
        requires repairable { lost_in (coding_of B.Backplane C.Code self.old) (view_of B.Backplane C.Code self.old) started.now.header stripe ≤ C.Code.ROWS }
        ensures { Made (repairs (coding_of B.Backplane C.Code self.old) (view_of B.Backplane C.Code self.old) started.now.header slot stripe ∷ []) Same (stripe + 1) (Some (with_good started.now.header slot (stripe + 1))) (view_of B.Backplane C.Code self.old) result (view_of B.Backplane C.Code self.new) self.new.header }
    {
        let Parts { row, cell, block } = parts;
        find_block::<B, C>(&mut self.backplane, started, slot, stripe, block, row, cell);
        let header = started.header.with_good(slot, stripe + 1);
        self.store_stripe(&started.shape, header, slot, stripe, block)
    }

    // Stores the block of a stripe, and then the header that counts it as good.
    fn store_stripe(
        &mut self,
        shape: &Shape,
        header: Header,
        slot: u32,
        stripe: u32,
        block: &Block,
    ) -> Result<u32, ArrayFault>
        requires ready { Ready C.Code.ROWS (view_of B.Backplane C.Code self.old) header }
        requires shape { shape.now ≡ shape_for B.Backplane C.Code self.old }
        requires slot { slot < (view_of B.Backplane C.Code self.old).slots }
        requires live { (view_of B.Backplane C.Code self.old).live slot ≡ true }
        requires stripe { stripe < (view_of B.Backplane C.Code self.old).blocks }
        ensures { Made ((to_block slot stripe block.now ∷ (to_cell 0 (header_bytes (shape_for B.Backplane C.Code self.old) header) ∷ [])) ∷ []) Same (stripe + 1) (Some header) (view_of B.Backplane C.Code self.old) result (view_of B.Backplane C.Code self.new) self.new.header }
    {
        let cell = header.cell(shape);
        self.hold_after(header, |plane| {
            store_rebuilt(plane, slot, stripe, block, &cell)
        })?;
        Ok(stripe + 1)
    }
}

// The first stripe of a slot that is not good there, if it can be rebuilt.
fn next_stripe<B: Backplane, C: Code>(
    plane: &B,
    started: &Started,
    slot: u32,
) -> Result<u32, ArrayFault>
    requires started { Opens (coding_on C.Code (B.Backplane.view plane.now)) (B.Backplane.view plane.now) started.now }
    requires slot { slot < 16 }
    ensures { NextStripe (coding_on C.Code (B.Backplane.view plane.now)) (B.Backplane.view plane.now) started.now.header slot result }
{
    if !plane.live(slot) {
        return Err(ArrayFault::OfBackplane(BackplaneFault::Dead));
    }
    let stripe = started.header.good[slot as usize];
    if stripe == plane.blocks() {
        return Err(ArrayFault::Rebuilt);
    }
    check_repairable::<B, C>(plane, started, stripe)?;
    Ok(stripe)
}

// Leaves what the slot is to hold of a stripe: a column of the row, a check block with the shares of the pending deltas.
fn find_block<B: Backplane, C: Code>(
    plane: &mut B,
    started: &Started,
    slot: u32,
    stripe: u32,
    block: &mut Block,
    row: &mut Row,
    cell: &mut Block,
)
    requires started { Opens (coding_on C.Code (B.Backplane.view plane.old)) (B.Backplane.view plane.old) started.now }
    requires slot { slot < (B.Backplane.view plane.old).slots }
    requires stripe { stripe < (B.Backplane.view plane.old).blocks }
    requires repairable { lost_in (coding_on C.Code (B.Backplane.view plane.old)) (B.Backplane.view plane.old) started.now.header stripe ≤ C.Code.ROWS }
    ensures found { block.new ≡ rebuilt (coding_on C.Code (B.Backplane.view plane.old)) (B.Backplane.view plane.old) started.now.header slot stripe }
    ensures kept { B.Backplane.view plane.new ≡ B.Backplane.view plane.old }
{
    let column = column_on(started.shape.slots, stripe, slot);
    load_row::<B, C>(plane, started, stripe, row, cell);
    add_pending::<B, C>(plane, started, stripe, column, row, cell);
    *block = *row_column(row, column);
}

// The block comes first, so that it is never counted as good before it is there.
fn store_rebuilt<B: Backplane>(
    plane: &mut B,
    slot: u32,
    stripe: u32,
    block: &Block,
    cell: &Block,
) -> Result<(), ArrayFault>
    requires power { (B.Backplane.view plane.old).on ≡ true }
    requires cells { 0 < (B.Backplane.view plane.old).cells }
    requires slot { slot < (B.Backplane.view plane.old).slots }
    requires live { (B.Backplane.view plane.old).live slot ≡ true }
    requires stripe { stripe < (B.Backplane.view plane.old).blocks }
    ensures { Performed (to_block slot stripe block.now ∷ (to_cell 0 cell.now ∷ [])) (B.Backplane.view plane.old) result (B.Backplane.view plane.new) }
{
    put(plane, Place::OfBlock(slot, stripe), block)?;
    put(plane, Place::OfCell(0), cell)
}
