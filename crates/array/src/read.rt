// Reading a block: from its disk, or from the row of its stripe where its column is lost.
ghost use Rattle.std.specs.Prelude.{◌≡◌, ◌-◌, ◌*◌, ◌<◌, ◌≤◌, length, OnErr};
ghost use Rattle.layout.specs.Stripes.{stripe_of, column_of};
ghost use Rattle.model.specs.Rules.{Read, lost_in, row_of};
ghost use Rattle.model.specs.Verdict.{of_block};
ghost use Rattle.parity_log.specs.Codes.{coding_on};
ghost use Rattle.array.specs.Calls.{view_of, coding_of, reply_of, wiped, Follows};
ghost use Rattle.array.specs.Reads.{ColumnRead};
ghost use Rattle.array.specs.Ready.{Opens};

use crate::array::{Array, WORK};
use crate::parts::{BLOCK, Block, Parts, Row, split_work};
use crate::places::get;
use crate::row::{check_repairable, good_slot, load_row, locate_block, row_column};
use crate::started::Started;
use backplane::Backplane;
use backplane::fault::Place;
use codes::Code;
use faults::fault::{ArrayFault, StripeFault};
use layout::blocks::WorkArea;

impl<B: Backplane, C: Code> Array<B, C> {
    // Reads the block of this number into 512 bytes. On a refusal these stay as they are.
    pub fn read(&mut self, block: u32, into: &mut [u8], work: &mut [u8]) -> Result<(), ArrayFault>
        ensures does { Follows B.Backplane C.Code (Read block (length into.old) (length work.old)) self.old (reply_of (λ _. of_block into.new) result) self.new }
        ensures kept { OnErr result (into.new ≡ into.old) }
        ensures area { work.new ≡ wiped work.old }
    {
        // a block of another length is told before a short work area, and an area that is long enough is wiped all the same
        if work.len() < WORK {
            if into.len() != BLOCK {
                return Err(ArrayFault::BlockLength);
            }
            return Err(ArrayFault::ShortWork);
        }
        let area = WorkArea(work);
        self.read_in(block, into, area.0)
    }

    fn read_in(&mut self, block: u32, into: &mut [u8], work: &mut [u8]) -> Result<(), ArrayFault>
        requires { 10240 ≤ length work.old }
        ensures does { Follows B.Backplane C.Code (Read block (length into.old) (length work.old)) self.old (reply_of (λ _. of_block into.new) result) self.new }
        ensures kept { OnErr result (into.new ≡ into.old) }
    {
        let Some(into) = into.as_mut_array::<BLOCK>() else {
            return Err(ArrayFault::BlockLength);
        };
        if !self.has_block(block) {
            return Err(ArrayFault::OfStripe(StripeFault::NoBlock));
        }
        let Some(started) = self.opened() else {
            return Err(ArrayFault::NotStarted);
        };
        self.read_open(&started, block, into, work)
    }

    // Reads a block of a started array.
    fn read_open(
        &mut self,
        started: &Started,
        block: u32,
        into: &mut Block,
        work: &mut [u8],
    ) -> Result<(), ArrayFault>
        requires started { Opens (coding_of B.Backplane C.Code self.old) (view_of B.Backplane C.Code self.old) started.now }
        requires block { block < (view_of B.Backplane C.Code self.old).blocks * ((view_of B.Backplane C.Code self.old).slots - C.Code.ROWS) }
        requires room { 10240 ≤ length work.old }
        ensures does { ColumnRead (coding_of B.Backplane C.Code self.old) (view_of B.Backplane C.Code self.old) started.now.header (stripe_of ((view_of B.Backplane C.Code self.old).slots - C.Code.ROWS) block) (column_of ((view_of B.Backplane C.Code self.old).slots - C.Code.ROWS) block) into.old result into.new }
        ensures plane { view_of B.Backplane C.Code self.new ≡ view_of B.Backplane C.Code self.old }
        ensures header { self.new.header ≡ self.old.header }
    {
        let (stripe, column) = locate_block::<B, C>(&self.backplane, started, block);
        let Parts { row, cell, .. } = split_work(work);
        read_column::<B, C>(
            &mut self.backplane,
            started,
            stripe,
            column,
            into,
            row,
            cell,
        )
    }
}

// Reads a column of a stripe: from its disk if it is good, else from the row, unless the stripe is past repair.
fn read_column<B: Backplane, C: Code>(
    plane: &mut B,
    started: &Started,
    stripe: u32,
    column: u8,
    into: &mut Block,
    row: &mut Row,
    cell: &mut Block,
) -> Result<(), ArrayFault>
    requires started { Opens (coding_on C.Code (B.Backplane.view plane.old)) (B.Backplane.view plane.old) started.now }
    requires stripe { stripe < (B.Backplane.view plane.old).blocks }
    requires column { column < started.now.shape.slots }
    ensures does { ColumnRead (coding_on C.Code (B.Backplane.view plane.old)) (B.Backplane.view plane.old) started.now.header stripe column into.old result into.new }
    ensures kept { B.Backplane.view plane.new ≡ B.Backplane.view plane.old }
{
    if let Some(slot) = good_slot(plane, started, stripe, column) {
        get(plane, Place::OfBlock(slot, stripe), into);
        return Ok(());
    }
    check_repairable::<B, C>(plane, started, stripe)?;
    read_lost::<B, C>(plane, started, stripe, column, into, row, cell);
    Ok(())
}

fn read_lost<B: Backplane, C: Code>(
    plane: &mut B,
    started: &Started,
    stripe: u32,
    column: u8,
    into: &mut Block,
    row: &mut Row,
    cell: &mut Block,
)
    requires started { Opens (coding_on C.Code (B.Backplane.view plane.old)) (B.Backplane.view plane.old) started.now }
    requires stripe { stripe < (B.Backplane.view plane.old).blocks }
    requires column { column < started.now.shape.slots }
    requires repairable { lost_in (coding_on C.Code (B.Backplane.view plane.old)) (B.Backplane.view plane.old) started.now.header stripe ≤ C.Code.ROWS }
    ensures got { into.new ≡ row_of (coding_on C.Code (B.Backplane.view plane.old)) (B.Backplane.view plane.old) started.now.header stripe column }
    ensures kept { B.Backplane.view plane.new ≡ B.Backplane.view plane.old }
{
    load_row::<B, C>(plane, started, stripe, row, cell);
    *into = *row_column(row, column);
}
