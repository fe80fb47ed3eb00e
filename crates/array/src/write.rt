// Writing a block: its record goes into the log, is counted there, and then the block goes to its disk.
ghost use Rattle.std.specs.Prelude.{◌≡◌, ℕ, ◌+◌, ◌-◌, ◌*◌, ◌<◌, ◌≤◌, List, ◌∷◌, length, Some};
ghost use Rattle.layout.specs.Bytes.{sum_of};
ghost use Rattle.layout.specs.Stripes.{stripe_of, column_of};
ghost use Rattle.model.specs.Log.{write, owed};
ghost use Rattle.model.specs.Rules.{Write, log_of, lost_in, row_of, grown, write_open};
ghost use Rattle.parity_log.specs.Codes.{coding_on};
ghost use Rattle.array.specs.Calls.{view_of, coding_of, acked, reply_of, wiped, Made, Same, Ended, Follows};
ghost use Rattle.array.specs.Ready.{Fits, Opens};
ghost use Rattle.array.specs.Records.{appending, write_stores};
ghost use Rattle.array.specs.Writes.{WriteJudged};

use crate::array::{Array, WORK};
use crate::parts::{BLOCK, Block, Parts, Row, split_work};
use crate::record::{RECORD, Record, store_write};
use crate::records::{count_pending, lacks_room};
use crate::row::{check_repairable, load_row, locate_block, row_column};
use crate::started::Started;
use backplane::Backplane;
use codes::Code;
use faults::fault::{ArrayFault, LogFault, StripeFault};
use layout::blocks::{WorkArea, sum_into};
use layout::head::Head;
use layout::header::Header;

impl<B: Backplane, C: Code> Array<B, C> {
    // Writes 512 bytes to the block of this number. Once that is acknowledged no power cut undoes it.
    pub fn write(&mut self, block: u32, bytes: &[u8], work: &mut [u8]) -> Result<(), ArrayFault>
        ensures does { Follows B.Backplane C.Code (Write block bytes.now (length work.old)) self.old (reply_of acked result) self.new }
        ensures area { work.new ≡ wiped work.old }
    {
        // a block of another length is told before a short work area, and an area that is long enough is wiped all the same
        if work.len() < WORK {
            if bytes.len() != BLOCK {
                return Err(ArrayFault::BlockLength);
            }
            return Err(ArrayFault::ShortWork);
        }
        let area = WorkArea(work);
        self.write_in(block, bytes, area.0)
    }

    fn write_in(&mut self, block: u32, bytes: &[u8], work: &mut [u8]) -> Result<(), ArrayFault>
        requires { 10240 ≤ length work.old }
        ensures { Follows B.Backplane C.Code (Write block bytes.now (length work.old)) self.old (reply_of acked result) self.new }
    {
        let Ok(bytes) = <&Block>::try_from(bytes) else {
            return Err(ArrayFault::BlockLength);
        };
        if !self.has_block(block) {
            return Err(ArrayFault::OfStripe(StripeFault::NoBlock));
        }
        let Some(started) = self.opened() else {
            return Err(ArrayFault::NotStarted);
        };
        self.write_open(&started, block, bytes, work)
    }

    // Writes a block of a started array.
    fn write_open(
        &mut self,
        started: &Started,
        block: u32,
        bytes: &Block,
        work: &mut [u8],
    ) -> Result<(), ArrayFault>
        requires started { Opens (coding_of B.Backplane C.Code self.old) (view_of B.Backplane C.Code self.old) started.now }
        requires block { block < (view_of B.Backplane C.Code self.old).blocks * ((view_of B.Backplane C.Code self.old).slots - C.Code.ROWS) }
        requires room { 10240 ≤ length work.old }
        ensures { Ended B.Backplane C.Code (write_open (coding_of B.Backplane C.Code self.old) (view_of B.Backplane C.Code self.old) started.now.header (stripe_of ((view_of B.Backplane C.Code self.old).slots - C.Code.ROWS) block) (column_of ((view_of B.Backplane C.Code self.old).slots - C.Code.ROWS) block) bytes.now) self.old (reply_of acked result) self.new }
    {
        let (stripe, column) = locate_block::<B, C>(&self.backplane, started, block);
        self.write_column(started, stripe, column, bytes, split_work(work))
    }

    // Writes a column of a stripe.
    fn write_column(
        &mut self,
        started: &Started,
        stripe: u32,
        column: u8,
        bytes: &Block,
        parts: Parts<'_>,
    ) -> Result<(), ArrayFault>
        requires started { Opens (coding_of B.Backplane C.Code self.old) (view_of B.Backplane C.Code self.old) started.now }
        requires stripe { stripe < (view_of B.Backplane C.Code self.old).blocks }
        requires column { column < started.now.shape.slots }
        ensures { Ended B.Backplane C.Code (write_open (coding_of B.Backplane C.Code self.old) (view_of B.Backplane C.Code self.old) started.now.header stripe column bytes.now) self.old (reply_of acked result) self.new }
    {
        let Parts { row, cell, block } = parts;
        check_write::<B, C>(&mut self.backplane, started, stripe, row, cell)?;
        find_delta::<B, C>(
            &mut self.backplane,
            started,
            stripe,
            column,
            bytes,
            block,
            row,
            cell,
        );
        self.append_write(started, stripe, column, bytes, block)
    }

    // Appends the record of a write, and finishes it where its column is good.
    fn append_write(
        &mut self,
        started: &Started,
        stripe: u32,
        column: u8,
        bytes: &Block,
        delta: &Block,
    ) -> Result<(), ArrayFault>
        requires started { Opens (coding_of B.Backplane C.Code self.old) (view_of B.Backplane C.Code self.old) started.now }
        requires stripe { stripe < (view_of B.Backplane C.Code self.old).blocks }
        requires free { started.now.header.used + 3 < (view_of B.Backplane C.Code self.old).cells }
        ensures { Made (appending (coding_of B.Backplane C.Code self.old) (view_of B.Backplane C.Code self.old) started.now.header (write stripe column delta.now bytes.now)) Same tt (Some (grown (coding_of B.Backplane C.Code self.old) (view_of B.Backplane C.Code self.old) started.now.header (write stripe column delta.now bytes.now))) (view_of B.Backplane C.Code self.old) result (view_of B.Backplane C.Code self.new) self.new.header }
    {
        let head = Head::OfWrite(stripe, column).cell();
        let counted = started.header.with_used(started.header.used + RECORD);
        let cell = counted.cell(&started.shape);
        let written = Record {
            head: &head,
            delta,
            image: bytes,
            cell: &cell,
        };
        self.store_counted(started, counted, stripe, column, written)
    }

    // No header is held from the first store to the last, so that a cut leaves the array not started. Not by `hold_after`: its closure would repeat the clauses of `store_write`.
    fn store_counted(
        &mut self,
        started: &Started,
        header: Header,
        stripe: u32,
        column: u8,
        written: Record<'_>,
    ) -> Result<(), ArrayFault>
        requires fits { Fits (view_of B.Backplane C.Code self.old) started.now }
        requires free { started.now.header.used + 3 < (view_of B.Backplane C.Code self.old).cells }
        requires stripe { stripe < (view_of B.Backplane C.Code self.old).blocks }
        ensures { Made (write_stores started.now.shape.slots (view_of B.Backplane C.Code self.old).live started.now.header stripe column written.entry.head.now written.entry.delta.now written.entry.image.now written.entry.cell.now) Same tt (Some header) (view_of B.Backplane C.Code self.old) result (view_of B.Backplane C.Code self.new) self.new.header }
    {
        self.header = None;
        store_write(&mut self.backplane, started, stripe, column, written)?;
        self.header = Some(header);
        Ok(())
    }
}

// Refuses a stripe that is past repair, and a log that has no room for the record and then for a parity record of each stripe with pending records.
fn check_write<B: Backplane, C: Code>(
    plane: &mut B,
    started: &Started,
    stripe: u32,
    map: &mut Row,
    cell: &mut Block,
) -> Result<(), ArrayFault>
    requires { Opens (coding_on C.Code (B.Backplane.view plane.old)) (B.Backplane.view plane.old) started.now }
    ensures judged { WriteJudged (coding_on C.Code (B.Backplane.view plane.old)) (B.Backplane.view plane.old) started.now.header stripe result }
    ensures kept { B.Backplane.view plane.new ≡ B.Backplane.view plane.old }
{
    check_repairable::<B, C>(plane, started, stripe)?;
    let pending = count_pending::<B, C>(plane, started, Some(stripe), map, cell);
    if lacks_room::<C>(started, RECORD, pending) {
        let last = plane.cells() - 1;
        return Err(ArrayFault::OfLog(LogFault::Full(last - started.header.used)));
    }
    Ok(())
}

// Leaves the sum of the old block, which is found in the row, and the new one.
fn find_delta<B: Backplane, C: Code>(
    plane: &mut B,
    started: &Started,
    stripe: u32,
    column: u8,
    bytes: &Block,
    delta: &mut Block,
    row: &mut Row,
    cell: &mut Block,
)
    requires started { Opens (coding_on C.Code (B.Backplane.view plane.old)) (B.Backplane.view plane.old) started.now }
    requires stripe { stripe < (B.Backplane.view plane.old).blocks }
    requires column { column < started.now.shape.slots }
    requires repairable { lost_in (coding_on C.Code (B.Backplane.view plane.old)) (B.Backplane.view plane.old) started.now.header stripe ≤ C.Code.ROWS }
    ensures found { delta.new ≡ sum_of (row_of (coding_on C.Code (B.Backplane.view plane.old)) (B.Backplane.view plane.old) started.now.header stripe column) bytes.now }
    ensures kept { B.Backplane.view plane.new ≡ B.Backplane.view plane.old }
{
    load_row::<B, C>(plane, started, stripe, row, cell);
    sum_into(delta, row_column(row, column), bytes);
}
