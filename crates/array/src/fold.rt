// Folding a stripe: a parity record takes the place of its pending records, and then its check blocks go to their disks.
ghost use Rattle.std.specs.Prelude.{◌≡◌, ◌+◌, ◌-◌, ◌<◌, ◌≤◌, length, Some};
ghost use Rattle.model.specs.Log.{pending};
ghost use Rattle.model.specs.Rules.{Fold, log_of, folded, grown, fold_open};
ghost use Rattle.model.specs.Verdict.{of_number};
ghost use Rattle.rows.specs.Rows.{HoldsRow};
ghost use Rattle.parity_log.specs.Codes.{coding_on};
ghost use Rattle.array.specs.Calls.{view_of, coding_of, reply_of, wiped, Made, Same, Ended, Follows};
ghost use Rattle.array.specs.Folds.{FoldJudged};
ghost use Rattle.array.specs.Parity.{parity_stores};
ghost use Rattle.array.specs.Ready.{Fits, Opens};
ghost use Rattle.array.specs.Records.{appending};

use crate::array::Array;
use crate::parity::store_parity;
use crate::parts::{Block, Parts, Row, check_work, split_work};
use crate::records::lacks_room;
use crate::row::{check_repairable, load_row};
use crate::started::Started;
use backplane::Backplane;
use codes::Code;
use faults::fault::{ArrayFault, StripeFault};
use layout::blocks::WorkArea;
use layout::head::Head;
use layout::header::Header;

impl<B: Backplane, C: Code> Array<B, C> {
    // Folds the pending records of a stripe into a parity record, and answers how many they were. Without any nothing is stored.
    pub fn fold(&mut self, stripe: u32, work: &mut [u8]) -> Result<u32, ArrayFault>
        ensures does { Follows B.Backplane C.Code (Fold stripe (length work.old)) self.old (reply_of of_number result) self.new }
        ensures area { work.new ≡ wiped work.old }
    {
        check_work(work)?;
        let area = WorkArea(work);
        self.fold_in(stripe, area.0)
    }

    fn fold_in(&mut self, stripe: u32, work: &mut [u8]) -> Result<u32, ArrayFault>
        requires { 10240 ≤ length work.old }
        ensures { Follows B.Backplane C.Code (Fold stripe (length work.old)) self.old (reply_of of_number result) self.new }
    {
        if !self.has_stripe(stripe) {
            return Err(ArrayFault::OfStripe(StripeFault::NoStripe));
        }
        let Some(started) = self.opened() else {
            return Err(ArrayFault::NotStarted);
        };
        self.fold_open(&started, stripe, split_work(work))
    }

    // Folds a stripe of a started array.
    fn fold_open(
        &mut self,
        started: &Started,
        stripe: u32,
        parts: Parts<'_>,
    ) -> Result<u32, ArrayFault>
        requires started { Opens (coding_of B.Backplane C.Code self.old) (view_of B.Backplane C.Code self.old) started.now }
        requires held { self.old.header ≡ Some started.now.header }
        requires stripe { stripe < (view_of B.Backplane C.Code self.old).blocks }
        ensures { Ended B.Backplane C.Code (fold_open (coding_of B.Backplane C.Code self.old) (view_of B.Backplane C.Code self.old) started.now.header stripe) self.old (reply_of of_number result) self.new }
    {
        let Parts { row, cell, .. } = parts;
        let records = check_fold::<B, C>(&mut self.backplane, started, stripe, cell)?;
        if records == 0 {
            return Ok(0);
        }
        load_row::<B, C>(&mut self.backplane, started, stripe, row, cell);
        self.append_parity(started, stripe, records, row)
    }

    // Appends the parity record of a stripe whose row is at hand, and finishes it where the check columns are good.
    fn append_parity(
        &mut self,
        started: &Started,
        stripe: u32,
        records: u32,
        row: &Row,
    ) -> Result<u32, ArrayFault>
        requires started { Opens (coding_of B.Backplane C.Code self.old) (view_of B.Backplane C.Code self.old) started.now }
        requires stripe { stripe < (view_of B.Backplane C.Code self.old).blocks }
        requires free { started.now.header.used + (1 + C.Code.ROWS) < (view_of B.Backplane C.Code self.old).cells }
        requires holds { HoldsRow (coding_of B.Backplane C.Code self.old) (view_of B.Backplane C.Code self.old) started.now.header stripe row.now }
        ensures { Made (appending (coding_of B.Backplane C.Code self.old) (view_of B.Backplane C.Code self.old) started.now.header (folded (coding_of B.Backplane C.Code self.old) (view_of B.Backplane C.Code self.old) started.now.header stripe)) Same records (Some (grown (coding_of B.Backplane C.Code self.old) (view_of B.Backplane C.Code self.old) started.now.header (folded (coding_of B.Backplane C.Code self.old) (view_of B.Backplane C.Code self.old) started.now.header stripe))) (view_of B.Backplane C.Code self.old) result (view_of B.Backplane C.Code self.new) self.new.header }
    {
        let head = Head::OfParity(stripe).cell();
        let counted = started
            .header
            .with_used(started.header.used + (1 + started.checks() as u32));
        let cell = counted.cell(&started.shape);
        self.store_folded(started, counted, stripe, records, &head, row, &cell)
    }

    // No header is held from the first store to the last, so that a cut leaves the array not started. Not by `hold_after`: its closure would repeat the clauses of `store_parity`.
    fn store_folded(
        &mut self,
        started: &Started,
        header: Header,
        stripe: u32,
        records: u32,
        head: &Block,
        row: &Row,
        cell: &Block,
    ) -> Result<u32, ArrayFault>
        requires fits { Fits (view_of B.Backplane C.Code self.old) started.now }
        requires stripe { stripe < (view_of B.Backplane C.Code self.old).blocks }
        requires free { started.now.header.used + (1 + (started.now.shape.slots - started.now.shape.columns)) < (view_of B.Backplane C.Code self.old).cells }
        ensures { Made (parity_stores started.now.shape.slots started.now.shape.columns (started.now.shape.slots - started.now.shape.columns) (view_of B.Backplane C.Code self.old).live started.now.header stripe head.now row.now cell.now) Same records (Some header) (view_of B.Backplane C.Code self.old) result (view_of B.Backplane C.Code self.new) self.new.header }
    {
        self.header = None;
        store_parity(&mut self.backplane, started, stripe, head, row, cell)?;
        self.header = Some(header);
        Ok(records)
    }
}

// How many records of a stripe are pending. Refuses a log that has no room for the parity record, and a stripe that is past repair.
fn check_fold<B: Backplane, C: Code>(
    plane: &mut B,
    started: &Started,
    stripe: u32,
    cell: &mut Block,
) -> Result<u32, ArrayFault>
    requires { Opens (coding_on C.Code (B.Backplane.view plane.old)) (B.Backplane.view plane.old) started.now }
    ensures judged { FoldJudged (coding_on C.Code (B.Backplane.view plane.old)) (B.Backplane.view plane.old) started.now.header stripe result }
    ensures kept { B.Backplane.view plane.new ≡ B.Backplane.view plane.old }
{
    let records = count_records::<B, C>(plane, started, stripe, cell);
    if 0 < records && lacks_room::<C>(started, 0, 1) {
        return Err(ArrayFault::NotStarted);
    }
    check_repairable::<B, C>(plane, started, stripe)?;
    Ok(records)
}

fn count_records<B: Backplane, C: Code>(
    plane: &mut B,
    started: &Started,
    stripe: u32,
    cell: &mut Block,
) -> u32
    requires { Opens (coding_on C.Code (B.Backplane.view plane.old)) (B.Backplane.view plane.old) started.now }
    ensures value { result ≡ pending (coding_on C.Code (B.Backplane.view plane.old)) stripe (log_of (coding_on C.Code (B.Backplane.view plane.old)) (B.Backplane.view plane.old) started.now.header) }
    ensures kept { B.Backplane.view plane.new ≡ B.Backplane.view plane.old }
{
    started
        .log()
        .count_pending::<B, C>(plane, stripe, cell)
        .unwrap()
}
