// The shares of a stripe's pending deltas: those of its write records after its last parity record.
ghost use Rattle.std.specs.Prelude.{◌≡◌, ℕ, ◌+◌, ◌*◌, ◌<◌, ◌≤◌, length, if◌then◌else◌, Ok};
ghost use Rattle.layout.specs.Bytes.{sum_of};
ghost use Rattle.model.specs.Coding.{share};
ghost use Rattle.model.specs.Log.{walk};
ghost use Rattle.model.specs.Row.{settled_with};
ghost use Rattle.parity_log.specs.Codes.{coding};
ghost use Rattle.parity_log.specs.Walks.{last_parity, resume_at, rest};
ghost use Rattle.rows.specs.Columns.{column_in, ColumnPut, flagged};
ghost use Rattle.rows.specs.Rows.{LogFits};
ghost use Rattle.rows.specs.Shares.{column_below, shared_to, grow_step};

use crate::shares::add_share;
use backplane::Backplane;
use backplane::fault::{BackplaneFault, Place};
use codes::Code;
use layout::head::Head;
use parity_log::log::Log;

// A stripe of a log, and a flag for each column that is left alone when the shares of the pending deltas are added to its row.
#[derive(Clone, Copy)]
pub(crate) struct Pending<'a> {
    pub(crate) log: Log,
    pub(crate) stripe: u32,
    pub(crate) leave: &'a [bool; 16],
}

impl Pending<'_> {
    // Adds the shares of the pending deltas of the stripe to the check columns of the row that are not to be left alone.
    pub(crate) fn add_to_row<B: Backplane, C: Code>(
        self,
        plane: &mut B,
        row: &mut [u8],
        cell: &mut [u8; 512],
    ) -> Result<(), BackplaneFault>
        requires fits { LogFits (B.Backplane.view plane.old) self.log }
        requires room { 512 * (self.log.columns + C.Code.ROWS) ≤ length row.old }
        ensures done { result ≡ Ok tt }
        ensures each { (c : ℕ) → c < self.entry.log.columns + C.Code.ROWS → column_in row.new c ≡ (if flagged self.entry.leave.now c then column_in row.old c else settled_with (coding C.Code self.entry.log.columns) (walk (coding C.Code self.entry.log.columns) (B.Backplane.view plane.old) self.entry.log.used).log self.entry.stripe c (column_in row.old c)) }
        ensures kept { B.Backplane.view plane.new ≡ B.Backplane.view plane.old }
    {
        let last = self.log.find_parity::<B, C>(plane, self.stripe, cell)?;
        self.add_after::<B, C>(plane, last, row, cell)
    }

    // The same where the cell of the stripe's last parity record is known, if it has one.
    fn add_after<B: Backplane, C: Code>(
        self,
        plane: &mut B,
        last: Option<u32>,
        row: &mut [u8],
        cell: &mut [u8; 512],
    ) -> Result<(), BackplaneFault>
        requires fits { LogFits (B.Backplane.view plane.old) self.log }
        requires room { 512 * (self.log.columns + C.Code.ROWS) ≤ length row.old }
        ensures done { result ≡ Ok tt }
        ensures each { (c : ℕ) → c < self.entry.log.columns + C.Code.ROWS → column_in row.new c ≡ rest (coding C.Code self.entry.log.columns) (grow_step (coding C.Code self.entry.log.columns) (B.Backplane.view plane.old) (flagged self.entry.leave.now) self.entry.stripe c) (B.Backplane.view plane.old) self.entry.log.used (resume_at (coding C.Code self.entry.log.columns) last) (column_in row.old c) }
        ensures kept { B.Backplane.view plane.new ≡ B.Backplane.view plane.old }
    {
        let mut records = self.log.records_after::<C>(last);
        while let Some((at, head)) = records.next::<B, C>(plane, cell)? {
            self.add_record::<B, C>(plane, at, head, row, cell)?;
        }
        Ok(())
    }

    // Adds the shares of a record's delta, if it is a write record of the stripe. Its delta is read into the cell.
    fn add_record<B: Backplane, C: Code>(
        self,
        plane: &mut B,
        at: u32,
        head: Head,
        row: &mut [u8],
        cell: &mut [u8; 512],
    ) -> Result<(), BackplaneFault>
        requires fits { LogFits (B.Backplane.view plane.old) self.log }
        requires within { at + 1 ≤ self.log.used }
        requires column { column_below self.log.columns head }
        requires room { 512 * (self.log.columns + C.Code.ROWS) ≤ length row.old }
        ensures done { result ≡ Ok tt }
        ensures each { (c : ℕ) → c < self.entry.log.columns + C.Code.ROWS → column_in row.new c ≡ grow_step (coding C.Code self.entry.log.columns) (B.Backplane.view plane.old) (flagged self.entry.leave.now) self.entry.stripe c at head (column_in row.old c) }
        ensures kept { B.Backplane.view plane.new ≡ B.Backplane.view plane.old }
    {
        match head {
            Head::OfWrite(of, column) if self.stripe == of => {
                plane.read(Place::OfCell(at + 1), cell)?;
                let delta = Delta {
                    columns: self.log.columns,
                    column,
                    bytes: cell,
                };
                delta.add_shares::<C>(self.leave, row);
            }
            _ => {}
        }
        Ok(())
    }
}

// A delta at a data column of a row with so many data columns.
#[derive(Clone, Copy)]
struct Delta<'a> {
    columns: u8,
    column: u8,
    bytes: &'a [u8; 512],
}

impl Delta<'_> {
    // Adds the shares of the delta to the check columns of the row that are not to be left alone.
    fn add_shares<C: Code>(self, leave: &[bool; 16], row: &mut [u8])
        requires few { self.columns ≤ 12 }
        requires column { self.column < self.columns }
        requires room { 512 * (self.columns + C.Code.ROWS) ≤ length row.old }
        ensures { (c : ℕ) → c < self.entry.columns + C.Code.ROWS → column_in row.new c ≡ shared_to (coding C.Code self.entry.columns) (flagged leave.now) self.entry.column self.entry.bytes.now c (column_in row.old c) }
    {
        let of_checks = &leave[self.columns as usize..self.columns as usize + C::ROWS];
        for (r, is_left) in of_checks.iter().enumerate() {
            if !*is_left {
                self.add_share::<C>(r, row);
            }
        }
    }

    // Adds the share of the delta in check row r to that check column of the row.
    fn add_share<C: Code>(self, r: usize, row: &mut [u8])
        requires few { self.columns ≤ 12 }
        requires column { self.column < self.columns }
        requires check { r < C.Code.ROWS }
        requires room { 512 * (self.columns + r) + 512 ≤ length row.old }
        ensures { ColumnPut (self.entry.columns + r) (sum_of (column_in row.old (self.entry.columns + r)) (share (coding C.Code self.entry.columns) r self.entry.column self.entry.bytes.now)) row.old row.new }
    {
        let at = 512 * (self.columns as usize + r);
        let bytes = self.bytes;
        add_share::<C>(r, self.column as usize, bytes, &mut row[at..at + 512]);
    }
}
