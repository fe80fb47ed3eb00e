// The stripes that have pending records: one pass over the log marks them, a bit for each stripe, in lent bytes.
ghost use Rattle.std.specs.Prelude.{◌≡◌, ℕ, ◌*◌, ◌<◌, ◌≤◌, length, replicate, None, Ok, MatchResult};
ghost use Rattle.backplane.specs.Plane.{to_cell};
ghost use Rattle.backplane.specs.Meaning.{fault_of};
ghost use Rattle.layout.specs.Marks.{marked};
ghost use Rattle.model.specs.Log.{walk, owing, owed};
ghost use Rattle.parity_log.specs.Codes.{coding};
ghost use Rattle.parity_log.specs.Faults.{or_fault};
ghost use Rattle.parity_log.specs.Pending.{owing_after, marks_fault, lowest_owing, with_write, MarksOwing};

use crate::log::Log;
use backplane::Backplane;
use backplane::fault::{BackplaneFault, Place};
use codes::Code;
use faults::fault::LogFault;
use layout::blocks::wipe;
use layout::head::Head;
use layout::marks::{count_marked, lowest_marked, mark, unmark};

impl Log {
    // How many stripes have pending records, in the log as it is or with one more write record of a stripe.
    // `map` is for the marks, with a bit for every stripe, and `buf` for one cell.
    pub fn count_pending_stripes<B: Backplane, C: Code>(
        self,
        plane: &mut B,
        more: Option<u32>,
        map: &mut [u8],
        buf: &mut [u8],
    ) -> Result<u32, LogFault>
        ensures value { result ≡ or_fault (marks_fault self.used map.old buf.old (B.Backplane.view plane.old)) (Ok (owed (coding C.Code self.columns) (B.Backplane.view plane.old).blocks (with_write more (walk (coding C.Code self.columns) (B.Backplane.view plane.old) self.used).log))) }
        ensures kept { B.Backplane.view plane.new ≡ B.Backplane.view plane.old }
    {
        self.mark_pending::<B, C>(plane, more, map, buf)?;
        let stripes = plane.blocks();
        Ok(count_marked(map, stripes))
    }

    // The lowest stripe with pending records, if there is one.
    pub fn lowest_pending<B: Backplane, C: Code>(
        self,
        plane: &mut B,
        map: &mut [u8],
        buf: &mut [u8],
    ) -> Result<Option<u32>, LogFault>
        ensures value { result ≡ or_fault (marks_fault self.used map.old buf.old (B.Backplane.view plane.old)) (Ok (lowest_owing (coding C.Code self.columns) (B.Backplane.view plane.old).blocks (walk (coding C.Code self.columns) (B.Backplane.view plane.old) self.used).log)) }
        ensures kept { B.Backplane.view plane.new ≡ B.Backplane.view plane.old }
    {
        self.mark_pending::<B, C>(plane, None, map, buf)?;
        let stripes = plane.blocks();
        Ok(lowest_marked(map, stripes))
    }

    // Marks the stripes with pending records, in the log as it is or with one more write record of a stripe.
    pub fn mark_pending<B: Backplane, C: Code>(
        self,
        plane: &mut B,
        more: Option<u32>,
        map: &mut [u8],
        buf: &mut [u8],
    ) -> Result<(), LogFault>
        ensures value { result ≡ or_fault (marks_fault self.used map.old buf.old (B.Backplane.view plane.old)) (Ok tt) }
        ensures marks { MatchResult result (λ _. MarksOwing (coding C.Code self.columns) (B.Backplane.view plane.old).blocks (with_write more (walk (coding C.Code self.columns) (B.Backplane.view plane.old) self.used).log) map.new) (λ _. map.new ≡ map.old) }
        ensures kept { B.Backplane.view plane.new ≡ B.Backplane.view plane.old }
    {
        plane.read(Place::OfCell(self.used), buf)?;
        if map.len() as u128 * 8 < plane.blocks() as u128 {
            return Err(LogFault::AtCell(BackplaneFault::NoPlace));
        }
        self.mark_all::<B, C>(plane, more, map, buf)?;
        Ok(())
    }

    fn mark_all<B: Backplane, C: Code>(
        self,
        plane: &mut B,
        more: Option<u32>,
        map: &mut [u8],
        buf: &mut [u8],
    ) -> Result<(), BackplaneFault>
        requires readable { fault_of (to_cell self.used buf.old) (B.Backplane.view plane.old) ≡ None }
        requires room { (B.Backplane.view plane.old).blocks ≤ 8 * length map.old }
        ensures done { result ≡ Ok tt }
        ensures marks { MarksOwing (coding C.Code self.columns) (B.Backplane.view plane.old).blocks (with_write more (walk (coding C.Code self.columns) (B.Backplane.view plane.old) self.used).log) map.new }
        ensures kept { B.Backplane.view plane.new ≡ B.Backplane.view plane.old }
    {
        wipe(map);
        self.mark_records::<B, C>(plane, map, buf)?;
        if let Some(stripe) = more {
            mark(map, stripe);
        }
        Ok(())
    }

    fn mark_records<B: Backplane, C: Code>(
        self,
        plane: &mut B,
        map: &mut [u8],
        buf: &mut [u8],
    ) -> Result<(), BackplaneFault>
        requires readable { fault_of (to_cell self.used buf.old) (B.Backplane.view plane.old) ≡ None }
        requires wiped { map.old ≡ replicate (length map.old) 0 }
        ensures done { result ≡ Ok tt }
        ensures marks { (t : ℕ) → t < 8 * length map.old → marked map.new t ≡ owing (coding C.Code self.columns) (walk (coding C.Code self.columns) (B.Backplane.view plane.old) self.used).log t }
        ensures kept { B.Backplane.view plane.new ≡ B.Backplane.view plane.old }
    {
        let mut records = self.records();
        while let Some((_, head)) = records.next::<B, C>(plane, buf)? {
            note_record(map, head);
        }
        Ok(())
    }
}

// A write record leaves its stripe with pending records, a parity record without.
fn note_record(map: &mut [u8], head: Head)
    ensures { (t : ℕ) → t < 8 * length map.old → marked map.new t ≡ owing_after head t (marked map.old t) }
{
    match head {
        Head::OfWrite(stripe, _) => mark(map, stripe),
        Head::OfParity(stripe) => unmark(map, stripe),
    }
}
