// The pending records of a stripe: its write records after its last parity record, if it has one.
ghost use Rattle.std.specs.Prelude.{◌≡◌, ℕ, ◌≤◌, Some, None, Ok, IfOk, IfErr};
ghost use Rattle.backplane.specs.Plane.{to_cell};
ghost use Rattle.backplane.specs.Meaning.{fault_of};
ghost use Rattle.model.specs.Log.{walk, pending};
ghost use Rattle.parity_log.specs.Codes.{coding};
ghost use Rattle.parity_log.specs.Faults.{or_fault, unless_fault};
ghost use Rattle.parity_log.specs.Pending.{is_write_of};
ghost use Rattle.parity_log.specs.Walks.{parity_at, last_parity};

use crate::log::Log;
use backplane::Backplane;
use backplane::fault::{BackplaneFault, Place};
use codes::Code;
use faults::fault::LogFault;
use layout::head::Head;

impl Log {
    // How many records of a stripe are pending. `buf` is for one cell.
    pub fn count_pending<B: Backplane, C: Code>(
        self,
        plane: &mut B,
        stripe: u32,
        buf: &mut [u8],
    ) -> Result<u32, LogFault>
        ensures value { result ≡ or_fault (fault_of (to_cell self.used buf.old) (B.Backplane.view plane.old)) (Ok (pending (coding C.Code self.columns) stripe (walk (coding C.Code self.columns) (B.Backplane.view plane.old) self.used).log)) }
        ensures kept { B.Backplane.view plane.new ≡ B.Backplane.view plane.old }
    {
        plane.read(Place::OfCell(self.used), buf)?;
        let last = self.find_parity::<B, C>(plane, stripe, buf)?;
        let count = self.count_after::<B, C>(plane, stripe, last, buf)?;
        Ok(count)
    }

    // The cell of the last parity record of a stripe, if it has one. `buf` is for one cell.
    pub fn last_parity<B: Backplane, C: Code>(
        self,
        plane: &mut B,
        stripe: u32,
        buf: &mut [u8],
    ) -> Result<Option<u32>, BackplaneFault>
        ensures value { result ≡ unless_fault (fault_of (to_cell self.used buf.old) (B.Backplane.view plane.old)) (Ok (last_parity (coding C.Code self.columns) (B.Backplane.view plane.old) self.used stripe)) }
        ensures kept { B.Backplane.view plane.new ≡ B.Backplane.view plane.old }
    {
        plane.read(Place::OfCell(self.used), buf)?;
        self.find_parity::<B, C>(plane, stripe, buf)
    }

    // The same with no first read of the last cell in use, for a log that is known to be there.
    pub fn find_parity<B: Backplane, C: Code>(
        self,
        plane: &mut B,
        stripe: u32,
        buf: &mut [u8],
    ) -> Result<Option<u32>, BackplaneFault>
        ensures found { IfOk result (λ last. last ≡ last_parity (coding C.Code self.columns) (B.Backplane.view plane.old) self.used stripe) }
        ensures fault { IfErr result (λ f. (i : ℕ) × (i ≤ self.used) × (fault_of (to_cell i buf.old) (B.Backplane.view plane.old) ≡ Some f)) }
        ensures value { fault_of (to_cell self.used buf.old) (B.Backplane.view plane.old) ≡ None → result ≡ Ok (last_parity (coding C.Code self.columns) (B.Backplane.view plane.old) self.used stripe) }
        ensures kept { B.Backplane.view plane.new ≡ B.Backplane.view plane.old }
    {
        let mut records = self.records();
        let mut last = None;
        while let Some((at, head)) = records.next::<B, C>(plane, buf)? {
            last = later_parity(stripe, at, head, last);
        }
        Ok(last)
    }

    // The pending records of a stripe whose last parity record is known.
    fn count_after<B: Backplane, C: Code>(
        self,
        plane: &mut B,
        stripe: u32,
        last: Option<u32>,
        buf: &mut [u8],
    ) -> Result<u32, BackplaneFault>
        requires readable { fault_of (to_cell self.used buf.old) (B.Backplane.view plane.old) ≡ None }
        requires last { last ≡ last_parity (coding C.Code self.columns) (B.Backplane.view plane.old) self.used stripe }
        ensures value { result ≡ Ok (pending (coding C.Code self.columns) stripe (walk (coding C.Code self.columns) (B.Backplane.view plane.old) self.used).log) }
        ensures kept { B.Backplane.view plane.new ≡ B.Backplane.view plane.old }
    {
        let mut records = self.records_after::<C>(last);
        let mut count = 0;
        while let Some((_, head)) = records.next::<B, C>(plane, buf)? {
            count += u32::from(is_write_of(stripe, head));
        }
        Ok(count)
    }
}

fn later_parity(stripe: u32, at: u32, head: Head, last: Option<u32>) -> Option<u32>
    ensures { result ≡ parity_at stripe at head last }
{
    match head {
        Head::OfParity(of) if of == stripe => Some(at),
        _ => last,
    }
}

fn is_write_of(stripe: u32, head: Head) -> bool
    ensures { result ≡ is_write_of stripe head }
{
    matches!(head, Head::OfWrite(of, _) if stripe == of)
}
