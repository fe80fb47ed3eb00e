// The walk over the whole log, which finds its end or its damage.
ghost use Rattle.std.specs.Prelude.{◌≡◌, IfOk, None};
ghost use Rattle.backplane.specs.Plane.{to_cell};
ghost use Rattle.backplane.specs.Meaning.{fault_of};
ghost use Rattle.model.specs.Log.{walk};
ghost use Rattle.parity_log.specs.Codes.{coding};
ghost use Rattle.parity_log.specs.Faults.{or_fault};
ghost use Rattle.parity_log.specs.Walks.{walk_end, LastAt};

use crate::log::Log;
use backplane::Backplane;
use backplane::fault::Place;
use codes::Code;
use faults::fault::LogFault;

impl Log {
    // Walks over the log. Answers the cell of the last head, if there is one, or the first damaged cell. `buf` is for one cell.
    // The last cell in use is read first: where that fails, so does the walk.
    pub fn walk<B: Backplane, C: Code>(
        self,
        plane: &mut B,
        buf: &mut [u8],
    ) -> Result<Option<u32>, LogFault>
        ensures value { result ≡ or_fault (fault_of (to_cell self.used buf.old) (B.Backplane.view plane.old)) (walk_end (coding C.Code self.columns) (B.Backplane.view plane.old) self.used) }
        ensures last { IfOk result (λ last. LastAt (coding C.Code self.columns) (B.Backplane.view plane.old) self.used last (walk (coding C.Code self.columns) (B.Backplane.view plane.old) self.used).log) }
        ensures kept { B.Backplane.view plane.new ≡ B.Backplane.view plane.old }
    {
        plane.read(Place::OfCell(self.used), buf)?;
        self.walk_records::<B, C>(plane, buf)
    }

    fn walk_records<B: Backplane, C: Code>(
        self,
        plane: &mut B,
        buf: &mut [u8],
    ) -> Result<Option<u32>, LogFault>
        requires { fault_of (to_cell self.used buf.old) (B.Backplane.view plane.old) ≡ None }
        ensures value { result ≡ walk_end (coding C.Code self.columns) (B.Backplane.view plane.old) self.used }
        ensures last { IfOk result (λ last. LastAt (coding C.Code self.columns) (B.Backplane.view plane.old) self.used last (walk (coding C.Code self.columns) (B.Backplane.view plane.old) self.used).log) }
        ensures kept { B.Backplane.view plane.new ≡ B.Backplane.view plane.old }
    {
        let mut records = self.records();
        let mut last = None;
        loop {
            let Some((at, _)) = records.next::<B, C>(plane, buf)? else {
                if records.at > self.used as u64 {
                    break Ok(last);
                }
                break Err(LogFault::Damaged(records.at as u32));
            };
            last = Some(at);
        }
    }
}
