// Clearing the log.
ghost use Rattle.std.specs.Prelude.{◌≡◌, ◌≤◌, length};
ghost use Rattle.parity_log.specs.Pending.{lowest_owing};
ghost use Rattle.layout.specs.Header.{with_used};
ghost use Rattle.model.specs.Rules.{Clear, log_of};
ghost use Rattle.array.specs.Calls.{view_of, coding_of, acked, reply_of, wiped, Follows};
ghost use Rattle.array.specs.Ready.{Opens};

use crate::array::Array;
use crate::parts::{Parts, check_work, split_work};
use crate::started::Started;
use backplane::Backplane;
use codes::Code;
use faults::fault::{ArrayFault, LogFault};
use layout::blocks::WorkArea;
use layout::header::Header;

fn emptied(header: Header) -> Header
    ensures { result ≡ with_used header 0 }
{
    header.with_used(0)
}

impl<B: Backplane, C: Code> Array<B, C> {
    // Empties the log, once no stripe has pending records.
    pub fn clear(&mut self, work: &mut [u8]) -> Result<(), ArrayFault>
        ensures does { Follows B.Backplane C.Code (Clear (length work.old)) self.old (reply_of acked result) self.new }
        ensures area { work.new ≡ wiped work.old }
    {
        check_work(work)?;
        let area = WorkArea(work);
        self.clear_in(area.0)
    }

    fn clear_in(&mut self, work: &mut [u8]) -> Result<(), ArrayFault>
        requires { 10240 ≤ length work.old }
        ensures { Follows B.Backplane C.Code (Clear (length work.old)) self.old (reply_of acked result) self.new }
    {
        let Some(started) = self.opened() else {
            return Err(ArrayFault::NotStarted);
        };
        if let Some(stripe) = self.lowest_pending(&started, work) {
            return Err(ArrayFault::OfLog(LogFault::Pending(stripe)));
        }
        self.store_header(&started.shape, emptied(started.header))
    }

    // The lowest stripe with pending records, if there is one.
    fn lowest_pending(&mut self, started: &Started, work: &mut [u8]) -> Option<u32>
        requires started { Opens (coding_of B.Backplane C.Code self.old) (view_of B.Backplane C.Code self.old) started.now }
        requires room { 10240 ≤ length work.old }
        ensures value { result ≡ lowest_owing (coding_of B.Backplane C.Code self.old) (view_of B.Backplane C.Code self.old).blocks (log_of (coding_of B.Backplane C.Code self.old) (view_of B.Backplane C.Code self.old) started.now.header) }
        ensures kept { view_of B.Backplane C.Code self.new ≡ view_of B.Backplane C.Code self.old }
        ensures held { self.new.header ≡ self.old.header }
    {
        let Parts { row, cell, .. } = split_work(work);
        started
            .log()
            .lowest_pending::<B, C>(&mut self.backplane, row, cell)
            .unwrap()
    }
}
