// Starting an array: the power comes on, cell 0 and the log are read, and the last record is finished.
ghost use Rattle.std.specs.Prelude.{◌≡◌, ◌≤◌, true, length, IfSome, MatchOption, None, Some};
ghost use Rattle.layout.specs.Header.{header_of};
ghost use Rattle.parity_log.specs.Walks.{LastAt};
ghost use Rattle.model.specs.Rules.{Start, shape_of, is_good, log_of, finish_last, start_open};
ghost use Rattle.parity_log.specs.Codes.{coding_on};
ghost use Rattle.array.specs.Calls.{view_of, coding_of, acked, reply_of, wiped, Performed, held_after, Ended, Follows};
ghost use Rattle.array.specs.Ready.{Sized, Opens};
ghost use Rattle.array.specs.Starts.{start_on};

use crate::array::Array;
use crate::finish::finish_last;
use crate::parts::{Block, Parts, Row, check_work, split_work};
use crate::places::get;
use crate::records::{is_overfull, last_head};
use crate::started::Started;
use backplane::Backplane;
use backplane::fault::Place;
use codes::Code;
use faults::fault::{ArrayFault, LogFault};
use layout::blocks::WorkArea;
use layout::header::Header;
use layout::shape::Shape;

impl<B: Backplane, C: Code> Array<B, C> {
    // Turns the power on and takes up what cell 0 and the log say. A store that was cut off is finished first.
    pub fn start(&mut self, work: &mut [u8]) -> Result<(), ArrayFault>
        ensures does { Follows B.Backplane C.Code (Start (length work.old)) self.old (reply_of acked result) self.new }
        ensures area { work.new ≡ wiped work.old }
    {
        check_work(work)?;
        let area = WorkArea(work);
        self.start_in(area.0)
    }

    fn start_in(&mut self, work: &mut [u8]) -> Result<(), ArrayFault>
        requires { 10240 ≤ length work.old }
        ensures { Follows B.Backplane C.Code (Start (length work.old)) self.old (reply_of acked result) self.new }
    {
        self.power_on();
        self.start_on(split_work(work))
    }

    // The power is on, and the array is not started.
    fn start_on(&mut self, parts: Parts<'_>) -> Result<(), ArrayFault>
        requires held { self.old.header ≡ None }
        requires power { (view_of B.Backplane C.Code self.old).on ≡ true }
        ensures { Ended B.Backplane C.Code (start_on (coding_of B.Backplane C.Code self.old) (view_of B.Backplane C.Code self.old)) self.old (reply_of acked result) self.new }
    {
        let Some(shape) = self.shape() else {
            return Err(ArrayFault::NotLaidOut);
        };
        let Parts { row, cell, .. } = parts;
        let Some(started) = read_header::<B, C>(&mut self.backplane, shape, cell) else {
            return Err(ArrayFault::NotLaidOut);
        };
        self.start_open(&started, row, cell)
    }

    fn start_open(
        &mut self,
        started: &Started,
        map: &mut Row,
        cell: &mut Block,
    ) -> Result<(), ArrayFault>
        requires held { self.old.header ≡ None }
        requires started { Opens (coding_of B.Backplane C.Code self.old) (view_of B.Backplane C.Code self.old) started.now }
        ensures { Ended B.Backplane C.Code (start_open (coding_of B.Backplane C.Code self.old) (view_of B.Backplane C.Code self.old) started.now.header) self.old (reply_of acked result) self.new }
    {
        let last = last_head::<B, C>(&mut self.backplane, started, cell)?;
        if is_overfull::<B, C>(&mut self.backplane, started, map, cell) {
            return Err(ArrayFault::OfLog(LogFault::Overfull));
        }
        self.finish_start(started, last, cell)
    }

    // The array holds the header once the last record is finished. Not by `hold_after`: its closure would repeat the clauses of `finish_last`.
    fn finish_start(
        &mut self,
        started: &Started,
        last: Option<u32>,
        cell: &mut Block,
    ) -> Result<(), ArrayFault>
        requires held { self.old.header ≡ None }
        requires started { Opens (coding_of B.Backplane C.Code self.old) (view_of B.Backplane C.Code self.old) started.now }
        requires last { LastAt (coding_of B.Backplane C.Code self.old) (view_of B.Backplane C.Code self.old) started.now.header.used last (log_of (coding_of B.Backplane C.Code self.old) (view_of B.Backplane C.Code self.old) started.now.header) }
        ensures stores { Performed (finish_last (coding_of B.Backplane C.Code self.old) (is_good (coding_of B.Backplane C.Code self.old) (view_of B.Backplane C.Code self.old) started.now.header) (log_of (coding_of B.Backplane C.Code self.old) (view_of B.Backplane C.Code self.old) started.now.header)) (view_of B.Backplane C.Code self.old) result (view_of B.Backplane C.Code self.new) }
        ensures held { self.new.header ≡ held_after started.now.header result }
    {
        finish_last::<B, C>(&mut self.backplane, started, last, cell)?;
        self.header = Some(started.header);
        Ok(())
    }
}

// What an array of this shape goes by once it is started, if cell 0 is as laid out.
fn read_header<B: Backplane, C: Code>(
    plane: &mut B,
    shape: Shape,
    cell: &mut Block,
) -> Option<Started>
    requires power { (B.Backplane.view plane.old).on ≡ true }
    requires sized { Sized C.Code.ROWS (B.Backplane.view plane.old) }
    requires shape { shape ≡ shape_of (coding_on C.Code (B.Backplane.view plane.old)) (B.Backplane.view plane.old) }
    ensures value { MatchOption result (None ≡ header_of C.Code.ROWS shape ((B.Backplane.view plane.old).cell 0)) (λ s. Some s.header ≡ header_of C.Code.ROWS shape ((B.Backplane.view plane.old).cell 0)) }
    ensures started { IfSome result (λ s. Opens (coding_on C.Code (B.Backplane.view plane.old)) (B.Backplane.view plane.old) s) }
    ensures kept { B.Backplane.view plane.new ≡ B.Backplane.view plane.old }
{
    get(plane, Place::OfCell(0), cell);
    let header = Header::decode(&shape, C::ROWS as u32, cell)?;
    Some(Started { header, shape })
}
