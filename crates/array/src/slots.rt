// Pulling a disk out of its slot, and fitting another.
ghost use Rattle.std.specs.Prelude.{◌≡◌, ◌<◌, ◌≤◌, true, false, [], ◌∷◌, length, Some};
ghost use Rattle.layout.specs.Header.{with_good};
ghost use Rattle.model.specs.Rules.{Pull, Fit, to_header};
ghost use Rattle.backplane.specs.Meaning.{Fitting};
ghost use Rattle.array.specs.Calls.{view_of, coding_of, shape_for, acked, reply_of, wiped, Made, Follows};
ghost use Rattle.array.specs.Ready.{Ready};

use crate::array::Array;
use crate::parts::check_work;
use backplane::Backplane;
use backplane::fault::BackplaneFault;
use codes::Code;
use faults::fault::ArrayFault;
use layout::blocks::WorkArea;
use layout::header::Header;
use layout::shape::Shape;

// No stripe of the slot is good.
fn unbuilt(header: Header, slot: u32) -> Header
    ensures { result ≡ with_good header slot 0 }
{
    header.with_good(slot, 0)
}

impl<B: Backplane, C: Code> Array<B, C> {
    // Takes the disk out of a slot: its bytes are gone.
    pub fn pull(&mut self, slot: u32) -> Result<(), ArrayFault>
        ensures { Follows B.Backplane C.Code (Pull slot) self.old (reply_of acked result) self.new }
    {
        if !self.has_slot(slot) {
            return Err(ArrayFault::NoSlot);
        }
        self.backplane.pull(slot);
        Ok(())
    }

    // Puts a new disk into a slot, with no stripe good in it.
    pub fn fit(&mut self, slot: u32, work: &mut [u8]) -> Result<(), ArrayFault>
        ensures does { Follows B.Backplane C.Code (Fit slot (length work.old)) self.old (reply_of acked result) self.new }
        ensures area { work.new ≡ wiped work.old }
    {
        check_work(work)?;
        let area = WorkArea(work);
        self.fit_in(slot, area.0)
    }

    fn fit_in(&mut self, slot: u32, work: &mut [u8]) -> Result<(), ArrayFault>
        requires { 10240 ≤ length work.old }
        ensures { Follows B.Backplane C.Code (Fit slot (length work.old)) self.old (reply_of acked result) self.new }
    {
        if !self.has_slot(slot) {
            return Err(ArrayFault::NoSlot);
        }
        let Some(started) = self.opened() else {
            return Err(ArrayFault::NotStarted);
        };
        if self.backplane.live(slot) {
            return Err(ArrayFault::OfBackplane(BackplaneFault::Live));
        }
        self.fit_out(&started.shape, unbuilt(started.header, slot), slot)
    }

    // The store of cell 0 comes first, so that a disk of other bytes is never taken for good.
    fn fit_out(&mut self, shape: &Shape, header: Header, slot: u32) -> Result<(), ArrayFault>
        requires ready { Ready C.Code.ROWS (view_of B.Backplane C.Code self.old) header }
        requires shape { shape.now ≡ shape_for B.Backplane C.Code self.old }
        requires slot { slot < (view_of B.Backplane C.Code self.old).slots }
        requires dead { (view_of B.Backplane C.Code self.old).live slot ≡ false }
        ensures { Made ((to_header (coding_of B.Backplane C.Code self.old) (view_of B.Backplane C.Code self.old) header ∷ []) ∷ []) (Fitting slot) tt (Some header) (view_of B.Backplane C.Code self.old) result (view_of B.Backplane C.Code self.new) self.new.header }
    {
        self.store_header(shape, header)?;
        self.backplane.fit(slot).unwrap();
        Ok(())
    }
}
