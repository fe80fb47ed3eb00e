// Whether the array is started, and the store of its header.
ghost use Rattle.std.specs.Prelude.{◌≡◌, ◌-◌, ◌*◌, ◌<◌, ◌≤◌, true, false, [], ◌∷◌, length, is_some, IfSome, if◌then◌else◌, Some, None, MatchOption, OnSome, nat_lt};
ghost use Rattle.std.specs.Fn.{FnOnceTakesAtMut, FnOnceReturnsAtMut};
ghost use Rattle.model.specs.Rules.{to_header};
ghost use Rattle.array.specs.Calls.{view_of, coding_of, shape_for, limited, opened_of, Performed, held_after};
ghost use Rattle.array.specs.Ready.{Sized, Ready, Opens};

use crate::array::Array;
use crate::places::put;
use crate::started::Started;
use backplane::Backplane;
use backplane::fault::Place;
use codes::Code;
use faults::fault::ArrayFault;
use layout::header::Header;
use layout::shape::Shape;

impl<B: Backplane, C: Code> Array<B, C> {
    // An array that is not started.
    pub fn new(backplane: B, code: C) -> Array<B, C>
        ensures backplane { result.backplane ≡ backplane }
        ensures not_started { result.header ≡ None }
    {
        Array {
            backplane,
            code,
            header: None,
        }
    }

    // What cell 0 says of the code and the backplane, if the sizes are within the limits.
    pub fn shape(&self) -> Option<Shape>
        ensures value { result ≡ (if limited B.Backplane C.Code self.now then Some (shape_for B.Backplane C.Code self.now) else None) }
        ensures cases { MatchOption result (limited B.Backplane C.Code self.now ≡ false) (λ s. (limited B.Backplane C.Code self.now ≡ true) × (s ≡ shape_for B.Backplane C.Code self.now)) }
        ensures sized { OnSome result (Sized C.Code.ROWS (view_of B.Backplane C.Code self.now)) }
    {
        Shape::of(C::NUMBER, C::ROWS as u32, self.backplane.sizes())
    }

    // What a started array goes by: the header held, if the power is on and the header fits the backplane.
    pub fn opened(&self) -> Option<Started>
        ensures value { MatchOption result (None ≡ opened_of B.Backplane C.Code self.now) (λ s. Some s.header ≡ opened_of B.Backplane C.Code self.now) }
        ensures started { IfSome result (λ s. Opens (coding_of B.Backplane C.Code self.now) (view_of B.Backplane C.Code self.now) s) }
    {
        let header = self.header?;
        let shape = self.shape()?;
        if self.backplane.power() && header.fits(&shape) {
            Some(Started { header, shape })
        } else {
            None
        }
    }

    pub fn started(&self) -> bool
        ensures { result ≡ is_some (opened_of B.Backplane C.Code self.now) }
    {
        self.opened().is_some()
    }

    pub fn has_slot(&self, slot: u32) -> bool
        ensures { result ≡ nat_lt slot (view_of B.Backplane C.Code self.now).slots }
    {
        slot < self.backplane.slots()
    }

    // Whether there is a block of this number: each stripe holds one for each slot beyond the checks.
    pub(crate) fn has_block(&self, block: u32) -> bool
        ensures { result ≡ nat_lt block ((view_of B.Backplane C.Code self.now).blocks * ((view_of B.Backplane C.Code self.now).slots - C.Code.ROWS)) }
    {
        let columns = self.backplane.slots().saturating_sub(C::ROWS as u32);
        u64::from(block) < u64::from(self.backplane.blocks()) * u64::from(columns)
    }

    pub(crate) fn has_stripe(&self, stripe: u32) -> bool
        ensures { result ≡ nat_lt stripe (view_of B.Backplane C.Code self.now).blocks }
    {
        stripe < self.backplane.blocks()
    }

    // Stores a header in cell 0; the array then holds it, and none after a cut.
    pub(crate) fn store_header(&mut self, shape: &Shape, header: Header) -> Result<(), ArrayFault>
        requires ready { Ready C.Code.ROWS (view_of B.Backplane C.Code self.old) header }
        requires shape { shape.now ≡ shape_for B.Backplane C.Code self.old }
        ensures stores { Performed (to_header (coding_of B.Backplane C.Code self.old) (view_of B.Backplane C.Code self.old) header ∷ []) (view_of B.Backplane C.Code self.old) result (view_of B.Backplane C.Code self.new) }
        ensures held { self.new.header ≡ held_after header result }
    {
        let cell = header.cell(shape);
        self.hold_after(header, |plane| put(plane, Place::OfCell(0), &cell))
    }

    // Makes stores. No header is held from the first to the last, so that a cut leaves the array not started; then this one is.
    pub(crate) fn hold_after<F: FnOnce(&mut B) -> Result<(), ArrayFault>>(
        &mut self,
        header: Header,
        stores: F,
    ) -> Result<(), ArrayFault>
        requires { FnOnceTakesAtMut F.FnOnce stores self.old.backplane }
        ensures stores { FnOnceReturnsAtMut F.FnOnce stores self.old.backplane result self.new.backplane }
        ensures held { self.new.header ≡ held_after header result }
    {
        self.header = None;
        let done = stores(&mut self.backplane);
        if done.is_ok() {
            self.header = Some(header);
        }
        done
    }
}
