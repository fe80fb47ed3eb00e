// Formatting: zeros in all blocks, an empty log, and every stripe good.
ghost use Rattle.std.specs.Prelude.{◌≡◌, ℕ, ◌<◌, true, not, [], ◌∷◌, length, ◌≤◌, Some, None, OnOk};
ghost use Rattle.backplane.specs.Plane.{to_cell, switched};
ghost use Rattle.layout.specs.Counts.{count};
ghost use Rattle.model.specs.Coding.{zeros};
ghost use Rattle.model.specs.Rules.{formatting};
ghost use Rattle.layout.specs.Header.{header_bytes};
ghost use Rattle.array.specs.Formats.{first_of, formatted_by};
ghost use Rattle.array.specs.Calls.{view_of, coding_of, shape_for, acked, reply_of, wiped, fill_disk, fill_disks, Performed, PerformedIn, Made, Same, Ended};
ghost use Rattle.array.specs.Ready.{Sized, Kept};

use crate::array::Array;
use crate::parts::{Block, Parts, check_work, split_work};
use crate::places::put;
use backplane::Backplane;
use backplane::fault::{BackplaneFault, Place};
use codes::Code;
use faults::fault::ArrayFault;
use layout::blocks::{WorkArea, wipe};
use layout::header::Header;
use layout::shape::Shape;

// How many slots are dead.
fn dead_slots<B: Backplane>(backplane: &B) -> usize
    ensures value { result ≡ count (B.Backplane.view backplane.now).slots (λ d. not ((B.Backplane.view backplane.now).live d)) }
    ensures live { result ≡ 0 → (d : ℕ) → d < (B.Backplane.view backplane.now).slots → (B.Backplane.view backplane.now).live d ≡ true }
{
    (0..backplane.slots())
        .filter(|d| !backplane.live(*d))
        .count()
}

// Stores the same bytes in every block of a slot.
fn fill_disk<B: Backplane>(
    backplane: &mut B,
    slot: u32,
    blocks: u32,
    bytes: &Block,
) -> Result<(), ArrayFault>
    requires power { (B.Backplane.view backplane.old).on ≡ true }
    requires blocks { (B.Backplane.view backplane.old).blocks ≡ blocks }
    requires slot { slot < (B.Backplane.view backplane.old).slots }
    requires live { (B.Backplane.view backplane.old).live slot ≡ true }
    ensures { Performed (fill_disk bytes.now slot blocks 0) (B.Backplane.view backplane.old) result (B.Backplane.view backplane.new) }
{
    for b in 0..blocks {
        put(backplane, Place::OfBlock(slot, b), bytes)?;
    }
    Ok(())
}

// Stores the same bytes in every block, by slot and block. The sizes are passed, since those of the backplane would have to be shown anew after each store.
fn fill_disks<B: Backplane>(
    backplane: &mut B,
    slots: u32,
    blocks: u32,
    bytes: &Block,
) -> Result<(), ArrayFault>
    requires power { (B.Backplane.view backplane.old).on ≡ true }
    requires blocks { (B.Backplane.view backplane.old).blocks ≡ blocks }
    requires slots { (B.Backplane.view backplane.old).slots ≡ slots }
    requires live { (d : ℕ) → d < slots → (B.Backplane.view backplane.old).live d ≡ true }
    ensures stores { Performed (fill_disks bytes.now blocks slots 0) (B.Backplane.view backplane.old) result (B.Backplane.view backplane.new) }
    ensures kept { OnOk result (Kept (B.Backplane.view backplane.old) (B.Backplane.view backplane.new)) }
{
    for d in 0..slots {
        fill_disk(backplane, d, blocks, bytes)?;
    }
    Ok(())
}

// Cell 0 is zeros until every block is, so that an interrupted format is not taken for an array.
fn store_formatted<B: Backplane>(
    backplane: &mut B,
    slots: u32,
    blocks: u32,
    zero: &Block,
    cell: &Block,
) -> Result<(), ArrayFault>
    requires power { (B.Backplane.view backplane.old).on ≡ true }
    requires cells { 0 < (B.Backplane.view backplane.old).cells }
    requires blocks { (B.Backplane.view backplane.old).blocks ≡ blocks }
    requires slots { (B.Backplane.view backplane.old).slots ≡ slots }
    requires live { (d : ℕ) → d < slots → (B.Backplane.view backplane.old).live d ≡ true }
    ensures { PerformedIn ((to_cell 0 zero.now ∷ []) ∷ (fill_disks zero.now blocks slots 0 ∷ ((to_cell 0 cell.now ∷ []) ∷ []))) (B.Backplane.view backplane.old) result (B.Backplane.view backplane.new) }
{
    put(backplane, Place::OfCell(0), zero)?;
    fill_disks(backplane, slots, blocks, zero)?;
    put(backplane, Place::OfCell(0), cell)
}

impl<B: Backplane, C: Code> Array<B, C> {
    // Lays the array out anew: all blocks zeros, the log empty, every stripe good. The array is then started.
    pub fn format(&mut self, work: &mut [u8]) -> Result<(), ArrayFault>
        ensures does { Ended B.Backplane C.Code (formatting (coding_of B.Backplane C.Code self.old) (view_of B.Backplane C.Code self.old) (length work.old)) self.old (reply_of acked result) self.new }
        ensures area { work.new ≡ wiped work.old }
    {
        check_work(work)?;
        let area = WorkArea(work);
        self.format_in(area.0)
    }

    fn format_in(&mut self, work: &mut [u8]) -> Result<(), ArrayFault>
        requires { 10240 ≤ length work.old }
        ensures { Ended B.Backplane C.Code (formatting (coding_of B.Backplane C.Code self.old) (view_of B.Backplane C.Code self.old) (length work.old)) self.old (reply_of acked result) self.new }
    {
        let Some(shape) = self.shape() else {
            return Err(ArrayFault::Sizes);
        };
        if dead_slots(&self.backplane) > 0 {
            return Err(ArrayFault::OfBackplane(BackplaneFault::Dead));
        }
        self.power_on();
        let Parts { block, .. } = split_work(work);
        self.format_out(&shape, block)
    }

    // Turns the power on. The array is then not started.
    pub(crate) fn power_on(&mut self)
        ensures view { view_of B.Backplane C.Code self.new ≡ switched true (view_of B.Backplane C.Code self.old) }
        ensures held { self.new.header ≡ None }
    {
        self.header = None;
        self.backplane.power_up();
    }

    fn format_out(&mut self, shape: &Shape, zero: &mut Block) -> Result<(), ArrayFault>
        requires held { self.old.header ≡ None }
        requires power { (view_of B.Backplane C.Code self.old).on ≡ true }
        requires sized { Sized C.Code.ROWS (view_of B.Backplane C.Code self.old) }
        requires shape { shape.now ≡ shape_for B.Backplane C.Code self.old }
        requires live { (d : ℕ) → d < (view_of B.Backplane C.Code self.old).slots → (view_of B.Backplane C.Code self.old).live d ≡ true }
        ensures { Made (formatted_by shape.now zeros (header_bytes shape.now (first_of shape.now))) Same tt (Some (first_of shape.now)) (view_of B.Backplane C.Code self.old) result (view_of B.Backplane C.Code self.new) self.new.header }
    {
        let header = Header::first(shape);
        wipe(zero);
        self.format_by(shape, header, zero, &header.cell(shape))
    }

    // The array holds the header once all is stored. Not by `hold_after`: its closure would repeat the clauses of `store_formatted`.
    fn format_by(
        &mut self,
        shape: &Shape,
        header: Header,
        zero: &Block,
        cell: &Block,
    ) -> Result<(), ArrayFault>
        requires held { self.old.header ≡ None }
        requires power { (view_of B.Backplane C.Code self.old).on ≡ true }
        requires sized { Sized C.Code.ROWS (view_of B.Backplane C.Code self.old) }
        requires shape { shape.now ≡ shape_for B.Backplane C.Code self.old }
        requires live { (d : ℕ) → d < (view_of B.Backplane C.Code self.old).slots → (view_of B.Backplane C.Code self.old).live d ≡ true }
        ensures { Made (formatted_by shape.now zero.now cell.now) Same tt (Some header) (view_of B.Backplane C.Code self.old) result (view_of B.Backplane C.Code self.new) self.new.header }
    {
        store_formatted(
            &mut self.backplane,
            u32::from(shape.slots),
            shape.blocks,
            zero,
            cell,
        )?;
        self.header = Some(header);
        Ok(())
    }
}
