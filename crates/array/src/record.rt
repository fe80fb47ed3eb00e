// Appending a write record to the log: its cells, head first, then cell 0 with the new count, then its block.
ghost use Rattle.std.specs.Prelude.{◌≡◌, ◌+◌, ◌<◌, [], ◌∷◌};
ghost use Rattle.backplane.specs.Plane.{to_cell};
ghost use Rattle.array.specs.Calls.{PerformedIn, Performed};
ghost use Rattle.array.specs.Ready.{Fits};
ghost use Rattle.array.specs.Records.{write_stores};

use crate::parts::Block;
use crate::places::put;
use crate::row::store_good;
use crate::started::Started;
use backplane::Backplane;
use backplane::fault::Place;
use faults::fault::ArrayFault;

// The cells of a write record: head, delta and image.
pub(crate) const RECORD: u32 = 3;

// The record of a write, and cell 0 with its count.
#[derive(Clone, Copy)]
pub(crate) struct Record<'a> {
    pub(crate) head: &'a Block,
    pub(crate) delta: &'a Block,
    // the block as it is to be
    pub(crate) image: &'a Block,
    pub(crate) cell: &'a Block,
}

// The cells of a write record, after the cells in use: head, delta and image.
fn store_delta<B: Backplane>(
    plane: &mut B,
    started: &Started,
    written: Record<'_>,
) -> Result<(), ArrayFault>
    requires fits { Fits (B.Backplane.view plane.old) started.now }
    requires free { started.now.header.used + 3 < (B.Backplane.view plane.old).cells }
    ensures { Performed (to_cell (started.now.header.used + 1) written.entry.head.now ∷ (to_cell (started.now.header.used + 2) written.entry.delta.now ∷ (to_cell (started.now.header.used + 3) written.entry.image.now ∷ []))) (B.Backplane.view plane.old) result (B.Backplane.view plane.new) }
{
    let used = started.header.used;
    let Record {
        head,
        delta,
        image,
        ..
    } = written;
    put(plane, Place::OfCell(used + 1), head)?;
    put(plane, Place::OfCell(used + 2), delta)?;
    put(plane, Place::OfCell(used + 3), image)
}

// The record of a write to a column of a stripe; its block is stored where that column is good.
pub(crate) fn store_write<B: Backplane>(
    plane: &mut B,
    started: &Started,
    stripe: u32,
    column: u8,
    written: Record<'_>,
) -> Result<(), ArrayFault>
    requires fits { Fits (B.Backplane.view plane.old) started.now }
    requires free { started.now.header.used + 3 < (B.Backplane.view plane.old).cells }
    requires stripe { stripe < (B.Backplane.view plane.old).blocks }
    ensures { PerformedIn (write_stores started.now.shape.slots (B.Backplane.view plane.old).live started.now.header stripe column written.entry.head.now written.entry.delta.now written.entry.image.now written.entry.cell.now) (B.Backplane.view plane.old) result (B.Backplane.view plane.new) }
{
    let Record { image, cell, .. } = written;
    store_delta(plane, started, written)?;
    put(plane, Place::OfCell(0), cell)?;
    store_good(plane, started, stripe, column, image)
}
