// A parity record in its phases: the cells of the record, cell 0 with the new count, and the check blocks on their disks.
ghost use Rattle.std.specs.Prelude.{◌≡◌, ◌+◌, ◌-◌, ◌<◌, ◌≤◌, ◌∷◌, OnOk};
ghost use Rattle.backplane.specs.Plane.{to_cell};
ghost use Rattle.rows.specs.Columns.{column_in};
ghost use Rattle.array.specs.Calls.{PerformedIn, Performed};
ghost use Rattle.array.specs.Parity.{row_cells, parity_stores};
ghost use Rattle.array.specs.Ready.{Fits, Kept};
ghost use Rattle.array.specs.Starts.{to_good_checks};

use crate::parts::{Block, Row};
use crate::places::put;
use crate::row::{row_column, store_good};
use crate::started::Started;
use backplane::Backplane;
use backplane::fault::Place;
use faults::fault::ArrayFault;

// Stores the parity record of a stripe after the cells in use.
pub(crate) fn store_parity<B: Backplane>(
    plane: &mut B,
    started: &Started,
    stripe: u32,
    head: &Block,
    row: &Row,
    cell: &Block,
) -> Result<(), ArrayFault>
    requires fits { Fits (B.Backplane.view plane.old) started.now }
    requires stripe { stripe < (B.Backplane.view plane.old).blocks }
    requires free { started.now.header.used + (1 + (started.now.shape.slots - started.now.shape.columns)) < (B.Backplane.view plane.old).cells }
    ensures { PerformedIn (parity_stores started.now.shape.slots started.now.shape.columns (started.now.shape.slots - started.now.shape.columns) (B.Backplane.view plane.old).live started.now.header stripe head.now row.now cell.now) (B.Backplane.view plane.old) result (B.Backplane.view plane.new) }
{
    store_record(plane, started, head, row)?;
    put(plane, Place::OfCell(0), cell)?;
    finish_checks(plane, started, stripe, row)
}

// The record: its head, and all check blocks of the row.
fn store_record<B: Backplane>(
    plane: &mut B,
    started: &Started,
    head: &Block,
    row: &Row,
) -> Result<(), ArrayFault>
    requires fits { Fits (B.Backplane.view plane.old) started.now }
    requires free { started.now.header.used + (1 + (started.now.shape.slots - started.now.shape.columns)) < (B.Backplane.view plane.old).cells }
    ensures stores { Performed (to_cell (started.now.header.used + 1) head.now ∷ row_cells started.now.shape.columns row.now (started.now.header.used + 2) (started.now.shape.slots - started.now.shape.columns) 0) (B.Backplane.view plane.old) result (B.Backplane.view plane.new) }
    ensures kept { OnOk result (Kept (B.Backplane.view plane.old) (B.Backplane.view plane.new)) }
{
    put(plane, Place::OfCell(started.header.used + 1), head)?;
    store_checks(plane, started, started.header.used + 2, row)
}

// The check blocks of a row, in the cells from a cell on.
fn store_checks<B: Backplane>(
    plane: &mut B,
    started: &Started,
    at: u32,
    row: &Row,
) -> Result<(), ArrayFault>
    requires fits { Fits (B.Backplane.view plane.old) started.now }
    requires free { at + (started.now.shape.slots - started.now.shape.columns) ≤ (B.Backplane.view plane.old).cells }
    ensures stores { Performed (row_cells started.now.shape.columns row.now at (started.now.shape.slots - started.now.shape.columns) 0) (B.Backplane.view plane.old) result (B.Backplane.view plane.new) }
    ensures kept { OnOk result (Kept (B.Backplane.view plane.old) (B.Backplane.view plane.new)) }
{
    let k = started.shape.columns;
    for r in 0..started.checks() {
        put(plane, Place::OfCell(at + r as u32), row_column(row, k + r))?;
    }
    Ok(())
}

// The check blocks of a row on their disks, where their columns are good. One loop for this and `store_checks` would take the step as a closure, and its clauses would be longer than the loop.
fn finish_checks<B: Backplane>(
    plane: &mut B,
    started: &Started,
    stripe: u32,
    row: &Row,
) -> Result<(), ArrayFault>
    requires fits { Fits (B.Backplane.view plane.old) started.now }
    requires stripe { stripe < (B.Backplane.view plane.old).blocks }
    ensures { Performed (to_good_checks started.now.shape.slots started.now.shape.columns (B.Backplane.view plane.old).live started.now.header stripe (λ r. column_in row.now (started.now.shape.columns + r)) (started.now.shape.slots - started.now.shape.columns) 0) (B.Backplane.view plane.old) result (B.Backplane.view plane.new) }
{
    let k = started.shape.columns;
    for r in 0..started.checks() {
        store_good(plane, started, stripe, k + r, row_column(row, k + r))?;
    }
    Ok(())
}
