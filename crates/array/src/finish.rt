// Finishing the last record of the log: the stores that its append may not have come to.
ghost use Rattle.std.specs.Prelude.{◌≡◌, ◌+◌, ◌<◌};
ghost use Rattle.parity_log.specs.Walks.{LastAt};
ghost use Rattle.model.specs.Rules.{is_good, log_of, finish_last};
ghost use Rattle.parity_log.specs.Codes.{coding_on};
ghost use Rattle.array.specs.Calls.{Performed};
ghost use Rattle.array.specs.Ready.{Fits, Opens};
ghost use Rattle.array.specs.Starts.{to_good, to_good_checks, finish_by, Placed};

use crate::parts::Block;
use crate::places::get;
use crate::records::last_record;
use crate::row::store_good;
use crate::started::Started;
use backplane::Backplane;
use backplane::fault::Place;
use codes::Code;
use faults::fault::ArrayFault;
use layout::head::Head;

// Finishes the last record, whose head is in the cell that the walk found: stores its image, or its check blocks, where their columns are good.
pub(crate) fn finish_last<B: Backplane, C: Code>(
    plane: &mut B,
    started: &Started,
    last: Option<u32>,
    cell: &mut Block,
) -> Result<(), ArrayFault>
    requires started { Opens (coding_on C.Code (B.Backplane.view plane.old)) (B.Backplane.view plane.old) started.now }
    requires last { LastAt (coding_on C.Code (B.Backplane.view plane.old)) (B.Backplane.view plane.old) started.now.header.used last (log_of (coding_on C.Code (B.Backplane.view plane.old)) (B.Backplane.view plane.old) started.now.header) }
    ensures { Performed (finish_last (coding_on C.Code (B.Backplane.view plane.old)) (is_good (coding_on C.Code (B.Backplane.view plane.old)) (B.Backplane.view plane.old) started.now.header) (log_of (coding_on C.Code (B.Backplane.view plane.old)) (B.Backplane.view plane.old) started.now.header)) (B.Backplane.view plane.old) result (B.Backplane.view plane.new) }
{
    match last_record::<B, C>(plane, started, last, cell) {
        Some((at, head)) => finish_record::<B, C>(plane, started, at, head, cell),
        None => Ok(()),
    }
}

fn finish_record<B: Backplane, C: Code>(
    plane: &mut B,
    started: &Started,
    at: u32,
    head: Head,
    cell: &mut Block,
) -> Result<(), ArrayFault>
    requires started { Opens (coding_on C.Code (B.Backplane.view plane.old)) (B.Backplane.view plane.old) started.now }
    requires placed { Placed C.Code.ROWS (B.Backplane.view plane.old) at head }
    ensures { Performed (finish_by started.now.shape.slots started.now.shape.columns C.Code.ROWS (B.Backplane.view plane.old) started.now.header at head) (B.Backplane.view plane.old) result (B.Backplane.view plane.new) }
{
    match head {
        Head::OfWrite(stripe, column) => {
            finish_column(plane, started, stripe, column, at + 2, cell)
        }
        Head::OfParity(stripe) => finish_parity::<B, C>(plane, started, stripe, at, cell),
    }
}

// The check blocks of the parity record in cell `at`, where their columns are good.
fn finish_parity<B: Backplane, C: Code>(
    plane: &mut B,
    started: &Started,
    stripe: u32,
    at: u32,
    cell: &mut Block,
) -> Result<(), ArrayFault>
    requires fits { Fits (B.Backplane.view plane.old) started.now }
    requires columns { started.now.shape.columns + C.Code.ROWS ≡ started.now.shape.slots }
    requires stripe { stripe < (B.Backplane.view plane.old).blocks }
    requires cells { at + C.Code.ROWS < (B.Backplane.view plane.old).cells }
    ensures { Performed (to_good_checks started.now.shape.slots started.now.shape.columns (B.Backplane.view plane.old).live started.now.header stripe (λ r. (B.Backplane.view plane.old).cell (at + (1 + r))) C.Code.ROWS 0) (B.Backplane.view plane.old) result (B.Backplane.view plane.new) }
{
    let k = started.shape.columns;
    for row in 0..started.checks() {
        finish_column(plane, started, stripe, k + row, at + (1 + row as u32), cell)?;
    }
    Ok(())
}

// Stores what cell `from` holds at a column of a stripe, where that is good.
fn finish_column<B: Backplane>(
    plane: &mut B,
    started: &Started,
    stripe: u32,
    column: u8,
    from: u32,
    cell: &mut Block,
) -> Result<(), ArrayFault>
    requires fits { Fits (B.Backplane.view plane.old) started.now }
    requires stripe { stripe < (B.Backplane.view plane.old).blocks }
    requires cell { from < (B.Backplane.view plane.old).cells }
    ensures { Performed (to_good started.now.shape.slots (B.Backplane.view plane.old).live started.now.header stripe column ((B.Backplane.view plane.old).cell from)) (B.Backplane.view plane.old) result (B.Backplane.view plane.new) }
{
    get(plane, Place::OfCell(from), cell);
    store_good(plane, started, stripe, column, cell)
}
