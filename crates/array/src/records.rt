// What the log's records say, read where it is known to be readable.
ghost use Rattle.std.specs.Prelude.{◌≡◌, ◌+◌, ◌-◌, ◌*◌, nat_lt};
ghost use Rattle.parity_log.specs.Pending.{with_write};
ghost use Rattle.parity_log.specs.Walks.{LastAt};
ghost use Rattle.model.specs.Log.{walk, owed};
ghost use Rattle.model.specs.Rules.{log_of, too_full};
ghost use Rattle.parity_log.specs.Codes.{coding_on};
ghost use Rattle.array.specs.Ready.{Opens};
ghost use Rattle.array.specs.Starts.{Walks, ToFinish};

use crate::parts::{Block, Row};
use crate::places::get;
use crate::started::Started;
use backplane::Backplane;
use backplane::fault::Place;
use codes::Code;
use faults::fault::LogFault;
use layout::head::{Head, decode_head};

// Whether so many cells more, and then so many parity records, would end past the last cell.
pub(crate) fn lacks_room<C: Code>(started: &Started, more: u32, records: u32) -> bool
    ensures { result ≡ nat_lt (started.now.shape.cells - 1) (started.now.header.used + more + (1 + C.Code.ROWS) * records) }
{
    let record = 1 + C::ROWS as u64;
    let end = started.header.used as u64 + more as u64 + record * records as u64;
    end > started.shape.cells.saturating_sub(1) as u64
}

// Whether the log has no room for a parity record of each stripe with pending records.
pub(crate) fn is_overfull<B: Backplane, C: Code>(
    plane: &mut B,
    started: &Started,
    map: &mut Row,
    cell: &mut Block,
) -> bool
    requires { Opens (coding_on C.Code (B.Backplane.view plane.old)) (B.Backplane.view plane.old) started.now }
    ensures value { result ≡ too_full (coding_on C.Code (B.Backplane.view plane.old)) (B.Backplane.view plane.old) started.now.header 0 (log_of (coding_on C.Code (B.Backplane.view plane.old)) (B.Backplane.view plane.old) started.now.header) }
    ensures kept { B.Backplane.view plane.new ≡ B.Backplane.view plane.old }
{
    let pending = count_pending::<B, C>(plane, started, None, map, cell);
    lacks_room::<C>(started, 0, pending)
}

// How many stripes have pending records, in the log as it is or with one more write record of a stripe.
pub(crate) fn count_pending<B: Backplane, C: Code>(
    plane: &mut B,
    started: &Started,
    more: Option<u32>,
    map: &mut Row,
    cell: &mut Block,
) -> u32
    requires { Opens (coding_on C.Code (B.Backplane.view plane.old)) (B.Backplane.view plane.old) started.now }
    ensures value { result ≡ owed (coding_on C.Code (B.Backplane.view plane.old)) (B.Backplane.view plane.old).blocks (with_write more (log_of (coding_on C.Code (B.Backplane.view plane.old)) (B.Backplane.view plane.old) started.now.header)) }
    ensures kept { B.Backplane.view plane.new ≡ B.Backplane.view plane.old }
{
    started
        .log()
        .count_pending_stripes::<B, C>(plane, more, map, cell)
        .unwrap()
}

// Walks over the log: the cell of its last head, if it has one.
pub(crate) fn last_head<B: Backplane, C: Code>(
    plane: &mut B,
    started: &Started,
    cell: &mut Block,
) -> Result<Option<u32>, LogFault>
    requires { Opens (coding_on C.Code (B.Backplane.view plane.old)) (B.Backplane.view plane.old) started.now }
    ensures walked { Walks (coding_on C.Code (B.Backplane.view plane.old)) (B.Backplane.view plane.old) started.now.header.used result }
    ensures kept { B.Backplane.view plane.new ≡ B.Backplane.view plane.old }
{
    started.log().walk::<B, C>(plane, cell)
}

// The cell and the head of the last record, by the cell that the walk found.
pub(crate) fn last_record<B: Backplane, C: Code>(
    plane: &mut B,
    started: &Started,
    last: Option<u32>,
    cell: &mut Block,
) -> Option<(u32, Head)>
    requires started { Opens (coding_on C.Code (B.Backplane.view plane.old)) (B.Backplane.view plane.old) started.now }
    requires last { LastAt (coding_on C.Code (B.Backplane.view plane.old)) (B.Backplane.view plane.old) started.now.header.used last (log_of (coding_on C.Code (B.Backplane.view plane.old)) (B.Backplane.view plane.old) started.now.header) }
    ensures value { ToFinish (coding_on C.Code (B.Backplane.view plane.old)) (B.Backplane.view plane.old) started.now.header result }
    ensures kept { B.Backplane.view plane.new ≡ B.Backplane.view plane.old }
{
    let at = last?;
    get(plane, Place::OfCell(at), cell);
    let stripes = plane.blocks();
    let head = decode_head(started.shape.columns, stripes, cell)?;
    Some((at, head))
}
