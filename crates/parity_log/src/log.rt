// The log's place in the cells, and a cursor over its records.
ghost use Rattle.std.specs.Prelude.{◌≡◌, ◌+◌, ◌≤◌, MatchResult, if◌then◌else◌, nat_lt};
ghost use Rattle.layout.specs.Head.{record_cells};
ghost use Rattle.parity_log.specs.Codes.{coding};
ghost use Rattle.parity_log.specs.Walks.{head_within, resume_at, Next};

use backplane::Backplane;
use backplane::fault::{BackplaneFault, Place};
use codes::Code;
use layout::head::{Head, decode_head, record_cells};

// The log of an array with so many data columns, in cells 1 to `used`.
#[derive(Clone, Copy, Debug, PartialEq, Eq)]
pub struct Log {
    pub columns: u8,
    pub used: u32,
}

impl Log {
    // All records.
    pub fn records(self) -> Records
        ensures log { result.log ≡ self }
        ensures at { result.at ≡ 1 }
    {
        Records { log: self, at: 1 }
    }

    // The records after a parity record, or all where there is none.
    pub fn records_after<C: Code>(self, parity: Option<u32>) -> Records
        ensures log { result.log ≡ self }
        ensures at { result.at ≡ resume_at (coding C.Code self.columns) parity }
    {
        let at = match parity {
            None => 1,
            Some(cell) => cell as u64 + (1 + C::ROWS as u64),
        };
        Records { log: self, at }
    }

    // The head in the bytes of cell `at`, if it is one and its record ends within the cells in use.
    fn head_in<C: Code>(self, stripes: u32, at: u32, bytes: &[u8]) -> Option<Head>
        ensures { result ≡ head_within (coding C.Code self.columns) stripes self.used at bytes.now }
    {
        let head = decode_head(self.columns, stripes, bytes)?;
        (at as u64 + cells_of::<C>(head) <= self.used as u64 + 1).then_some(head)
    }
}

// The records of a log from the one on that begins in cell `at`. No `Iterator`: the body of a walk needs the backplane too.
#[derive(Clone, Copy, Debug, PartialEq, Eq)]
pub struct Records {
    pub log: Log,
    pub at: u64,
}

impl Records {
    // The cell and the head of the next record. There is none past the cells in use, and none where the record breaks the layout
    // or runs past those cells: there the cursor stays. `buf` is for one cell.
    pub fn next<B: Backplane, C: Code>(
        &mut self,
        plane: &mut B,
        buf: &mut [u8],
    ) -> Result<Option<(u32, Head)>, BackplaneFault>
        ensures next { Next (coding C.Code self.old.log.columns) (B.Backplane.view plane.old) self.old.log.used self.old.at buf.old result self.new.at }
        ensures log { self.new.log ≡ self.old.log }
        ensures buf { MatchResult result (λ _. buf.new ≡ (if nat_lt self.old.log.used self.old.at then buf.old else (B.Backplane.view plane.old).cell self.old.at)) (λ _. buf.new ≡ buf.old) }
        ensures kept { B.Backplane.view plane.new ≡ B.Backplane.view plane.old }
    {
        if self.at > self.log.used as u64 {
            return Ok(None);
        }
        let at = self.at as u32;
        plane.read(Place::OfCell(at), buf)?;
        let stripes = plane.blocks();
        let Some(head) = self.log.head_in::<C>(stripes, at, buf) else {
            return Ok(None);
        };
        self.at += cells_of::<C>(head);
        Ok(Some((at, head)))
    }
}

fn cells_of<C: Code>(head: Head) -> u64
    ensures value { result ≡ record_cells C.Code.ROWS head }
    ensures few { result ≤ 5 }
{
    record_cells(C::ROWS as u32, head)
}
