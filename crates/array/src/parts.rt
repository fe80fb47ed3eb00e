// The parts of a work area.
ghost use Rattle.std.specs.Prelude.{◌≡◌, ◌<◌, ◌≤◌, length, MatchResult};
ghost use Rattle.faults.specs.declared.fault.ArrayFault.TheVariants.{ShortWork};

use crate::array::WORK;
use faults::fault::ArrayFault;

// The bytes of a block or a cell, and of the most columns that there are.
pub(crate) const BLOCK: usize = 512;

pub(crate) const ROW: usize = 8192;

pub(crate) type Block = [u8; BLOCK];

pub(crate) type Row = [u8; ROW];

#[derive(Drop)]
pub(crate) struct Parts<'a> {
    // the row of a stripe, or the marks of the stripes with pending records
    pub(crate) row: &'a mut Row,
    // for one cell of the log
    pub(crate) cell: &'a mut Block,
    // for the block that a call works out
    pub(crate) block: &'a mut Block,
}

// Refuses a work area that is too short. The calls pass no closure for the rest: of what an uncalled one borrowed nothing is known.
pub(crate) fn check_work(work: &[u8]) -> Result<(), ArrayFault>
    ensures { MatchResult result (λ _. 10240 ≤ length work.now) (λ f. (length work.now < 10240) × (f ≡ ShortWork)) }
{
    if work.len() < WORK {
        return Err(ArrayFault::ShortWork);
    }
    Ok(())
}

pub(crate) fn split_work(work: &mut [u8]) -> Parts<'_>
    requires { 10240 ≤ length work.old }
{
    let Some((row, rest)) = work.split_first_chunk_mut::<ROW>() else {
        unreachable()
    };
    let Some((cell, rest)) = rest.split_first_chunk_mut::<BLOCK>() else {
        unreachable()
    };
    let Some(block) = rest.first_chunk_mut::<BLOCK>() else {
        unreachable()
    };
    Parts { row, cell, block }
}
