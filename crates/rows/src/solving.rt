// Solving the lost columns of a row whose blocks stand side by side.
ghost use Rattle.std.specs.Prelude.{◌≡◌, ℕ, ◌+◌, ◌*◌, ◌<◌, ◌≤◌, true, length, if◌then◌else◌, Ok, Err, OnOk, OnErr, nat_le};
ghost use Rattle.codes.specs.Code.{solvable};
ghost use Rattle.model.specs.Coding.{across};
ghost use Rattle.rows.specs.declared.fault.RowError.TheVariants.{NoRow};
ghost use Rattle.rows.specs.Columns.{column_in, PlacePut, RowSolved, row_solvable};

use crate::fault::RowError;
use codes::Code;

// The most columns of a row.
const COLUMNS: usize = 16;

// Solves the lost columns of the row, or changes nothing: where more columns are lost than the code has checks, or the sizes do not fit.
pub fn solve_row<C: Code>(k: usize, row: &mut [u8], lost: &[bool]) -> Result<(), RowError>
    ensures answer { result ≡ (if row_solvable C.Code.ROWS k lost.now (length row.old) then Ok tt else Err NoRow) }
    ensures solved { OnOk result (RowSolved C.Code.solved k (length lost.now) lost.now row.old row.new) }
    ensures refused { OnErr result (row.new ≡ row.old) }
{
    if !(is_solvable::<C>(k, lost) & holds_columns(lost.len(), row.len())) {
        return Err(RowError::NoRow);
    }
    solve_places::<C>(k, row, lost);
    Ok(())
}

fn holds_columns(columns: usize, bytes: usize) -> bool
    ensures { result ≡ nat_le (512 * columns) bytes }
{
    columns <= bytes / 512
}

// Whether the code solves rows with these columns lost: it does so by a row of zeros if by any.
fn is_solvable<C: Code>(k: usize, lost: &[bool]) -> bool
    ensures { result ≡ solvable C.Code.ROWS k (length lost.now) lost.now }
{
    let n = lost.len();
    if n > COLUMNS {
        return false;
    }
    let mut zeros = [0u8; COLUMNS];
    C::solve(k, &mut zeros[0..n], lost).is_ok()
}

// Solves the row at each place of its blocks.
fn solve_places<C: Code>(k: usize, row: &mut [u8], lost: &[bool])
    requires solvable { solvable C.Code.ROWS k (length lost.now) lost.now ≡ true }
    requires room { 512 * length lost.now ≤ length row.old }
    ensures { RowSolved C.Code.solved k (length lost.now) lost.now row.old row.new }
{
    for i in 0..512 {
        solve_place::<C>(k, row, lost, i);
    }
}

fn solve_place<C: Code>(k: usize, row: &mut [u8], lost: &[bool], i: usize)
    requires solvable { solvable C.Code.ROWS k (length lost.now) lost.now ≡ true }
    requires room { 512 * length lost.now ≤ length row.old }
    requires place { i < 512 }
    ensures { PlacePut (length lost.now) i (C.Code.solved k (across (length lost.now) (column_in row.old) i) lost.now) row.old row.new }
{
    let n = lost.len();
    let mut bytes = [0u8; COLUMNS];
    let place = &mut bytes[0..n];
    gather(row, i, place);
    C::solve(k, place, lost).unwrap();
    scatter(row, i, place);
}

// Copies byte i of each column.
fn gather(row: &[u8], i: usize, into: &mut [u8])
    requires few { length into.old ≤ 16 }
    requires place { i < 512 }
    requires room { 512 * length into.old ≤ length row.now }
    ensures { into.new ≡ across (length into.old) (column_in row.now) i }
{
    for (c, byte) in into.iter_mut().enumerate() {
        *byte = row[512 * c + i];
    }
}

// Puts byte i of each column back.
fn scatter(row: &mut [u8], i: usize, from: &[u8])
    requires few { length from.now ≤ 16 }
    requires place { i < 512 }
    requires room { 512 * length from.now ≤ length row.old }
    ensures { PlacePut (length from.now) i from.now row.old row.new }
{
    for (c, byte) in from.iter().enumerate() {
        row[512 * c + i] = *byte;
    }
}
