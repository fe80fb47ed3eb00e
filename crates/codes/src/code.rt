// What a code is, and what follows for every code from its laws.
ghost use Rattle.std.specs.Prelude.{◌≡◌, ℕ, ◌+◌, ◌<◌, ◌≤◌, Bool, true, List, ◌++◌, length, take, replicate, if◌then◌else◌, bit_xor, is_ok, IsOk, IsOkUnless};
ghost use Rattle.codes.specs.Code.{Bytes, plus, filled, share_of, coded, Apart, solvable, Solves, Solved, Only, Restored, codable};
ghost use Rattle.codes.specs.Solving.{remade, completed};
ghost use Rattle.codes.specs.declared.fault.RowFault.{RowFault};

use crate::fault::RowFault;
use crate::row::{COLUMNS, is_lost, lost_places};

// The most places of a row: 12 of data and 4 of checks.
const PLACES: usize = 16;

// A row has k data bytes, 2 to 12, and then a check byte for each check row.
pub trait Code {
    const NUMBER: u8;

    const ROWS: usize;

    ghost NUMBER: { ℕ };

    ghost ROWS: { ℕ };

    // The check of row `r`, over the data filled up with zeros to 12 columns.
    ghost check: { ℕ → List ℕ → ℕ };

    // The row with its lost data bytes filled in.
    ghost repaired: { ℕ → List ℕ → List Bool → List ℕ };

    // The row with all its lost bytes filled in.
    ghost solved: { ℕ → List ℕ → List Bool → List ℕ };

    fn check_byte(r: usize, bytes: &[u8]) -> u8
        ensures { result ≡ check r bytes.now };

    // The check of `b` at column `j` and zeros elsewhere.
    fn share(r: usize, j: usize, b: u8) -> u8
        ensures { result ≡ share_of check ROWS r j b };

    // Fills in the lost ones of a row's data bytes by its checks.
    fn fill_data(bytes: &mut [u8], checks: &[u8], lost: &[bool])
        ensures { bytes.new ++ checks.now ≡ repaired (length bytes.old) (bytes.old ++ checks.now) lost.now };

    ghost named: { NUMBER < 256 };

    ghost few: { (1 ≤ ROWS) × (ROWS ≤ 4) };

    ghost low: { (r : ℕ) (xs : List ℕ) → Bytes xs → check r xs < 256 };

    ghost past: { (r : ℕ) (xs : List ℕ) → ROWS ≤ r → check r xs ≡ 0 };

    ghost fill: { (r : ℕ) (xs : List ℕ) → check r xs ≡ check r (filled xs) };

    ghost zero: { (r n : ℕ) → check r (replicate n 0) ≡ 0 };

    ghost additive: { (r : ℕ) (xs ys : List ℕ) → length xs ≡ length ys → Bytes xs → Bytes ys → check r (plus xs ys) ≡ bit_xor (check r xs) (check r ys) };

    ghost apart: { Apart check ROWS };

    ghost solves: { (k : ℕ) (row : List ℕ) (lost : List Bool) → solvable ROWS k (length row) lost ≡ true → Bytes row → Solves check ROWS k row lost (solved k row lost) };

    // Solving a row is filling in its data, and then making its lost checks.
    ghost completes: { (k : ℕ) (row : List ℕ) (lost : List Bool) → solved k row lost ≡ completed check ROWS k lost (repaired k row lost) };

    // `NUMBER` and `ROWS`, as functions.
    final fn code_number() -> u8
        ensures { result ≡ NUMBER }
    {
        Self::NUMBER
    }

    final fn check_rows() -> usize
        ensures { result ≡ ROWS }
    {
        Self::ROWS
    }

    // Fills in the lost bytes, or refuses and changes nothing.
    final fn solve(k: usize, row: &mut [u8], lost: &[bool]) -> Result<(), RowFault>
        ensures solved { Solved ROWS solved k row.old lost.now (is_ok result) row.new }
        ensures fault { IsOkUnless result RowFault.Unsolvable }
    {
        if !can_solve::<Self>(k, row.len(), lost) {
            return Err(RowFault::Unsolvable);
        }
        let (data, checks) = row.split_at_mut(k);
        Self::fill_data(data, checks, lost);
        put_checks::<Self>(data, checks, lost);
        Ok(())
    }
}

// Solves the row. What it fills in is the only data that fits, and a coded row is restored.
pub fn restore<C: Code>(k: usize, row: &mut [u8], lost: &[bool]) -> Result<(), RowFault>
    ensures solved { Solved C.Code.ROWS C.Code.solved k row.old lost.now (is_ok result) row.new }
    ensures fault { IsOkUnless result RowFault.Unsolvable }
    ensures fits { IsOk result → Solves C.Code.check C.Code.ROWS k row.old lost.now row.new }
    ensures only { IsOk result → Only C.Code.check C.Code.ROWS k row.old lost.now row.new }
    ensures restored { Restored C.Code.check C.Code.ROWS k row.old lost.now (is_ok result) row.new }
{
    C::solve(k, row, lost)
}

// Makes the checks of a row from its data, or refuses and changes nothing.
pub fn encode<C: Code>(k: usize, row: &mut [u8]) -> Result<(), RowFault>
    ensures answer { is_ok result ≡ codable C.Code.ROWS k (length row.old) }
    ensures fault { IsOkUnless result RowFault.Uncodable }
    ensures after { row.new ≡ (if codable C.Code.ROWS k (length row.old) then coded C.Code.check C.Code.ROWS (take k row.old) else row.old) }
{
    if !has_sizes::<C>(k, row.len()) {
        return Err(RowFault::Uncodable);
    }
    let (data, checks) = row.split_at_mut(k);
    put_checks::<C>(data, checks, &[true; PLACES]);
    Ok(())
}

// Whether a row of `n` bytes can have `k` data bytes and the checks of the code.
fn has_sizes<C: Code>(k: usize, n: usize) -> bool
    ensures { result ≡ codable C.Code.ROWS k n }
{
    2 <= k && k <= COLUMNS && n == k + C::ROWS
}

// Whether a row of `n` bytes can be solved by the code.
fn can_solve<C: Code>(k: usize, n: usize, lost: &[bool]) -> bool
    ensures { result ≡ solvable C.Code.ROWS k n lost.now }
{
    has_sizes::<C>(k, n) && lost_places(lost, n) == 0 && lost_places(lost, 0) <= C::ROWS
}

// Makes the lost ones of a row's checks from its data.
fn put_checks<C: Code>(bytes: &[u8], checks: &mut [u8], lost: &[bool])
    ensures { bytes.now ++ checks.new ≡ remade (λ r. C.Code.check r bytes.now) (length bytes.now) lost.now (length checks.old) (bytes.now ++ checks.old) }
{
    for (r, b) in checks.iter_mut().enumerate() {
        if is_lost(lost, bytes.len() + r) {
            *b = C::check_byte(r, bytes);
        }
    }
}
