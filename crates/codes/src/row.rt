// Steps of solving a row that codes share.
ghost use Rattle.std.specs.Prelude.{◌≡◌, ℕ, ◌+◌, ◌-◌, ◌*◌, ◌<◌, ◌≤◌, true, length, drop, if◌then◌else◌, nat_lt, slice_index, IfSome, IfNone};
ghost use Rattle.codes.specs.Code.{alone, lost_at, lost_count};
ghost use Rattle.codes.specs.Solving.{next_lost, cleared};
ghost use Rattle.codes.specs.Sums.{total, weighted};

use field::scaled;

// The most data columns of a row.
pub(crate) const COLUMNS: usize = 12;

// Whether place `c` is lost; places past the end of `lost` are kept.
pub(crate) fn is_lost(lost: &[bool], c: usize) -> bool
    ensures { result ≡ lost_at lost.now c }
{
    lost.get(c).copied().unwrap_or(false)
}

// How many places from `from` on are lost.
pub(crate) fn lost_places(lost: &[bool], from: usize) -> usize
    ensures { result ≡ lost_count (drop from lost.now) }
{
    let from = from.min(lost.len());
    lost[from..].iter().filter(|l| **l).count()
}

// The first lost place from `from` on and below `to`.
pub(crate) fn next_lost(lost: &[bool], from: usize, to: usize) -> Option<usize>
    ensures place { IfSome result (λ c. c ≡ next_lost lost.now from (to - from)) }
    ensures below { IfSome result (λ c. c < to) }
    ensures none { IfNone result (to ≤ next_lost lost.now from (to - from)) }
{
    (from..to).find(|c| is_lost(lost, *c))
}

// Puts 0 in the lost places.
pub(crate) fn clear_lost(bytes: &mut [u8], lost: &[bool])
    ensures { bytes.new ≡ cleared lost.now (length bytes.old) bytes.old }
{
    for (c, b) in bytes.iter_mut().enumerate() {
        if is_lost(lost, c) {
            *b = 0;
        }
    }
}

// The check of row `r`, and 0 past the rows.
pub(crate) fn check_at(checks: &[u8], r: usize) -> u8
    ensures { result ≡ slice_index checks.now r }
{
    checks.get(r).copied().unwrap_or(0)
}

// The sum of the data bytes. It is no `weighted_of(0, ..)`, which would look up two tables for each byte to multiply it by 1.
pub(crate) fn sum_of(bytes: &[u8]) -> u8
    ensures { result ≡ total bytes.now }
{
    let n = bytes.len().min(COLUMNS);
    bytes[..n].iter().fold(0, |s, b| s ^ b)
}

// The sum of E(step * j) times byte j.
pub(crate) fn weighted_of(step: usize, bytes: &[u8]) -> u8
    requires { step ≤ 4 }
    ensures { result ≡ weighted step bytes.now }
{
    let n = bytes.len().min(COLUMNS);
    let mut s = 0;
    for (j, b) in bytes[..n].iter().enumerate() {
        s ^= scaled(step * j, *b);
    }
    s
}

// What `b` at column `j` adds to the sum. It is no `weighted_share(0, ..)`, for the same reason.
pub(crate) fn plain_share(j: usize, b: u8) -> u8
    ensures { result ≡ (if nat_lt j 12 then total (alone j b) else 0) }
{
    if j < COLUMNS { b } else { 0 }
}

// What `b` at column `j` adds to the sum weighted by E(step * j).
pub(crate) fn weighted_share(step: usize, j: usize, b: u8) -> u8
    requires { step ≤ 4 }
    ensures { result ≡ (if nat_lt j 12 then weighted step (alone j b) else 0) }
{
    if j < COLUMNS { scaled(step * j, b) } else { 0 }
}
