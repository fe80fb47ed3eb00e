// What a block at a data column adds to the check blocks of its row.
ghost use Rattle.std.specs.Prelude.{◌≡◌, ℕ, ◌<◌, ◌≤◌, min, map, length};
ghost use Rattle.codes.specs.Code.{share_of};
ghost use Rattle.layout.specs.Bytes.{sum_of, summed_to};
ghost use Rattle.model.specs.Coding.{share};
ghost use Rattle.parity_log.specs.Codes.{coding};

use codes::Code;

// Adds to target the share in check row r of a block at a data column, as far as both go.
pub fn add_share<C: Code>(r: usize, column: usize, block: &[u8], target: &mut [u8])
    ensures after { target.new ≡ summed_to target.old (map (share_of C.Code.check C.Code.ROWS r column) block.now) (min (length target.old) (length block.now)) target.old }
    ensures whole { (k : ℕ) → column < k → k ≤ 12 → r < C.Code.ROWS → length block.now ≡ 512 → length target.old ≡ 512 → target.new ≡ sum_of target.old (share (coding C.Code k) r column block.now) }
{
    // no zip: of what is written through one a proof knows nothing
    let n = target.len().min(block.len());
    for (i, check) in target[..n].iter_mut().enumerate() {
        *check ^= C::share(r, column, block[i]);
    }
}
