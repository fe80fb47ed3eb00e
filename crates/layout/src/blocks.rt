// Blocks of bytes: their sums, numbers in them, cells by value, and the guard of lent work bytes.
ghost use Rattle.std.specs.Prelude.{◌≡◌, ◌+◌, ◌≤◌, true, min, length, replicate, slice_index, if◌then◌else◌, is_ok, ◌==◌, nat_eq};
ghost use Rattle.std.specs.Str.{bytes_eq};
ghost use Rattle.std.proofs.Math.Seq.{paste};
ghost use Rattle.layout.specs.Bytes.{sum_of, summed_to, le4, four_at};

use std::error::Error;
use std::fmt;

// Adds src to dst, as far as both go. Blocks are added here and in `sum_into` only.
// No `zip`: of what is written through one a proof knows nothing.
pub fn add_into(dst: &mut [u8], src: &[u8])
    ensures after { dst.new ≡ summed_to dst.old src.now (min (length dst.old) (length src.now)) dst.old }
    ensures whole { length src.now ≡ length dst.old → dst.new ≡ sum_of dst.old src.now }
{
    let common = dst.len().min(src.len());
    for (i, d) in dst[..common].iter_mut().enumerate() {
        *d ^= src[i];
    }
}

// Stores the sum of a and b in dst, as far as all three go. Each byte is stored once, with the sum in it.
// The loop is its own: dst cannot be lent as a too.
pub fn sum_into(dst: &mut [u8], a: &[u8], b: &[u8])
    ensures after { dst.new ≡ summed_to a.now b.now (min (length dst.old) (min (length a.now) (length b.now))) dst.old }
    ensures whole { length a.now ≡ length dst.old → length b.now ≡ length dst.old → dst.new ≡ sum_of a.now b.now }
{
    let common = dst.len().min(a.len().min(b.len()));
    for (i, d) in dst[..common].iter_mut().enumerate() {
        *d = a[i] ^ b[i];
    }
}

pub fn wipe(bytes: &mut [u8])
    ensures { bytes.new ≡ replicate (length bytes.old) 0 }
{
    bytes.fill(0);
}

// The byte at a place, 0 past the end.
pub(crate) fn byte_at(bytes: &[u8], at: usize) -> u8
    ensures { result ≡ slice_index bytes.now at }
{
    bytes.get(at).copied().unwrap_or(0)
}

// The number in the four bytes from a place on, the lowest first; bytes past the end count as zeros.
pub fn number_at(bytes: &[u8], at: u32) -> u32
    ensures { result ≡ four_at bytes.now at }
{
    let at = at as usize;
    u32::from_le_bytes([
        byte_at(bytes, at),
        byte_at(bytes, at + 1),
        byte_at(bytes, at + 2),
        byte_at(bytes, at + 3),
    ])
}

// Stores a number in four bytes of a cell, the lowest first.
pub(crate) fn put_number(cell: &mut [u8; 512], at: usize, number: u32)
    requires { at + 4 ≤ 512 }
    ensures { cell.new ≡ paste cell.old at (le4 number) 4 }
{
    cell[at..at + 4].copy_from_slice(&number.to_le_bytes());
}

// A cell was to be stored in other than 512 bytes.
#[derive(Clone, Copy, Debug, PartialEq, Eq)]
pub struct WrongLength;

impl fmt::Display for WrongLength {
    fn fmt<W: fmt::Write>(&self, f: &mut fmt::Formatter<W>) -> fmt::Result {
        write!(f, "a cell has 512 bytes")
    }
}

impl Error for WrongLength {}

// Stores a cell in 512 bytes. Other than 512 bytes stay as they are.
pub(crate) fn store_cell(cell: &[u8; 512], into: &mut [u8]) -> Result<(), WrongLength>
    ensures done { is_ok result ≡ (length into.old == 512) }
    ensures bytes { into.new ≡ (if nat_eq (length into.old) 512 then cell.now else into.old) }
{
    if into.len() != 512 {
        return Err(WrongLength);
    }
    into.copy_from_slice(cell);
    Ok(())
}

// Whether bytes are just those of a cell.
pub(crate) fn is_cell(bytes: &[u8], cell: &[u8; 512]) -> bool
    ensures value { result ≡ bytes_eq bytes.now cell.now }
    ensures same { result ≡ true → cell.now ≡ bytes.now }
{
    bytes == cell.as_slice()
}

// Holds lent work bytes, and leaves them all zeros on every way out.
pub struct WorkArea<'a>(pub &'a mut [u8]);

impl Drop for WorkArea<'_> {
    fn drop(self)
        ensures { self.exit.0.now ≡ replicate (length self.entry.0.now) 0 }
    {
        wipe(self.0);
        let WorkArea(_) = self;
    }
}
