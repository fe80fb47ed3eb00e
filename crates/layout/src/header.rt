// What cell 0 says of the log and of the disks.
ghost use Rattle.std.specs.Prelude.{◌≡◌, ℕ, true, ◌++◌, length, replicate, IfSome, if◌then◌else◌, is_ok, ◌==◌, nat_eq};
ghost use Rattle.layout.specs.Header.{front_bytes, header_bytes, header_in, goods_in, goods_fit, header_fits, header_of, is_laid_out, first_header, with_used, with_good};
ghost use Rattle.layout.specs.Limits.{within_limits};

use crate::blocks::{WrongLength, is_cell, number_at, put_number, store_cell};
use crate::shape::Shape;
use std::array;

// The shape stands beside it in cell 0, but the array takes that from its backplane and holds the header alone.
#[derive(Clone, Copy, Debug, PartialEq, Eq)]
pub struct Header {
    // the log cells in use
    pub used: u32,
    // the good stripes of each slot: those below this number hold what they should
    pub good: [u32; 16],
}

impl Header {
    // The header of an array just formatted: the log is empty, and every stripe is good.
    pub fn first(shape: &Shape) -> Header
        ensures { result ≡ first_header shape.now.slots shape.now.blocks }
    {
        Header {
            used: 0,
            good: array::from_fn(|slot| shape.most_good(slot)),
        }
    }

    // The header in the bytes of a cell 0, if they are as laid out for a code with so many check rows and an array of this shape.
    pub fn decode(shape: &Shape, rows: u32, cell: &[u8]) -> Option<Header>
        ensures value { result ≡ header_of rows shape.now cell.now }
        ensures back { IfSome result (λ h. header_bytes shape.now h ≡ cell.now) }
    {
        let header = Header {
            used: number_at(cell, 16),
            good: goods_in(cell),
        };
        if shape.within(rows) && header.fits(shape) && is_cell(cell, &header.cell(shape)) {
            Some(header)
        } else {
            None
        }
    }

    // Cell 0 of an array of this shape.
    pub fn cell(&self, shape: &Shape) -> [u8; 512]
        ensures bytes { result ≡ header_bytes shape.now self.now }
        ensures back { (rows : ℕ) → within_limits rows shape.now ≡ true → header_fits shape.now self.now ≡ true → (is_laid_out rows shape.now result ≡ true) × (header_in result ≡ self.now) }
    {
        let mut cell = front(shape, self.used);
        for (d, good) in self.good.iter().enumerate() {
            put_number(&mut cell, 20 + 4 * d, *good);
        }
        cell
    }

    // Fills 512 bytes with cell 0 of an array of this shape. Other than 512 bytes stay as they are.
    pub fn encode(&self, shape: &Shape, into: &mut [u8]) -> Result<(), WrongLength>
        ensures done { is_ok result ≡ (length into.old == 512) }
        ensures bytes { into.new ≡ (if nat_eq (length into.old) 512 then header_bytes shape.now self.now else into.old) }
        ensures back { (rows : ℕ) → is_ok result ≡ true → within_limits rows shape.now ≡ true → header_fits shape.now self.now ≡ true → (is_laid_out rows shape.now into.new ≡ true) × (header_in into.new ≡ self.now) }
    {
        store_cell(&self.cell(shape), into)
    }

    // Whether no more cells are in use than there are, and no more stripes good.
    pub fn fits(&self, shape: &Shape) -> bool
        ensures { result ≡ header_fits shape.now self.now }
    {
        self.used <= shape.cells.saturating_sub(1) && goods_fit(shape, &self.good)
    }

    pub fn with_used(self, used: u32) -> Header
        ensures { result ≡ with_used self used }
    {
        Header { used, ..self }
    }

    // With other good stripes for a slot, the same for a slot of 16 or more.
    pub fn with_good(mut self, slot: u32, stripes: u32) -> Header
        ensures { result ≡ with_good self slot stripes }
    {
        // by index: after a `get_mut` a proof knows the length alone
        if slot < 16 {
            self.good[slot as usize] = stripes;
        }
        self
    }
}

// Whether each slot has at most as many good stripes as it may have.
fn goods_fit(shape: &Shape, good: &[u32; 16]) -> bool
    ensures { result ≡ goods_fit shape.now.slots shape.now.blocks 16 good.now }
{
    good.iter()
        .enumerate()
        .all(|(slot, stripes)| *stripes <= shape.most_good(slot))
}

// The sixteen counts of good stripes in a cell 0.
fn goods_in(cell: &[u8]) -> [u32; 16]
    ensures { result ≡ goods_in cell.now }
{
    array::from_fn(|slot| number_at(cell, 20 + 4 * slot as u32))
}

// The first twenty bytes of cell 0, and zeros.
fn front(shape: &Shape, used: u32) -> [u8; 512]
    ensures { result ≡ front_bytes shape.now used ++ replicate 492 0 }
{
    let mut cell = [0u8; 512];
    cell[..4].copy_from_slice(b"PLOG");
    cell[4] = shape.code;
    cell[5] = shape.columns;
    cell[6] = shape.slots;
    put_number(&mut cell, 8, shape.blocks);
    put_number(&mut cell, 12, shape.cells);
    put_number(&mut cell, 16, used);
    cell
}
