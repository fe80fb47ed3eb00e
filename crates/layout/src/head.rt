// The head of a log record.
ghost use Rattle.std.specs.Prelude.{◌≡◌, ℕ, true, length, IfSome, if◌then◌else◌, Some, is_ok, ◌==◌, nat_eq};
ghost use Rattle.layout.specs.Head.{head_cell, head_bytes, head_in, head_fits, record_cells};

use crate::blocks::{WrongLength, byte_at, is_cell, number_at, put_number, store_cell};

#[derive(Clone, Copy, Debug, PartialEq, Eq)]
pub enum Head {
    // a write record: the stripe and the data column
    OfWrite(u32, u8),
    // a parity record: the stripe
    OfParity(u32),
}

// The first byte of a write record's head.
const WRITE: u8 = 1;

// That of a parity record's.
const PARITY: u8 = 2;

impl Head {
    // The cell that holds this head.
    pub fn cell(&self) -> [u8; 512]
        ensures bytes { result ≡ head_bytes self.now }
        ensures back { (k stripes : ℕ) → head_fits k stripes self.now ≡ true → head_in k stripes result ≡ Some self.now }
    {
        match *self {
            Head::OfWrite(stripe, column) => cell_of(WRITE, column, stripe),
            Head::OfParity(stripe) => cell_of(PARITY, 0, stripe),
        }
    }

    // Fills 512 bytes with this head. Other than 512 bytes stay as they are.
    pub fn encode(&self, into: &mut [u8]) -> Result<(), WrongLength>
        ensures done { is_ok result ≡ (length into.old == 512) }
        ensures bytes { into.new ≡ (if nat_eq (length into.old) 512 then head_bytes self.now else into.old) }
        ensures back { (k stripes : ℕ) → is_ok result ≡ true → head_fits k stripes self.now ≡ true → head_in k stripes into.new ≡ Some self.now }
    {
        store_cell(&self.cell(), into)
    }
}

// The head in the bytes of a cell, with k data columns and so many stripes; none where they are damaged.
pub fn decode_head(k: u8, stripes: u32, cell: &[u8]) -> Option<Head>
    ensures value { result ≡ head_in k stripes cell.now }
    ensures back { IfSome result (λ h. head_bytes h ≡ cell.now) }
{
    let column = byte_at(cell, 1);
    let stripe = number_at(cell, 4);
    let write = Head::OfWrite(stripe, column);
    if stripe < stripes && column < k && is_cell(cell, &write.cell()) {
        return Some(write);
    }
    let parity = Head::OfParity(stripe);
    if stripe < stripes && is_cell(cell, &parity.cell()) {
        return Some(parity);
    }
    None
}

// How many cells a record has, its head among them, with so many check rows.
pub fn record_cells(rows: u32, head: Head) -> u64
    ensures { result ≡ record_cells rows head }
{
    match head {
        Head::OfWrite(_, _) => 3,
        Head::OfParity(_) => 1 + rows as u64,
    }
}

fn cell_of(kind: u8, column: u8, stripe: u32) -> [u8; 512]
    ensures { result ≡ head_cell kind column stripe }
{
    let mut cell = [0u8; 512];
    cell[0] = kind;
    cell[1] = column;
    put_number(&mut cell, 4, stripe);
    cell
}
