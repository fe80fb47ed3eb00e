// A recording spread over columns, block by block, with check columns behind them.
use crate::{DATA, STRIPE, width};
use codes::{Code, RowFault};
use std::alloc::{AllocError, Global};

// All columns that there may be: a code has four checks at most.
const PLACES: usize = DATA + 4;

// The bytes at one place of all columns, those of data first; zeros behind the last.
// Of a fixed length: tried with a const parameter N, and the part of such a row owes N < 2^63, which nothing knows.
type Row = [u8; PLACES];

// A flag for each column.
pub(crate) type Lost = [bool; PLACES];

#[derive(Drop)]
pub struct Columns {
    rows: Vec<Row>,
}

// What stands in a lost column until it is restored.
const GONE: u8 = 0xE5;

// The bytes at place `i` of the blocks of a stripe, zeros past its end.
fn row_at(stripe: &[u8], i: usize) -> Row {
    std::array::from_fn(|c| {
        let at = c.saturating_mul(512).saturating_add(i);
        stripe.get(at).copied().unwrap_or(0)
    })
}

// Overwrites the bytes that are lost.
fn lose(row: &mut Row, lost: &Lost) {
    for (b, gone) in row.iter_mut().zip(lost.iter()) {
        if *gone {
            *b = GONE;
        }
    }
}

// The part of a row that a code has columns for.
fn part<C: Code>(row: &mut Row) -> &mut [u8] {
    let n = width::<C>().min(PLACES);
    &mut row[..n]
}

// The row with its lost bytes overwritten and restored, unless that is refused.
fn restored_row<C: Code>(kept: &Row, lost: &Lost) -> Result<Row, RowFault> {
    let mut row = *kept;
    lose(&mut row, lost);
    codes::restore::<C>(DATA, part::<C>(&mut row), lost)?;
    Ok(row)
}

impl Columns {
    // Block b of the recording goes to column b mod DATA; the last stripe is filled up with zeros. The code's checks stand behind.
    pub(crate) fn spread<C: Code>(heap: Global, recording: &[u8]) -> Result<Self, AllocError> {
        let places = recording.len().div_ceil(STRIPE).saturating_mul(512);
        let mut columns = Columns {
            rows: Vec::with_capacity(heap, places)?,
        };
        for stripe in recording.chunks(STRIPE) {
            columns.push_stripe::<C>(stripe)?;
        }
        Ok(columns)
    }

    fn push_stripe<C: Code>(&mut self, stripe: &[u8]) -> Result<(), AllocError> {
        for i in 0..512usize {
            let mut row = row_at(stripe, i);
            let _ = codes::encode::<C>(DATA, part::<C>(&mut row));
            self.rows.push(row)?;
        }
        Ok(())
    }

    // The bytes in each column.
    pub(crate) fn length(&self) -> usize {
        self.rows.len()
    }

    // The first `length` bytes of the recording, from its data columns once the lost ones are overwritten and restored, stripe by stripe; none if a row was refused.
    pub(crate) fn restored<C: Code>(
        &self,
        heap: Global,
        lost: &Lost,
        length: usize,
    ) -> Result<Option<Vec<u8>>, AllocError> {
        let mut out = Vec::with_capacity(heap, self.rows.len().saturating_mul(DATA))?;
        let mut rows = Vec::new(heap);
        for stripe in self.rows.chunks(512) {
            rows.clear();
            for kept in stripe.iter() {
                let Ok(row) = restored_row::<C>(kept, lost) else {
                    return Ok(None);
                };
                rows.push(row)?;
            }
            push_data(&mut out, rows.as_slice())?;
        }
        out.truncate(length);
        Ok(Some(out))
    }
}

// Appends the data blocks of a stripe, one after the other.
fn push_data(out: &mut Vec<u8>, stripe: &[Row]) -> Result<(), AllocError> {
    for c in 0..DATA {
        for row in stripe.iter() {
            out.push(row[c])?;
        }
    }
    Ok(())
}
