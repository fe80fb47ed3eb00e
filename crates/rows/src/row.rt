// The row of a stripe, read and solved in lent bytes: column c stands at byte 512 * c.
ghost use Rattle.std.specs.Prelude.{◌≡◌, ℕ, ◌+◌, ◌*◌, ◌<◌, ◌≤◌, true, false, length, not, is_some, IfSome, if◌then◌else◌, Ok, Err, OnOk, OnErr, nat_lt, ◌==◌};
ghost use Rattle.layout.specs.Stripes.{slot_of};
ghost use Rattle.model.specs.Coding.{zeros};
ghost use Rattle.model.specs.Row.{missing};
ghost use Rattle.model.specs.Rules.{good_of};
ghost use Rattle.parity_log.specs.Codes.{coding, coding_on};
ghost use Rattle.rows.specs.declared.fault.RowError.{RowError};
ghost use Rattle.rows.specs.declared.fault.RowError.TheVariants.{NoRow};
ghost use Rattle.rows.specs.Columns.{column_in, ColumnPut, flagged};
ghost use Rattle.rows.specs.Rows.{OpenFits, StripeFits, open_shape, has_room, has_row, HoldsRow, has_debt, Settled};

use crate::fault::RowError;
use crate::pending::Pending;
use crate::solving::solve_row;
use crate::stripe::Stripe;
use backplane::Backplane;
use backplane::fault::{BackplaneFault, Place};
use codes::Code;
use layout::blocks::wipe;
use layout::header::Header;
use layout::shape::Shape;
use layout::stripes::place;
use parity_log::log::Log;

// The bytes of the most columns that there are, and of a cell.
const ROW: usize = 8192;

const CELL: usize = 512;

// Leaves the row of a stripe in the first bytes of `row`, or changes nothing: where the array is not open, there is no such stripe,
// more of its columns are lost than there are checks, or fewer than 8,192 bytes are given for the row or other than 512 for a cell.
pub fn row_of_stripe<B: Backplane, C: Code>(
    plane: &mut B,
    header: &Header,
    stripe: u32,
    row: &mut [u8],
    cell: &mut [u8],
) -> Result<(), RowError>
    ensures answer { result ≡ (if has_row (coding_on C.Code (B.Backplane.view plane.old)) (B.Backplane.view plane.old) header.now stripe (length row.old) (length cell.old) then Ok tt else Err NoRow) }
    ensures row { OnOk result (HoldsRow (coding_on C.Code (B.Backplane.view plane.old)) (B.Backplane.view plane.old) header.now stripe row.new) }
    ensures refused { OnErr result (row.new ≡ row.old) }
    ensures kept { B.Backplane.view plane.new ≡ B.Backplane.view plane.old }
{
    let Ok(cell) = <&mut [u8; CELL]>::try_from(cell) else {
        return Err(RowError::NoRow);
    };
    let shape = row_shape::<B, C>(plane, header, stripe, row.len()).ok_or(RowError::NoRow)?;
    let stripe = Stripe {
        header,
        columns: shape.slots,
        number: stripe,
    };
    fill_row::<B, C>(plane, shape, stripe, row, cell)?;
    Ok(())
}

// Adds the shares of the pending deltas of a stripe to one column of its row, if that is a check column: what its slot is to hold of the stripe.
// Changes nothing where the array is not open, or the bytes given do not hold a row and a cell.
pub fn add_pending_to_column<B: Backplane, C: Code>(
    plane: &mut B,
    header: &Header,
    stripe: u32,
    column: u8,
    row: &mut [u8],
    cell: &mut [u8],
) -> Result<(), RowError>
    ensures answer { result ≡ (if has_debt (coding_on C.Code (B.Backplane.view plane.old)) (B.Backplane.view plane.old) header.now (length row.old) (length cell.old) then Ok tt else Err NoRow) }
    ensures settled { OnOk result (Settled (coding_on C.Code (B.Backplane.view plane.old)) (B.Backplane.view plane.old) header.now stripe column row.old row.new) }
    ensures refused { OnErr result (row.new ≡ row.old) }
    ensures kept { B.Backplane.view plane.new ≡ B.Backplane.view plane.old }
{
    let shape = open_shape::<B, C>(plane, header).ok_or(RowError::NoRow)?;
    if row.len() < ROW {
        return Err(RowError::NoRow);
    }
    let Ok(cell) = <&mut [u8; CELL]>::try_from(cell) else {
        return Err(RowError::NoRow);
    };
    add_pending_only::<B, C>(plane, shape, header, stripe, column, row, cell)?;
    Ok(())
}

// The shape of an array with this code, if the power is on, the sizes are within the limits, and the header fits them.
fn open_shape<B: Backplane, C: Code>(plane: &B, header: &Header) -> Option<Shape>
    ensures value { result ≡ open_shape (coding_on C.Code (B.Backplane.view plane.now)) (B.Backplane.view plane.now) header.now }
    ensures fits { IfSome result (λ sh. OpenFits C.Code.ROWS (B.Backplane.view plane.now) header.now sh) }
{
    if !plane.power() {
        return None;
    }
    let shape = Shape::of(C::NUMBER, C::ROWS as u32, plane.sizes())?;
    header.fits(&shape).then_some(shape)
}

// The same, if there is such a stripe, no more of its columns are lost than there are checks, and so many bytes hold its row.
fn row_shape<B: Backplane, C: Code>(
    plane: &B,
    header: &Header,
    stripe: u32,
    bytes: usize,
) -> Option<Shape>
    ensures value { is_some result ≡ has_row (coding_on C.Code (B.Backplane.view plane.now)) (B.Backplane.view plane.now) header.now stripe bytes 512 }
    ensures fits { IfSome result (λ sh. OpenFits C.Code.ROWS (B.Backplane.view plane.now) header.now sh × (stripe < (B.Backplane.view plane.now).blocks) × (missing sh.slots (B.Backplane.view plane.now).live (good_of header.now) stripe ≤ C.Code.ROWS) × (8192 ≤ bytes)) }
{
    let shape = open_shape::<B, C>(plane, header)?;
    let row = Stripe {
        header,
        columns: shape.slots,
        number: stripe,
    };
    let is_there = (stripe < shape.blocks) & (has_room(bytes) & is_repairable::<B, C>(plane, row));
    is_there.then_some(shape)
}

fn has_room(bytes: usize) -> bool
    ensures { result ≡ has_room bytes 512 }
{
    bytes >= ROW
}

// Whether no more columns of a stripe are lost than there are checks.
fn is_repairable<B: Backplane, C: Code>(plane: &B, stripe: Stripe) -> bool
    ensures { result ≡ not (nat_lt C.Code.ROWS (missing stripe.entry.columns (B.Backplane.view plane.now).live (good_of stripe.entry.header.now) stripe.entry.number)) }
{
    stripe.count_lost(plane) as usize <= C::ROWS
}

// Reads the columns of a stripe that is not past repair, adds the pending shares, and solves the lost columns.
// The row is a slice: tried as 8,192 bytes by type, and the proof of the answers over the lent chunk did not close.
fn fill_row<B: Backplane, C: Code>(
    plane: &mut B,
    shape: Shape,
    stripe: Stripe,
    row: &mut [u8],
    cell: &mut [u8; 512],
) -> Result<(), BackplaneFault>
    requires fits { OpenFits C.Code.ROWS (B.Backplane.view plane.old) stripe.header.now shape }
    requires columns { stripe.columns ≡ shape.slots }
    requires stripe { stripe.number < (B.Backplane.view plane.old).blocks }
    requires repairable { missing shape.slots (B.Backplane.view plane.old).live (good_of stripe.header.now) stripe.number ≤ C.Code.ROWS }
    requires room { 8192 ≤ length row.old }
    ensures done { result ≡ Ok tt }
    ensures row { HoldsRow (coding C.Code shape.columns) (B.Backplane.view plane.old) stripe.entry.header.now stripe.entry.number row.new }
    ensures kept { B.Backplane.view plane.new ≡ B.Backplane.view plane.old }
{
    let lost = stripe.lost_columns(plane);
    read_columns(plane, stripe, &lost, row)?;
    let pending = Pending {
        log: Log {
            columns: shape.columns,
            used: stripe.header.used,
        },
        stripe: stripe.number,
        leave: &lost,
    };
    pending.add_to_row::<B, C>(plane, row, cell)?;
    solve_row::<C>(shape.columns as usize, row, &lost[0..shape.slots as usize]).unwrap();
    Ok(())
}

// Reads the good columns of a stripe into the row, and wipes the lost ones.
fn read_columns<B: Backplane>(
    plane: &mut B,
    stripe: Stripe,
    lost: &[bool; 16],
    row: &mut [u8],
) -> Result<(), BackplaneFault>
    requires fits { StripeFits (B.Backplane.view plane.old) stripe.columns stripe.number }
    requires live { (c : ℕ) → c < stripe.columns → flagged lost.now c ≡ false → (B.Backplane.view plane.old).live (slot_of stripe.columns stripe.number c) ≡ true }
    requires room { 8192 ≤ length row.old }
    ensures done { result ≡ Ok tt }
    ensures each { (c : ℕ) → c < stripe.entry.columns → column_in row.new c ≡ (if flagged lost.now c then zeros else (B.Backplane.view plane.old).block (slot_of stripe.entry.columns stripe.entry.number c) stripe.entry.number) }
    ensures kept { B.Backplane.view plane.new ≡ B.Backplane.view plane.old }
{
    for (c, is_lost) in lost[..stripe.columns as usize].iter().enumerate() {
        if *is_lost {
            wipe_column(c, row);
        } else {
            read_column(plane, stripe, c as u8, row)?;
        }
    }
    Ok(())
}

fn wipe_column(column: usize, row: &mut [u8])
    requires { 512 * column + 512 ≤ length row.old }
    ensures { ColumnPut column zeros row.old row.new }
{
    let at = 512 * column;
    wipe(&mut row[at..at + 512]);
}

// Reads the block of a good column into the row.
fn read_column<B: Backplane>(
    plane: &mut B,
    stripe: Stripe,
    column: u8,
    row: &mut [u8],
) -> Result<(), BackplaneFault>
    requires fits { StripeFits (B.Backplane.view plane.old) stripe.columns stripe.number }
    requires column { column < stripe.columns }
    requires live { (B.Backplane.view plane.old).live (slot_of stripe.columns stripe.number column) ≡ true }
    requires room { 8192 ≤ length row.old }
    ensures done { result ≡ Ok tt }
    ensures column { ColumnPut column ((B.Backplane.view plane.old).block (slot_of stripe.entry.columns stripe.entry.number column) stripe.entry.number) row.old row.new }
    ensures kept { B.Backplane.view plane.new ≡ B.Backplane.view plane.old }
{
    let (slot, block) = place(stripe.columns, stripe.number, column);
    let at = 512 * column as usize;
    plane.read(Place::OfBlock(slot, block), &mut row[at..at + 512])?;
    Ok(())
}

// Adds the shares of the pending deltas of a stripe to one column.
fn add_pending_only<B: Backplane, C: Code>(
    plane: &mut B,
    shape: Shape,
    header: &Header,
    stripe: u32,
    column: u8,
    row: &mut [u8],
    cell: &mut [u8; 512],
) -> Result<(), BackplaneFault>
    requires fits { OpenFits C.Code.ROWS (B.Backplane.view plane.old) header.now shape }
    requires room { 8192 ≤ length row.old }
    ensures done { result ≡ Ok tt }
    ensures each { Settled (coding C.Code shape.columns) (B.Backplane.view plane.old) header.now stripe column row.old row.new }
    ensures kept { B.Backplane.view plane.new ≡ B.Backplane.view plane.old }
{
    let leave = all_but(column);
    let pending = Pending {
        log: Log {
            columns: shape.columns,
            used: header.used,
        },
        stripe,
        leave: &leave,
    };
    pending.add_to_row::<B, C>(plane, row, cell)
}

// A flag for each of sixteen columns but this one.
fn all_but(column: u8) -> [bool; 16]
    ensures { (c : ℕ) → c < 16 → flagged result c ≡ not (c == column) }
{
    std::array::from_fn(|c| c != usize::from(column))
}
