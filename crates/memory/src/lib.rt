// A backplane that lies in lent bytes. It never cuts a store.
#![tactic(auto)]

ghost use Rattle.std.specs.Prelude.{◌≡◌, ◌+◌, ◌*◌, ◌≤◌, true, [], length, replicate};
ghost use Rattle.backplane.specs.Plane.{pulled, switched};
ghost use Rattle.backplane.specs.Stores.{to_place};
ghost use Rattle.backplane.specs.Meaning.{Stored, Read, Fitted};
ghost use Rattle.memory.specs.Lent.{with_part, fits_memory};
ghost use Rattle.memory.specs.Held.{held_by, in_force, view_of, powered, Placed, StoredIn, ReadFrom, FittedIn, pulled_in};
ghost use Rattle.memory.specs.Faults.{number, judged};

use backplane::Backplane;
use backplane::bytes::below_256;
use backplane::fault::{BackplaneFault, Place};
use backplane::sizes::Sizes;
use std::error::Error;
use std::fmt;

// What a disk holds that was just fitted.
const FRESH: u8 = 229;

#[derive(Clone, Copy, Debug, PartialEq, Eq)]
pub enum MemoryFault {
    // the sizes are outside the limits, or other bytes are lent than they ask for
    Misfit,
}

impl MemoryFault {
    pub fn number(self) -> u32
        ensures { result ≡ number self }
    {
        match self {
            MemoryFault::Misfit => 6,
        }
    }
}

impl fmt::Display for MemoryFault {
    fn fmt<W: fmt::Write>(&self, f: &mut fmt::Formatter<W>) -> fmt::Result {
        match *self {
            MemoryFault::Misfit => write!(f, "memory: the sizes do not fit the lent bytes"),
        }
    }
}

impl Error for MemoryFault {}

// `given` stands as it was asked for: `in_force` says which sizes count.
#[derive(Drop)]
pub struct Memory<'a> {
    bytes: &'a mut [u8],
    given: Sizes,
    on: bool,
    live: [bool; 16],
}

// The byte at which a block begins that lies `column` blocks into row `row`.
fn offset(row: u32, width: u32, column: u32) -> usize
    requires { row ≤ 16 }
    ensures { result ≡ 512 * (row * width + column) }
{
    512 * (row as usize * width as usize + column as usize)
}

// Whether a memory backplane of these sizes can be made in so many bytes.
pub fn judge(sizes: Sizes, length: usize) -> Result<(), MemoryFault>
    ensures { result ≡ judged (fits_memory sizes.slots sizes.blocks sizes.cells length) }
{
    let Sizes {
        slots,
        blocks,
        cells,
    } = sizes;
    if (3..=16).contains(&slots)
        && (1..=65536).contains(&blocks)
        && (8..=4096).contains(&cells)
        && length == offset(slots, blocks, cells)
    {
        Ok(())
    } else {
        Err(MemoryFault::Misfit)
    }
}

fn copy(into: &mut [u8], from: &[u8])
    requires { length into.old ≡ length from.now }
    ensures { into.new ≡ from.now }
{
    into.copy_from_slice(from);
}

// Stores a block from byte `at` on; every other byte stays.
fn store_at(bytes: &mut [u8], at: usize, from: &[u8])
    requires at_in_bounds { at + 512 ≤ length bytes.old }
    requires from_len { length from.now ≡ 512 }
    ensures { bytes.new ≡ with_part at 512 from.now bytes.old }
{
    copy(&mut bytes[at..at + 512], from);
}

impl<'a> Memory<'a> {
    // Powered, with every slot live. Where the sizes do not fit the lent bytes, all sizes are 0.
    pub fn new(bytes: &'a mut [u8], sizes: Sizes) -> Memory<'a>
        ensures { held_by result ≡ record { bytes = bytes.entry.now; slots = sizes.slots; blocks = sizes.blocks; cells = sizes.cells; on = true; live = replicate 16 true } }
    {
        Memory {
            bytes,
            given: sizes,
            on: true,
            live: [true; 16],
        }
    }
}

impl Memory<'_> {
    // The lent bytes.
    pub fn bytes(&self) -> &[u8]
        ensures { result.now ≡ (held_by self.now).bytes }
    {
        &self.bytes[..]
    }

    // The sizes that count: those given, or 0 throughout.
    fn in_force(&self) -> Sizes
        ensures slots { result.slots ≡ in_force (held_by self.now) self.now.given.slots }
        ensures blocks { result.blocks ≡ in_force (held_by self.now) self.now.given.blocks }
        ensures cells { result.cells ≡ in_force (held_by self.now) self.now.given.cells }
        ensures room { 512 * (result.slots * result.blocks + result.cells) ≤ length (held_by self.now).bytes }
        ensures few { result.slots ≤ 16 }
    {
        match judge(self.given, self.bytes.len()) {
            Ok(()) => self.given,
            Err(_) => Sizes {
                slots: 0,
                blocks: 0,
                cells: 0,
            },
        }
    }

    // The first byte of a place, or why `bytes` cannot be stored or read there.
    fn place_of(&self, at: Place, bytes: &[u8]) -> Result<usize, BackplaneFault>
        ensures { Placed (to_place at bytes.now) (held_by self.now) result }
    {
        let Sizes {
            slots,
            blocks,
            cells,
        } = self.in_force();
        if !self.on {
            return Err(BackplaneFault::Off);
        }
        if bytes.len() != 512 {
            return Err(BackplaneFault::NoPlace);
        }
        match at {
            Place::OfBlock(slot, block) if slot < slots && block < blocks => {
                if !self.live[slot as usize] {
                    return Err(BackplaneFault::Dead);
                }
                Ok(offset(slot, blocks, block))
            }
            Place::OfCell(cell) if cell < cells => Ok(offset(slots, blocks, cell)),
            _ => Err(BackplaneFault::NoPlace),
        }
    }

    fn load(&self, at: Place, into: &mut [u8]) -> Result<(), BackplaneFault>
        ensures { ReadFrom (to_place at into.old) (held_by self.now) result into.new }
    {
        let first = self.place_of(at, into)?;
        into.copy_from_slice(&self.bytes[first..first + 512]);
        Ok(())
    }

    // Stores 512 bytes at a place in the lent bytes, and changes nothing else.
    fn put(&mut self, at: Place, from: &[u8]) -> Result<(), BackplaneFault>
        ensures { StoredIn (to_place at from.now) (held_by self.old) result (held_by self.new) }
    {
        let first = self.place_of(at, from)?;
        store_at(self.bytes, first, from);
        Ok(())
    }

    // A disk whose every byte is 229 in a dead slot.
    fn fit_disk(&mut self, slot: u32) -> Result<(), BackplaneFault>
        ensures { FittedIn slot (held_by self.old) result (held_by self.new) }
    {
        let Sizes { slots, blocks, .. } = self.in_force();
        if !self.on {
            return Err(BackplaneFault::Off);
        }
        if slot >= slots {
            return Err(BackplaneFault::NoPlace);
        }
        if self.live[slot as usize] {
            return Err(BackplaneFault::Live);
        }
        let first = offset(slot, blocks, 0);
        let count = 512 * blocks as usize;
        self.bytes[first..first + count].fill(FRESH);
        self.live[slot as usize] = true;
        Ok(())
    }

    // The slot is dead; its bytes stay in the lent memory, and no read reaches them.
    fn pull_disk(&mut self, slot: u32)
        ensures { held_by self.new ≡ pulled_in slot (held_by self.old) }
    {
        if slot < self.in_force().slots {
            self.live[slot as usize] = false;
        }
    }
}

impl Backplane for Memory<'_> {
    ghost view = { λ m. view_of (held_by m) };

    fn slots(&self) -> u32 {
        // what a field lends is not known to be bytes unless it is read
        below_256(self.bytes);
        self.in_force().slots
    }

    fn blocks(&self) -> u32 {
        self.in_force().blocks
    }

    fn cells(&self) -> u32 {
        self.in_force().cells
    }

    fn power(&self) -> bool {
        self.on
    }

    fn live(&self, slot: u32) -> bool {
        slot < self.in_force().slots && self.live[slot as usize]
    }

    fn read(&mut self, at: Place, into: &mut [u8]) -> Result<(), BackplaneFault>
        ensures meaning { Read (to_place at into.old) (view_of (held_by self.old)) result (view_of (held_by self.new)) into.new }
        ensures exact { held_by self.new ≡ held_by self.old }
    {
        self.load(at, into)
    }

    fn store(&mut self, at: Place, bytes: &[u8]) -> Result<(), BackplaneFault>
        ensures meaning { Stored (to_place at bytes.now) (view_of (held_by self.old)) result (view_of (held_by self.new)) }
        ensures exact { StoredIn (to_place at bytes.now) (held_by self.old) result (held_by self.new) }
    {
        self.put(at, bytes)
    }

    fn pull(&mut self, slot: u32)
        ensures meaning { view_of (held_by self.new) ≡ pulled [] slot (view_of (held_by self.old)) }
        ensures exact { held_by self.new ≡ pulled_in slot (held_by self.old) }
    {
        self.pull_disk(slot);
    }

    fn fit(&mut self, slot: u32) -> Result<(), BackplaneFault>
        ensures meaning { Fitted slot (view_of (held_by self.old)) result (view_of (held_by self.new)) }
        ensures exact { FittedIn slot (held_by self.old) result (held_by self.new) }
    {
        self.fit_disk(slot)
    }

    fn power_up(&mut self)
        ensures meaning { view_of (held_by self.new) ≡ switched true (view_of (held_by self.old)) }
        ensures exact { held_by self.new ≡ powered (held_by self.old) }
    {
        self.on = true;
    }
}
