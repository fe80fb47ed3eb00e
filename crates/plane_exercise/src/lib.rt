// One exercise for every backplane: each operation at its edges, with the answers counted.
#![tactic(auto)]

ghost use Rattle.std.specs.Prelude.{◌≡◌, ◌+◌, ◌<◌, length};
ghost use Rattle.plane_exercise.specs.Tallies.{total, noted, SameSizes, Tried};

use backplane::Backplane;
use backplane::fault::{BackplaneFault, Place};
use backplane::sizes::Sizes;
use std::fmt;

// How often each answer was given.
#[derive(Clone, Copy, Debug, Default, PartialEq, Eq)]
pub struct Tally {
    pub done: u32,
    pub off: u32,
    pub no_place: u32,
    pub dead: u32,
    pub live: u32,
    pub cut: u32,
}

impl Tally {
    pub fn new() -> Tally
        ensures { total result ≡ 0 }
    {
        Tally::default()
    }

    // A count that is full stays. Each arm adds by itself: one counter chosen by `&mut` was tried, and its proof did not close.
    fn note(&mut self, answer: &Result<(), BackplaneFault>)
        ensures { total self.old < 4294967295 → self.new ≡ noted answer.now self.old }
    {
        match answer {
            Ok(()) => self.done = self.done.saturating_add(1),
            Err(BackplaneFault::Off) => self.off = self.off.saturating_add(1),
            Err(BackplaneFault::NoPlace) => self.no_place = self.no_place.saturating_add(1),
            Err(BackplaneFault::Dead) => self.dead = self.dead.saturating_add(1),
            Err(BackplaneFault::Live) => self.live = self.live.saturating_add(1),
            Err(BackplaneFault::Cut(_)) => self.cut = self.cut.saturating_add(1),
        }
    }
}

impl fmt::Display for Tally {
    fn fmt<W: fmt::Write>(&self, f: &mut fmt::Formatter<W>) -> fmt::Result {
        let Tally {
            done,
            off,
            no_place,
            dead,
            live,
            cut,
        } = *self;
        write!(
            f,
            "done {done}, off {off}, no place {no_place}, dead {dead}, live {live}, cut {cut}"
        )
    }
}

// An operation that is answered. A store and a read are given so many bytes.
#[derive(Clone, Copy)]
enum Step {
    Store(Place, usize),
    Read(Place, usize),
    Fit(u32),
}

impl Step {
    // The byte that is stored: another in cells than in blocks.
    fn byte(self) -> u8 {
        match self {
            Step::Store(Place::OfCell(_), _) => 90,
            _ => 165,
        }
    }

    fn try_on<B: Backplane>(self, plane: &mut B) -> Result<(), BackplaneFault>
        ensures { SameSizes (B.Backplane.view plane.old) (B.Backplane.view plane.new) }
    {
        let mut bytes = [self.byte(); 513];
        match self {
            Step::Store(at, length) => plane.store(at, &bytes[..length.min(513)]),
            Step::Read(at, length) => plane.read(at, &mut bytes[..length.min(513)]),
            Step::Fit(slot) => plane.fit(slot),
        }
    }
}

// At the first block, the last, one past the last slot and one past the last block; at the first cell, the last and one past it; and with one byte too few
// and one too many.
fn edges(sizes: Sizes) -> [Step; 22] {
    let Sizes {
        slots,
        blocks,
        cells,
    } = sizes;
    let (block, cell) = (Place::OfBlock(0, 0), Place::OfCell(0));
    let last_block = Place::OfBlock(slots.saturating_sub(1), blocks.saturating_sub(1));
    let last_cell = Place::OfCell(cells.saturating_sub(1));
    [
        Step::Store(block, 512),
        Step::Store(last_block, 512),
        Step::Store(Place::OfBlock(slots, 0), 512),
        Step::Store(Place::OfBlock(0, blocks), 512),
        Step::Read(block, 512),
        Step::Read(last_block, 512),
        Step::Read(Place::OfBlock(slots, 0), 512),
        Step::Read(Place::OfBlock(0, blocks), 512),
        Step::Store(cell, 512),
        Step::Store(last_cell, 512),
        Step::Store(Place::OfCell(cells), 512),
        Step::Read(cell, 512),
        Step::Read(last_cell, 512),
        Step::Read(Place::OfCell(cells), 512),
        Step::Store(block, 511),
        Step::Store(block, 513),
        Step::Read(block, 511),
        Step::Read(block, 513),
        Step::Store(cell, 511),
        Step::Store(cell, 513),
        Step::Read(cell, 511),
        Step::Read(cell, 513),
    ]
}

// Where the first disk was pulled: its blocks are refused until a disk is fitted.
fn pulled(slots: u32) -> [Step; 7] {
    let block = Place::OfBlock(0, 0);
    [
        Step::Store(block, 512),
        Step::Read(block, 512),
        Step::Store(block, 511),
        Step::Fit(slots),
        Step::Fit(1),
        Step::Fit(0),
        Step::Read(block, 512),
    ]
}

fn try_all<B: Backplane>(plane: &mut B, steps: &[Step], tally: &mut Tally)
    ensures tried { total tally.old + length steps.now < 4294967296 → Tried (length steps.now) tally.old tally.new (B.Backplane.view plane.old) (B.Backplane.view plane.new) }
    ensures sizes { SameSizes (B.Backplane.view plane.old) (B.Backplane.view plane.new) }
{
    for step in steps {
        let answer = step.try_on(plane);
        tally.note(&answer);
    }
}

fn round<B: Backplane>(plane: &mut B, tally: &mut Tally)
    ensures tried { total tally.old + 29 < 4294967296 → Tried 29 tally.old tally.new (B.Backplane.view plane.old) (B.Backplane.view plane.new) }
    ensures sizes { SameSizes (B.Backplane.view plane.old) (B.Backplane.view plane.new) }
{
    let sizes = plane.sizes();
    try_all(plane, &edges(sizes), tally);
    plane.pull(sizes.slots);
    plane.pull(0);
    try_all(plane, &pulled(sizes.slots), tally);
}

// Every operation, with the power as it is found, and again after power up: 58 answers. The sizes stay.
pub fn exercise<B: Backplane>(plane: &mut B) -> Tally
    ensures answers { total result ≡ 58 }
    ensures sizes { SameSizes (B.Backplane.view plane.old) (B.Backplane.view plane.new) }
{
    let mut tally = Tally::new();
    round(plane, &mut tally);
    plane.power_up();
    round(plane, &mut tally);
    tally
}
