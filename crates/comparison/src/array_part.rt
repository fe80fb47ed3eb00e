// Lists of pseudo-random calls, made on the array over a fuse over a memory backplane and on the reference, and compared call by call: the answer, its
// details and layer, the block read, every block of a live disk and every cell.
use crate::reference::calls::{Layer, Reference, Refusal};
use crate::reference::checks::{Block, ZEROS};
use crate::reference::device::Device;
use crate::source::Source;
use array::array::Array;
use backplane::Backplane;
use backplane::fault::Place;
use backplane::sizes::Sizes;
use codes::Code;
use faults::fault::ArrayFault;
use faults::told;
use faults::told::Told;
use fuse::Fuse;
use memory::Memory;
use std::alloc::{AllocError, Global};
use std::fmt;

// What the comparison went through.
#[derive(Clone, Copy, Default)]
pub struct CallTally {
    lists: u64,
    calls: u64,
    done: u64,
    // refusals by number
    refused: [u64; 21],
    // answers, details, layers, blocks or cells that differ from the reference
    different: u64,
}

impl CallTally {
    fn count(&mut self, said: &Said) {
        self.calls = self.calls.saturating_add(1);
        match *said {
            Said::Refused { number, .. } => {
                if let Some(times) = self.refused.get_mut(number as usize) {
                    *times = times.saturating_add(1);
                }
            }
            _ => self.done = self.done.saturating_add(1),
        }
    }

    fn differ(&mut self, differs: bool) {
        self.different = self.different.saturating_add(u64::from(differs));
    }
}

impl fmt::Display for CallTally {
    fn fmt<W: fmt::Write>(&self, f: &mut fmt::Formatter<W>) -> fmt::Result {
        let CallTally {
            lists,
            calls,
            done,
            refused,
            different,
        } = *self;
        writeln!(
            f,
            "  lists of calls: {lists}, calls in all: {calls}, done: {done}"
        )?;
        for (n, times) in refused.iter().enumerate() {
            if *times > 0 {
                writeln!(f, "  refused by {n}: {times}")?;
            }
        }
        write!(
            f,
            "  answers, details, layers, blocks, cells or work areas that differ from the reference: {different}"
        )
    }
}

// What a call said.
#[derive(Clone, Copy, PartialEq)]
enum Said {
    Done,
    Number(u64),
    Read(Block),
    // the number and the two details
    Refused {
        number: u32,
        a: u64,
        b: u64,
        layer: Layer,
    },
}

impl From<()> for Said {
    fn from(_done: ()) -> Said {
        Said::Done
    }
}

impl From<u32> for Said {
    fn from(n: u32) -> Said {
        Said::Number(u64::from(n))
    }
}

impl From<usize> for Said {
    fn from(n: usize) -> Said {
        Said::Number(n as u64)
    }
}

impl From<Block> for Said {
    fn from(x: Block) -> Said {
        Said::Read(x)
    }
}

impl From<ArrayFault> for Said {
    fn from(e: ArrayFault) -> Said {
        let (a, b) = e.details();
        Said::Refused {
            number: e.number(),
            a: u64::from(a),
            b: u64::from(b),
            layer: e.layer().into(),
        }
    }
}

impl From<Refusal> for Said {
    fn from(e: Refusal) -> Said {
        let (a, b) = e.details();
        Said::Refused {
            number: e.number(),
            a: a as u64,
            b: b as u64,
            layer: e.layer(),
        }
    }
}

impl From<told::Layer> for Layer {
    fn from(layer: told::Layer) -> Layer {
        match layer {
            told::Layer::Backplane => Layer::Backplane,
            told::Layer::Log => Layer::Log,
            told::Layer::Stripe => Layer::Stripe,
            told::Layer::Array => Layer::Array,
        }
    }
}

// What an answer or a refusal says, of the array or of the reference.
fn told_as<T: Into<Said>, E: Into<Said>>(r: Result<T, E>) -> Said {
    match r {
        Ok(x) => x.into(),
        Err(e) => e.into(),
    }
}

// One call with its arguments.
#[derive(Clone, Copy)]
enum Deed {
    Write(u32, u8, usize),
    Read(u32, usize),
    Fold(u32),
    Clear,
    Pull(u32),
    Fit(u32),
    Rebuild(u32),
    Start,
    Format,
}

// A pseudo-random call: mostly one that makes sense, now and then one just outside.
fn next_deed(source: &mut Source, sizes: Sizes, k: u32) -> Deed {
    let block = source.below(sizes.blocks.saturating_mul(k).saturating_add(1));
    let stripe = source.below(sizes.blocks.saturating_add(1));
    let slot = source.below(sizes.slots.saturating_add(1));
    match source.below(40) {
        0..=11 => Deed::Write(block, source.byte(), 512),
        12..=18 => Deed::Read(block, 512),
        19..=22 => Deed::Fold(stripe),
        23..=24 => Deed::Clear,
        25..=26 => Deed::Pull(slot),
        27..=29 => Deed::Fit(slot),
        30..=34 => Deed::Rebuild(slot),
        35 => Deed::Write(block, source.byte(), 511),
        36 => Deed::Read(block, 513),
        37 if source.below(6) == 0 => Deed::Format,
        _ => Deed::Start,
    }
}

// The bytes of a block to write: no two places alike.
fn filled(seed: u8) -> [u8; 513] {
    let mut x = [0u8; 513];
    let mut b = seed;
    for place in x.iter_mut() {
        *place = b;
        b = b.wrapping_mul(5).wrapping_add(17);
    }
    x
}

fn read_array<B: Backplane, C: Code>(
    array: &mut Array<B, C>,
    block: u32,
    length: usize,
    work: &mut [u8],
) -> Result<Block, ArrayFault> {
    let mut into = [0u8; 513];
    array.read(block, &mut into[..length.min(513)], work)?;
    Ok(into.first_chunk().copied().unwrap_or(ZEROS))
}

fn on_array<B: Backplane, C: Code>(array: &mut Array<B, C>, deed: Deed, work: &mut [u8]) -> Said {
    match deed {
        Deed::Write(block, seed, length) => told_as(array.write(
            block,
            &filled(seed)[..length.min(513)],
            work,
        )),
        Deed::Read(block, length) => told_as(read_array(array, block, length, work)),
        Deed::Fold(stripe) => told_as(array.fold(stripe, work)),
        Deed::Clear => told_as(array.clear(work)),
        Deed::Pull(slot) => told_as(array.pull(slot)),
        Deed::Fit(slot) => told_as(array.fit(slot, work)),
        Deed::Rebuild(slot) => told_as(array.rebuild(slot, work)),
        Deed::Start => told_as(array.start(work)),
        Deed::Format => told_as(array.format(work)),
    }
}

fn on_reference(reference: &mut Reference, deed: Deed, work: usize) -> Said {
    match deed {
        Deed::Write(block, seed, length) => told_as(reference.write(
            work,
            block as usize,
            &filled(seed)[..length.min(513)],
        )),
        Deed::Read(block, length) => told_as(reference.read(work, block as usize, length)),
        Deed::Fold(stripe) => told_as(reference.fold(work, stripe as usize)),
        Deed::Clear => told_as(reference.clear(work)),
        Deed::Pull(slot) => told_as(reference.pull(slot as usize)),
        Deed::Fit(slot) => told_as(reference.fit(work, slot as usize)),
        Deed::Rebuild(slot) => told_as(reference.rebuild(work, slot as usize)),
        Deed::Start => told_as(reference.start(work)),
        Deed::Format => told_as(reference.format(work)),
    }
}

// Whether the bytes are these blocks, one after the other.
fn same_blocks(bytes: &[u8], blocks: &[Block]) -> bool {
    bytes.len() / 512 == blocks.len()
        && bytes
            .chunks(512)
            .zip(blocks.iter())
            .all(|(part, x)| part == x.as_slice())
}

// Whether the lent memory holds what the reference does, but for the disks that are out.
fn same_bytes(bytes: &[u8], device: &Device) -> bool {
    let disk = device.blocks.saturating_mul(512);
    let Some((disks, log)) = bytes.split_at_checked(disk.saturating_mul(device.slots())) else {
        return false;
    };
    same_blocks(log, device.log.as_slice())
        && disks.chunks(disk.max(1)).zip(device.disks.iter()).all(|(part, x)| !x.live
            || same_blocks(part, x.blocks.as_slice()))
}

// The array and the reference, side by side, and what they went through.
#[derive(Drop)]
struct Pair<'a, C: Code + Drop> {
    array: Array<Fuse<Memory<'a>>, C>,
    reference: Reference,
    tally: CallTally,
}

impl<C: Code + Drop> Pair<'_, C> {
    // Sets the fuse of both; more than 512 new bytes are refused by both.
    fn set_fuse(&mut self, source: &mut Source) {
        let passes = source.below(14);
        let fresh = source.pick(&[0, 1, 511, 512, 513, 256]);
        let taken = self.array.backplane.set(passes, fresh).is_ok();
        let expected = self.reference.device.set_fuse(passes, fresh).is_ok();
        self.tally.differ(taken != expected);
    }

    // One call on both, compared with all that it left.
    fn make(&mut self, deed: Deed, work: &mut [u8]) {
        let said = on_array(&mut self.array, deed, work);
        let told = on_reference(&mut self.reference, deed, work.len());
        let bytes = self.array.backplane.below().bytes();
        let same = same_bytes(bytes, &self.reference.device);
        self.tally.count(&said);
        self.tally.differ(said != told);
        self.tally
            .differ(self.array.started() != self.reference.started);
        self.tally.differ(!same);
    }

    fn step(&mut self, deed: Deed, work: &mut [u8; 10240]) {
        self.make(deed, work);
        self.tally.differ(work.iter().any(|b| *b != 0));
    }

    // The same with a work area that is a byte too short: it is refused, and the work area is left as it was.
    fn step_short(&mut self, deed: Deed) {
        let mut short = [7u8; 10239];
        self.make(deed, &mut short);
        self.tally.differ(short.iter().any(|b| *b != 7));
    }

    // Changes one byte of a cell of both, past array and fuse, as a fault of the hardware might. Only where no fuse is set, so that both store it.
    fn damage(&mut self, source: &mut Source) {
        if self.array.backplane.setting().is_some() || !self.reference.device.on {
            return;
        }
        let cell = source.below(self.reference.device.cells().min(12) as u32);
        let mut x = self.reference.device.cell(cell as usize);
        let reach = match source.below(3) {
            0 => 8,
            1 => 24,
            _ => 512,
        };
        let place = source.below(reach) as usize;
        if let Some(b) = x.get_mut(place) {
            *b = source.byte() % 4;
        }
        if self.array.backplane.store(Place::OfCell(cell), &x).is_ok() {
            self.reference.device.set_cell(cell as usize, x);
        }
    }
}

// How a list of calls goes, and on what array.
#[derive(Clone, Copy)]
struct Plan {
    sizes: Sizes,
    seed: u64,
    length: usize,
    // whether cells are damaged now and then
    damaged: bool,
}

fn compare_list<C: Code + Drop>(
    heap: Global,
    code: C,
    plan: Plan,
    tally: CallTally,
) -> Result<CallTally, AllocError> {
    let sizes = plan.sizes;
    let Sizes {
        slots,
        blocks,
        cells,
    } = sizes;
    let k = slots.saturating_sub((C::check_rows() % 65536) as u32);
    let places = slots.saturating_mul(blocks).saturating_add(cells) as usize;
    let mut bytes = vec![in heap; 0u8; places.saturating_mul(512)]?;
    let mut work = [7u8; 10240];
    let device = Device::new(heap, slots as usize, blocks as usize, cells as usize)?;
    let memory = Memory::new(bytes.as_mut_slice(), sizes);
    let mut both = Pair {
        array: Array::new(Fuse::new(memory), code),
        reference: Reference::new(device, C::check_rows()),
        tally,
    };
    let mut source = Source::new(plan.seed);
    both.tally.lists = both.tally.lists.saturating_add(1);
    both.step(Deed::Format, &mut work);
    for _ in 0..plan.length {
        if source.below(7) == 0 {
            both.set_fuse(&mut source);
        }
        if plan.damaged && source.below(9) == 0 {
            both.damage(&mut source);
        }
        let deed = next_deed(&mut source, sizes, k);
        if source.below(25) == 0 {
            both.step_short(deed);
        } else {
            both.step(deed, &mut work);
        }
    }
    Ok(both.tally)
}

// Lists of calls on an array of these sizes: two of three as they come, one with damaged cells.
pub(crate) fn compare_lists<C: Code + Drop + Copy>(
    heap: Global,
    code: C,
    sizes: Sizes,
    lists: u64,
    before: CallTally,
) -> Result<CallTally, AllocError> {
    let mut tally = before;
    for seed in 0..lists {
        let plan = Plan {
            sizes,
            seed,
            length: 120,
            damaged: seed % 3 == 2,
        };
        tally = compare_list(heap, code, plan, tally)?;
    }
    Ok(tally)
}
