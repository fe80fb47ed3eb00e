// One recording through a week on an array: written, folded and cleared, two blocks replaced with the power cut inside a block store, a disk
// pulled, a new one rebuilt, and the recording compared with what it should be, byte by byte.
use crate::{DATA, STRIPE, checks, width};
use array::array::Array;
use backplane::sizes::Sizes;
use codes::Code;
use faults::told::Told;
use fuse::Fuse;
use memory::Memory;
use run::call::{Answer, Call, Outcome, RunFault};
use run::run::run;
use std::alloc::{AllocError, Global};
use std::fmt;

// The cells of the log.
const CELLS: u32 = 1024;

// Data columns as a block number counts them.
const COLUMNS: u32 = DATA as u32;

// Stripes that are written and folded before the log is cleared: their records have room in it.
const BATCH: u32 = 40;

// The blocks that are replaced on Wednesday, and the bytes that the cut inside the store of the second lets through.
const REPLACED: [u32; 2] = [1, 3];

const TORN: u32 = 256;

// The slot whose disk is pulled on Thursday.
const PULLED: u32 = 1;

// The number of a refusal by a cut, in whatever layer the store was.
const CUT: u32 = 20;

// What became of the week.
#[derive(Clone, Copy, Default)]
struct Week {
    stripes: u32,
    written: u64,
    folded: u64,
    refused: u64,
    // slot and block
    cut: Option<(u32, u32)>,
    read: u64,
    rebuilt: u32,
    // check blocks on the disks
    wrong: usize,
}

impl Week {
    fn note(&mut self, call: Call<'_>, answer: Answer, edited: &[u8]) {
        match (call, answer) {
            (_, Err(fault)) if fault.number() == CUT => {
                self.cut = Some(fault.details());
            }
            (_, Err(_)) => self.refused = self.refused.saturating_add(1),
            (Call::Write(_, _), Ok(Outcome::Done)) => self.written = self.written.saturating_add(1),
            (Call::Rebuild(_), Ok(Outcome::Number(n))) => self.rebuilt = n,
            (_, Ok(Outcome::Number(n))) => self.folded = self.folded.saturating_add(u64::from(n)),
            (Call::Read(number), Ok(Outcome::Block(block))) if is_block(edited, number, &block) => {
                self.read = self.read.saturating_add(1);
            }
            _ => {}
        }
    }
}

impl fmt::Display for Week {
    fn fmt<W: fmt::Write>(&self, f: &mut fmt::Formatter<W>) -> fmt::Result {
        let Week {
            stripes,
            written,
            folded,
            refused,
            cut,
            read,
            rebuilt,
            wrong,
        } = *self;
        let blocks = stripes.saturating_mul(COLUMNS);
        writeln!(f, "  Monday: {blocks} blocks written")?;
        writeln!(f, "  Tuesday: every stripe folded, the log cleared")?;
        match cut {
            Some((slot, block)) => writeln!(
                f,
                "  Wednesday: 2 blocks replaced; the power fails at slot {slot}, block {block}, with {TORN} bytes stored; start finishes it"
            )?,
            None => writeln!(f, "  Wednesday: 2 blocks replaced, and no power failed")?,
        }
        writeln!(
            f,
            "  Thursday: the disk in slot {PULLED} is pulled; every block is read"
        )?;
        writeln!(
            f,
            "  Friday: a new disk in slot {PULLED}, {rebuilt} of {stripes} stripes rebuilt"
        )?;
        writeln!(f, "  Saturday: every block is read again")?;
        writeln!(
            f,
            "  acknowledged writes: {written}, records folded: {folded}, refusals: {refused}"
        )?;
        writeln!(
            f,
            "  blocks read with one disk out and after the rebuild that are as they should be: {read}"
        )?;
        write!(
            f,
            "  check blocks that differ from a computation bit by bit: {wrong}"
        )
    }
}

// The block of that number, where there is a whole one: by its place, since the library's `nth` passes over all before it.
fn block_at(bytes: &[u8], number: usize) -> Option<&[u8]> {
    let at = number.saturating_mul(512);
    bytes.get(at..at.saturating_add(512))
}

// Whether this is the block of that number.
fn is_block(recording: &[u8], number: u32, block: &[u8; 512]) -> bool {
    block_at(recording, number as usize) == Some(block.as_slice())
}

// The recording filled up with zeros to whole stripes, one at least.
fn whole_stripes(heap: Global, recording: &[u8]) -> Result<Vec<u8>, AllocError> {
    let mut padded = Vec::new(heap);
    padded.extend_from_slice(recording)?;
    let stripes = recording.len().div_ceil(STRIPE).max(1);
    padded.resize(stripes.saturating_mul(STRIPE), 0)?;
    Ok(padded)
}

// The blocks that are replaced: every byte the other way round.
fn replace(padded: &mut [u8]) {
    for (number, block) in (0..u32::MAX).zip(padded.chunks_mut(512)) {
        if REPLACED.contains(&number) {
            for b in block.iter_mut() {
                *b = *b ^ 0xff;
            }
        }
    }
}

// The recording as it is written first, and with its blocks replaced: whole stripes, both.
#[derive(Clone, Copy)]
struct Tape<'a> {
    padded: &'a [u8],
    edited: &'a [u8],
    stripes: u32,
}

impl<'a> Tape<'a> {
    // The calls of the week.
    fn calls(self, heap: Global) -> Result<Vec<Call<'a>>, AllocError> {
        let mut calls = Vec::new(heap);
        self.push_recording(&mut calls)?;
        self.push_mishaps(&mut calls)?;
        Ok(calls)
    }

    // Monday and Tuesday: the recording is written, its stripes are folded, and the log is cleared.
    fn push_recording(self, calls: &mut Vec<Call<'a>>) -> Result<(), AllocError> {
        for (s, stripe) in (0..self.stripes).zip(self.padded.chunks(STRIPE)) {
            push_stripe(calls, s, stripe)?;
            if s % BATCH == BATCH - 1 {
                calls.push(Call::Clear)?;
            }
        }
        calls.push(Call::Clear)?;
        Ok(())
    }

    // Wednesday to Saturday: two blocks are replaced, the second of them with the power cut inside its store; start; a disk is pulled, and
    // all is read; a new disk is fitted and rebuilt; all is read again, and the log is folded and cleared.
    fn push_mishaps(self, calls: &mut Vec<Call<'a>>) -> Result<(), AllocError> {
        for (number, block) in (0..u32::MAX).zip(self.edited.chunks(512)) {
            if REPLACED.contains(&number) {
                calls.push(Call::Write(number, block))?;
            }
        }
        calls.push(Call::Start)?;
        calls.push(Call::Pull(PULLED))?;
        self.push_reads(calls)?;
        calls.push(Call::Fit(PULLED))?;
        for _ in 0..self.stripes {
            calls.push(Call::Rebuild(PULLED))?;
        }
        self.push_reads(calls)?;
        calls.push(Call::Fold(0))?;
        calls.push(Call::Clear)?;
        Ok(())
    }

    fn push_reads(self, calls: &mut Vec<Call<'a>>) -> Result<(), AllocError> {
        for number in 0..self.stripes.saturating_mul(COLUMNS) {
            calls.push(Call::Read(number))?;
        }
        Ok(())
    }

    // How many check blocks on these disks differ from those computed bit by bit.
    fn wrong_checks(self, bytes: &[u8], slots: usize) -> usize {
        let mut wrong = 0usize;
        for (s, data) in self.edited.chunks(STRIPE).enumerate() {
            for r in 0..slots.saturating_sub(DATA) {
                let slot = DATA.saturating_add(r).saturating_add(s) % slots;
                let place = slot.saturating_mul(self.stripes as usize).saturating_add(s);
                if block_at(bytes, place) != Some(checks::check_block(data, r).as_slice()) {
                    wrong = wrong.saturating_add(1);
                }
            }
        }
        wrong
    }
}

fn push_stripe<'a>(calls: &mut Vec<Call<'a>>, s: u32, stripe: &'a [u8]) -> Result<(), AllocError> {
    let first = s.saturating_mul(COLUMNS);
    for (number, block) in (first..u32::MAX).zip(stripe.chunks(512)) {
        calls.push(Call::Write(number, block))?;
    }
    calls.push(Call::Fold(s))?;
    Ok(())
}

// The stores before the one that is cut: format's, those of the writes, folds and clears, the first replaced block, and the record of the second.
fn stores_before_cut(sizes: Sizes) -> u32 {
    let stripes = sizes.blocks;
    let checks = sizes.slots.saturating_sub(COLUMNS);
    let format = sizes.slots.saturating_mul(stripes).saturating_add(2);
    let stripe = checks.saturating_mul(2).saturating_add(COLUMNS * 5 + 2);
    let clears = (stripes / BATCH).saturating_add(1);
    format
        .saturating_add(stripes.saturating_mul(stripe))
        .saturating_add(clears)
        .saturating_add(9)
}

fn told(calls: &[Call<'_>], answers: &[Answer], edited: &[u8]) -> Week {
    let mut week = Week::default();
    for (call, answer) in calls.iter().zip(answers.iter()) {
        week.note(*call, *answer, edited);
    }
    week
}

fn treat_tape<C: Code>(
    rt: &HostRuntime,
    array: &mut Array<Fuse<Memory<'_>>, C>,
    tape: Tape<'_>,
) -> anyhow::Result<()> {
    let heap = rt.alloc();
    let calls = tape.calls(heap)?;
    let mut work = vec![in heap; 0u8; 10240]?;
    match run(heap, array, calls.as_slice(), work.as_mut_slice()) {
        Ok(answers) => {
            let mut week = told(calls.as_slice(), answers.as_slice(), tape.edited);
            let slots = width::<C>();
            week.stripes = tape.stripes;
            week.wrong = tape.wrong_checks(array.backplane.below().bytes(), slots);
            println!(rt; "{week}")?;
            Ok(())
        }
        Err(RunFault::Format(fault)) => {
            let number = fault.number();
            println!(rt; "  the array could not be formatted: refused by {number}")?;
            Ok(())
        }
        Err(fault) => Err(fault.into()),
    }
}

// The whole week with one code.
pub(crate) fn treat_week<C: Code + Drop>(
    rt: &HostRuntime,
    code: C,
    recording: &[u8],
) -> anyhow::Result<()> {
    let heap = rt.alloc();
    let padded = whole_stripes(heap, recording)?;
    let mut edited = padded.clone()?;
    replace(edited.as_mut_slice());
    let sizes = Sizes {
        slots: u32::try_from(width::<C>())?,
        blocks: u32::try_from(padded.len() / STRIPE)?,
        cells: CELLS,
    };
    let Sizes {
        slots,
        blocks,
        cells,
    } = sizes;
    let places = slots.saturating_mul(blocks).saturating_add(cells) as usize;
    let mut bytes = vec![in heap; 0u8; places.saturating_mul(512)]?;
    let memory = Memory::new(bytes.as_mut_slice(), sizes);
    let mut layer = Fuse::new(memory);
    let _ = layer.set(stores_before_cut(sizes), TORN);
    let mut array = Array::new(layer, code);
    println!(rt; "  an array of {slots} disks with {blocks} blocks each, {cells} log cells")?;
    let tape = Tape {
        padded: padded.as_slice(),
        edited: edited.as_slice(),
        stripes: blocks,
    };
    treat_tape(rt, &mut array, tape)
}
