// Takes a recording through the codes and through a week on an array. First it is spread over columns, as many of them as there are checks are lost
// in every combination and restored, and the recording is compared with the one that came in. Then it goes into an array, with all that may happen there.
#![tactic(auto)]

mod checks;
mod columns;
mod week;

use bitwise::flags;
use codes::{Code, DoubleParity, SingleParity};
use columns::{Columns, Lost};
use std::alloc::Global;
use std::{env, fs};

// Data columns, for both codes, and the bytes of a stripe of them.
const DATA: usize = 5;

const STRIPE: usize = 512 * DATA;

// All columns, with those of checks.
fn width<C: Code>() -> usize {
    C::check_rows().saturating_add(DATA)
}

// What became of one recording under one code.
#[derive(Clone, Copy, Default)]
struct Outcome {
    combinations: usize,
    whole: usize,
}

// Loses columns, restores them, and says whether the recording came back as it was.
fn survives<C: Code>(
    heap: Global,
    spread: &Columns,
    lost: &Lost,
    recording: &[u8],
) -> anyhow::Result<bool> {
    let Some(back) = spread.restored::<C>(heap, lost, recording.len())? else {
        return Ok(false);
    };
    Ok(back.as_slice() == recording)
}

fn lose_all<C: Code>(heap: Global, spread: &Columns, recording: &[u8]) -> anyhow::Result<Outcome> {
    let mut outcome = Outcome::default();
    for bits in 0..1u32 << width::<C>().min(16) {
        if bits.count_ones() as usize == C::check_rows() {
            outcome.combinations = outcome.combinations.saturating_add(1);
            if survives::<C>(heap, spread, &flags(bits), recording)? {
                outcome.whole = outcome.whole.saturating_add(1);
            }
        }
    }
    Ok(outcome)
}

// A recording under a code, and through a week on an array with it. The columns are let go before the week.
fn treat<C: Code + Drop>(
    rt: &HostRuntime,
    name: &str,
    code: C,
    recording: &[u8],
) -> anyhow::Result<()> {
    treat_columns::<C>(rt, name, recording)?;
    week::treat_week(rt, code, recording)
}

// A recording spread over columns, lost and restored in every combination.
fn treat_columns<C: Code>(rt: &HostRuntime, name: &str, recording: &[u8]) -> anyhow::Result<()> {
    let heap = rt.alloc();
    let checks = C::check_rows();
    let spread = Columns::spread::<C>(heap, recording)?;
    let length = spread.length();
    println!(rt; "{name}: {DATA} columns of data, {checks} of checks, {length} bytes each")?;
    let Outcome {
        combinations,
        whole,
    } = lose_all::<C>(heap, &spread, recording)?;
    println!(rt; "  ways to lose as many columns as there are checks: {combinations}")?;
    println!(rt; "  times the recording came back as it was, byte by byte: {whole}")?;
    Ok(())
}

fn run(rt: &HostRuntime) -> anyhow::Result<()> {
    let mut arguments = env::args(rt)?;
    let _ = arguments.next();
    let name = match arguments.next() {
        Some(name) => name,
        None => String::from_str(rt.alloc(), "recording.wav")?,
    };
    let recording = fs::read(rt, name.as_str())?;
    let recording = recording.as_slice();
    let bytes = recording.len();
    let blocks = bytes.div_ceil(512);
    println!(rt; "{name}: {bytes} bytes, {blocks} blocks of 512 bytes")?;
    treat(rt, "Code 1, single parity", SingleParity, recording)?;
    treat(rt, "Code 2, double parity", DoubleParity, recording)
}

fn main(rt: HostRuntime) -> anyhow::Result<()> {
    run(&rt)
}
