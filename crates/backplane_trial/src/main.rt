// The exercise of every backplane, on the memory backplane and on fuses over it, and each layer's own edges.
#![tactic(auto)]

ghost use Rattle.std.specs.Prelude.{◌≤◌, length};

use backplane::Backplane;
use backplane::fault::{BackplaneFault, Place};
use backplane::sizes::Sizes;
use fuse::Fuse;
use memory::{Memory, judge};
use plane_exercise::exercise;
use std::{fmt, io};

const SIZES: Sizes = Sizes {
    slots: 4,
    blocks: 3,
    cells: 8,
};

const OLD: u8 = 17;

const NEW: u8 = 34;

// An answer in one word or two.
#[derive(Clone, Copy)]
struct Short(Result<(), BackplaneFault>);

impl fmt::Display for Short {
    fn fmt<W: fmt::Write>(&self, f: &mut fmt::Formatter<W>) -> fmt::Result {
        f.write_str(match self.0 {
            Ok(()) => "done",
            Err(BackplaneFault::Off) => "off",
            Err(BackplaneFault::NoPlace) => "no place",
            Err(BackplaneFault::Dead) => "dead",
            Err(BackplaneFault::Live) => "live",
            Err(BackplaneFault::Cut(_)) => "cut",
        })
    }
}

// How many bytes at the front are the new one.
fn new_bytes(bytes: &[u8]) -> usize
    ensures { result ≤ length bytes.now }
{
    bytes.iter().position(|x| *x != NEW).unwrap_or(bytes.len())
}

fn all_old(bytes: &[u8]) -> bool {
    bytes.iter().all(|x| *x == OLD)
}

// How many bytes are new, and whether all that follow are old.
fn mixed(bytes: &[u8]) -> (usize, bool) {
    let n = new_bytes(bytes);
    (n, all_old(&bytes[n..]))
}

fn exercises(rt: &HostRuntime) -> io::Result<()> {
    let mut lent = [0u8; 10240];
    let mut plain = Memory::new(&mut lent, SIZES);
    println!(rt; "memory: {}", exercise(&mut plain))?;
    let mut lent = [0u8; 10240];
    let mut fused = Fuse::new(Memory::new(&mut lent, SIZES));
    println!(rt; "fuse, unset: {}", exercise(&mut fused))?;
    let _ = fused.set(2, 100);
    println!(rt; "fuse, the third store is cut: {}", exercise(&mut fused))?;
    let mut lent = [0u8; 10240];
    let mut inner = Fuse::new(Memory::new(&mut lent, SIZES));
    let _ = inner.set(4, 0);
    let mut outer = Fuse::new(inner);
    let _ = outer.set(1, 512);
    println!(rt;
        "fuse over fuse, the second store and one more are cut: {}",
        exercise(&mut outer)
    )?;
    let mut lent = [0u8; 10239];
    let mut misfit = Memory::new(&mut lent, SIZES);
    println!(rt; "memory, one byte short: {}", exercise(&mut misfit))
}

fn judgements(rt: &HostRuntime) -> io::Result<()> {
    let cases: [(u32, u32, u32, usize); 12] = [
        (4, 3, 8, 10240),
        (4, 3, 8, 10239),
        (4, 3, 8, 10241),
        (3, 1, 8, 5632),
        (2, 1, 8, 5120),
        (17, 1, 8, 12800),
        (3, 0, 8, 4096),
        (3, 1, 7, 5120),
        (16, 65536, 4096, 538968064),
        (16, 65537, 4096, 538976256),
        (3, 1, 4097, 2099200),
        (4294967295, 4294967295, 4294967295, 0),
    ];
    for (slots, blocks, cells, length) in cases {
        let sizes = Sizes {
            slots,
            blocks,
            cells,
        };
        match judge(sizes, length) {
            Ok(()) => println!(rt;
                "{slots} slots, {blocks} blocks, {cells} cells in {length} bytes: fits"
            )?,
            Err(fault) => {
                let number = fault.number();
                println!(rt;
                    "{slots} slots, {blocks} blocks, {cells} cells in {length} bytes: refused by {number}"
                )?;
            }
        }
    }
    Ok(())
}

// A store at this place cut at `kept`, over bytes that are known.
fn show_cut(rt: &HostRuntime, kept: u32, at: Place) -> io::Result<()> {
    let mut lent = [OLD; 10240];
    let mut plane = Fuse::new(Memory::new(&mut lent, SIZES));
    if let Err(fault) = plane.set(0, kept) {
        let number = fault.number();
        let stays = plane.setting().is_none();
        return println!(rt; "kept {kept}: refused by {number}, the setting stays: {stays}");
    }
    let mut bytes = [NEW; 512];
    let (number, a, b) = match plane.store(at, &bytes) {
        Ok(()) => (0, 0, 0),
        Err(fault) => {
            let (a, b) = fault.details();
            (fault.number(), a, b)
        }
    };
    let on = plane.power();
    plane.power_up();
    let _ = plane.read(at, &mut bytes);
    let (new, old) = mixed(&bytes);
    match at {
        Place::OfBlock(..) => {
            println!(rt;
                "kept {kept}: the block answers {number} at {a} {b}, power {on}; new bytes {new}, the others old: {old}"
            )
        }
        Place::OfCell(_) => {
            println!(rt;
                "kept {kept}: the cell answers {number} at {a} {b}; new bytes {new}, the others old: {old}"
            )
        }
    }
}

fn cuts(rt: &HostRuntime) -> io::Result<()> {
    let (block, cell) = (Place::OfBlock(2, 1), Place::OfCell(5));
    for kept in [0, 1, 511, 512] {
        show_cut(rt, kept, block)?;
        show_cut(rt, kept, cell)?;
    }
    show_cut(rt, 513, block)
}

// The power is off and the disk dead: off comes first.
fn in_the_dark(rt: &HostRuntime) -> io::Result<()> {
    let mut lent = [OLD; 10240];
    let mut bytes = [NEW; 512];
    let mut plane = Fuse::new(Memory::new(&mut lent, SIZES));
    let block = Place::OfBlock(1, 0);
    let _ = plane.set(0, 0);
    plane.pull(1);
    let dead = Short(plane.store(block, &bytes));
    let cut = Short(plane.store(Place::OfCell(0), &bytes));
    let off = Short(plane.read(block, &mut bytes));
    let fit = Short(plane.fit(1));
    let short = Short(plane.store(block, &bytes[0..511]));
    println!(rt; "dead: {dead}; then {cut}; off and dead: {off}, {fit}, {short}")?;
    plane.power_up();
    let still = Short(plane.read(block, &mut bytes));
    let fit = Short(plane.fit(1));
    let read = Short(plane.read(Place::OfBlock(1, 2), &mut bytes));
    let fresh = bytes[511];
    println!(rt; "powered up: {still}, {fit}, {read}; a fitted disk holds {fresh}")
}

// Where the lent bytes changed: block 1 of slot 2 begins at byte 3584, cell 7 at byte 9728.
fn places(rt: &HostRuntime) -> io::Result<()> {
    let mut lent = [OLD; 10240];
    let new = [NEW; 512];
    let mut plane = Memory::new(&mut lent, SIZES);
    let _ = plane.store(Place::OfBlock(2, 1), &new);
    let _ = plane.store(Place::OfCell(7), &new);
    let bytes = plane.bytes();
    let length = bytes.len();
    if length != 10240 {
        return println!(rt; "the lent bytes are {length}");
    }
    let kept = all_old(&bytes[0..3584]) && all_old(&bytes[4096..9728]);
    let block = new_bytes(&bytes[3584..4096]);
    let cell = new_bytes(&bytes[9728..10240]);
    println!(rt;
        "stored at byte 3584: {block}, at byte 9728: {cell}, all others as they were: {kept}"
    )
}

fn main(rt: HostRuntime) -> io::Result<()> {
    exercises(&rt)?;
    judgements(&rt)?;
    cuts(&rt)?;
    in_the_dark(&rt)?;
    places(&rt)
}
