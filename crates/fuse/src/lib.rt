// A layer over any backplane that cuts the power at a set store.
#![tactic(auto)]

ghost use Rattle.std.specs.Prelude.{◌≡◌, true, false, nat_le, [], if◌then◌else◌, Some, None};
ghost use Rattle.backplane.specs.Plane.{pulled, switched};
ghost use Rattle.backplane.specs.Stores.{to_place};
ghost use Rattle.backplane.specs.Meaning.{Stored, Read, Fitted};
ghost use Rattle.fuse.specs.Fused.{new_at, cutting, counted, fusing, seen, over, lit, CutAt, Fused};
ghost use Rattle.fuse.specs.Faults.{number, settable};

use backplane::Backplane;
use backplane::bytes::sector;
use backplane::fault::{BackplaneFault, Place};
use std::error::Error;
use std::fmt;

#[derive(Clone, Copy, Debug, PartialEq, Eq)]
pub enum FuseFault {
    // a cut that would keep bytes past the end of a block
    PastBlock,
}

impl FuseFault {
    pub fn number(self) -> u32
        ensures { result ≡ number self }
    {
        match self {
            FuseFault::PastBlock => 7,
        }
    }
}

impl fmt::Display for FuseFault {
    fn fmt<W: fmt::Write>(&self, f: &mut fmt::Formatter<W>) -> fmt::Result {
        match *self {
            FuseFault::PastBlock => write!(f, "fuse: a cut past the end of a block"),
        }
    }
}

impl Error for FuseFault {}

// `passes` stores pass, and of the next one `kept` bytes are stored before the power fails.
#[derive(Clone, Copy)]
pub struct Setting {
    pub passes: u32,
    pub kept: u32,
}

#[derive(Drop)]
pub struct Fuse<B: Backplane> {
    below: B,
    // none where the fuse was never set, or is spent
    setting: Option<Setting>,
    on: bool,
}

// How many new bytes a store that is cut at `kept` leaves: a cell is never mixed.
fn new_at(at: Place, kept: u32) -> usize
    ensures { result ≡ new_at at kept }
{
    match at {
        Place::OfBlock(..) => kept.min(512) as usize,
        Place::OfCell(_) => if kept == 0 { 0 } else { 512 },
    }
}

impl<B: Backplane> Fuse<B> {
    // Unset, with its own power on.
    pub fn new(below: B) -> Fuse<B>
        ensures below { result.below ≡ below }
        ensures setting { result.setting ≡ None }
        ensures on { result.on ≡ true }
    {
        Fuse {
            below,
            setting: None,
            on: true,
        }
    }

    // In place of any earlier setting, with the power on or off. More than 512 bytes are refused, and the setting stays.
    pub fn set(&mut self, passes: u32, kept: u32) -> Result<(), FuseFault>
        ensures answer { result ≡ settable kept }
        ensures setting { self.new.setting ≡ (if nat_le kept 512 then Some (record { passes = passes; kept = kept }) else self.old.setting) }
        ensures below { self.new.below ≡ self.old.below }
        ensures on { self.new.on ≡ self.old.on }
    {
        if kept > 512 {
            return Err(FuseFault::PastBlock);
        }
        self.setting = Some(Setting { passes, kept });
        Ok(())
    }

    pub fn setting(&self) -> Option<Setting>
        ensures { result ≡ self.now.setting }
    {
        self.setting
    }

    pub fn below(&self) -> &B
        ensures { result.now ≡ self.now.below }
    {
        &self.below
    }

    pub fn into_below(self) -> B
        ensures { result ≡ self.below }
    {
        self.below
    }

    // How many bytes are kept of the next store, where that is to be cut.
    fn cutting(&self) -> Option<u32>
        ensures { result ≡ cutting self.now.setting }
    {
        match self.setting {
            Some(f) if f.passes == 0 => Some(f.kept),
            _ => None,
        }
    }

    // One store fewer passes, unless it was refused by a fault.
    fn count(&mut self, answer: &Result<(), BackplaneFault>)
        ensures setting { self.new.setting ≡ counted self.old.setting answer.now }
        ensures below { self.new.below ≡ self.old.below }
        ensures on { self.new.on ≡ self.old.on }
    {
        if matches!(answer, Ok(()) | Err(BackplaneFault::Cut(_))) {
            if let Some(setting) = &mut self.setting {
                setting.passes = setting.passes.saturating_sub(1);
            }
        }
    }

    // What was cut went below: the fuse is spent, and the power off until power up.
    fn spend(&mut self)
        ensures setting { self.new.setting ≡ None }
        ensures below { self.new.below ≡ self.old.below }
        ensures on { self.new.on ≡ false }
    {
        self.setting = None;
        self.on = false;
    }

    fn cut(&mut self, kept: u32, at: Place, bytes: &[u8]) -> Result<(), BackplaneFault>
        ensures { CutAt kept (to_place at bytes.now) (fusing B.Backplane.view self.old) result (fusing B.Backplane.view self.new) }
    {
        if self.below.power() && bytes.len() != 512 {
            return Err(BackplaneFault::NoPlace);
        }
        let mut left = [0u8; 512];
        self.below.read(at, &mut left)?;
        let n = new_at(at, kept);
        left[..n].copy_from_slice(&bytes[..n]);
        // what a local array holds is not known to be bytes unless it is read
        sector(&left);
        match self.below.store(at, &left) {
            Ok(()) | Err(BackplaneFault::Cut(_)) => {}
            Err(fault) => return Err(fault),
        }
        self.spend();
        Err(BackplaneFault::Cut(at))
    }

    fn put(&mut self, at: Place, bytes: &[u8]) -> Result<(), BackplaneFault>
        ensures { Fused (to_place at bytes.now) (fusing B.Backplane.view self.old) result (fusing B.Backplane.view self.new) }
    {
        if !self.on {
            return Err(BackplaneFault::Off);
        }
        if let Some(kept) = self.cutting() {
            return self.cut(kept, at, bytes);
        }
        let answer = self.below.store(at, bytes);
        self.count(&answer);
        answer
    }
}

impl<B: Backplane> Backplane for Fuse<B> {
    ghost view = { λ f. seen (fusing B.Backplane.view f) };

    fn slots(&self) -> u32 {
        self.below.slots()
    }

    fn blocks(&self) -> u32 {
        self.below.blocks()
    }

    fn cells(&self) -> u32 {
        self.below.cells()
    }

    fn power(&self) -> bool {
        self.on && self.below.power()
    }

    fn live(&self, slot: u32) -> bool {
        self.below.live(slot)
    }

    fn read(&mut self, at: Place, into: &mut [u8]) -> Result<(), BackplaneFault>
        ensures meaning { Read (to_place at into.old) (seen (fusing B.Backplane.view self.old)) result (seen (fusing B.Backplane.view self.new)) into.new }
        ensures exact { fusing B.Backplane.view self.new ≡ fusing B.Backplane.view self.old }
    {
        if !self.on {
            return Err(BackplaneFault::Off);
        }
        self.below.read(at, into)
    }

    fn store(&mut self, at: Place, bytes: &[u8]) -> Result<(), BackplaneFault>
        ensures meaning { Stored (to_place at bytes.now) (seen (fusing B.Backplane.view self.old)) result (seen (fusing B.Backplane.view self.new)) }
        ensures exact { Fused (to_place at bytes.now) (fusing B.Backplane.view self.old) result (fusing B.Backplane.view self.new) }
    {
        self.put(at, bytes)
    }

    fn pull(&mut self, slot: u32)
        ensures meaning { seen (fusing B.Backplane.view self.new) ≡ pulled [] slot (seen (fusing B.Backplane.view self.old)) }
        ensures exact { fusing B.Backplane.view self.new ≡ over (fusing B.Backplane.view self.old) (pulled [] slot (B.Backplane.view self.old.below)) }
    {
        self.below.pull(slot);
    }

    fn fit(&mut self, slot: u32) -> Result<(), BackplaneFault>
        ensures meaning { Fitted slot (seen (fusing B.Backplane.view self.old)) result (seen (fusing B.Backplane.view self.new)) }
        ensures exact { fusing B.Backplane.view self.new ≡ over (fusing B.Backplane.view self.old) (B.Backplane.view self.new.below) }
    {
        if !self.on {
            return Err(BackplaneFault::Off);
        }
        self.below.fit(slot)
    }

    fn power_up(&mut self)
        ensures meaning { seen (fusing B.Backplane.view self.new) ≡ switched true (seen (fusing B.Backplane.view self.old)) }
        ensures exact { fusing B.Backplane.view self.new ≡ lit (fusing B.Backplane.view self.old) }
    {
        self.below.power_up();
        self.on = true;
    }
}
