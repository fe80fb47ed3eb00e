// A backplane: slots for disks, log cells, and the power. All array code is written over any type that keeps this meaning.
#![tactic(auto)]

ghost use Rattle.std.specs.Prelude.{◌≡◌, true, []};
ghost use Rattle.backplane.specs.Plane.{pulled, switched};
ghost use Rattle.backplane.specs.Stores.{to_place};
ghost use Rattle.backplane.specs.Meaning.{Bytes, Stored, Read, Fitted, Sound, sizes_of};

pub mod bytes;
pub mod fault;
pub mod sizes;

use fault::{BackplaneFault, Place};
use sizes::Sizes;

pub trait Backplane {
    ghost view: { Self → Bytes };

    fn slots(&self) -> u32
        ensures value { result ≡ (view self.now).slots }
        ensures sound { Sound (view self.now) };

    // The blocks on each disk.
    fn blocks(&self) -> u32
        ensures { result ≡ (view self.now).blocks };

    fn cells(&self) -> u32
        ensures { result ≡ (view self.now).cells };

    fn sizes(&self) -> Sizes
        ensures { result ≡ sizes_of (view self.now) }
    {
        Sizes {
            slots: self.slots(),
            blocks: self.blocks(),
            cells: self.cells(),
        }
    }

    fn power(&self) -> bool
        ensures { result ≡ (view self.now).on };

    fn live(&self, slot: u32) -> bool
        ensures { result ≡ (view self.now).live slot };

    fn read(&mut self, at: Place, into: &mut [u8]) -> Result<(), BackplaneFault>
        ensures { Read (to_place at into.old) (view self.old) result (view self.new) into.new };

    fn store(&mut self, at: Place, bytes: &[u8]) -> Result<(), BackplaneFault>
        ensures { Stored (to_place at bytes.now) (view self.old) result (view self.new) };

    fn pull(&mut self, slot: u32)
        ensures { view self.new ≡ pulled [] slot (view self.old) };

    fn fit(&mut self, slot: u32) -> Result<(), BackplaneFault>
        ensures { Fitted slot (view self.old) result (view self.new) };

    fn power_up(&mut self)
        ensures { view self.new ≡ switched true (view self.old) };
}
