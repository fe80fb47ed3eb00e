// Reads and stores at places that are known to be there.
ghost use Rattle.std.specs.Prelude.{◌≡◌, None, MatchResult};
ghost use Rattle.backplane.specs.Meaning.{fault_of};
ghost use Rattle.backplane.specs.Plane.{Sector, placed, stored};
ghost use Rattle.backplane.specs.Stores.{CutBy, to_place};
ghost use Rattle.array.specs.Calls.{fault_at};

use backplane::Backplane;
use backplane::fault::Place;
use faults::fault::{ArrayFault, LogFault, StripeFault};

pub(crate) fn get<B: Backplane>(plane: &mut B, at: Place, into: &mut [u8])
    requires { fault_of (to_place at into.old) (B.Backplane.view plane.old) ≡ None }
    ensures got { into.new ≡ placed (to_place at into.old) (B.Backplane.view plane.old) }
    ensures kept { B.Backplane.view plane.new ≡ B.Backplane.view plane.old }
{
    plane.read(at, into).unwrap();
}

// Stores at a place. A cut is a fault of the log in a cell, and one of the stripe in a block.
pub(crate) fn put<B: Backplane>(plane: &mut B, at: Place, bytes: &[u8]) -> Result<(), ArrayFault>
    requires { fault_of (to_place at bytes.now) (B.Backplane.view plane.old) ≡ None }
    ensures { MatchResult result (λ _. B.Backplane.view plane.new ≡ stored (to_place at bytes.now) (B.Backplane.view plane.old)) (λ f. (f ≡ fault_at at) × CutBy Sector (to_place at bytes.now) (B.Backplane.view plane.old) (B.Backplane.view plane.new)) }
{
    plane.store(at, bytes).map_err(|fault| match at {
        Place::OfBlock(..) => ArrayFault::OfStripe(StripeFault::AtBlock(fault)),
        Place::OfCell(_) => ArrayFault::OfLog(LogFault::AtCell(fault)),
    })
}
