// Calls made one after the other on an array just formatted.
ghost use Rattle.std.specs.Prelude.{◌≡◌, ℕ, ◌<◌, [], ◌∷◌, ◌++◌, length, IfOk, MatchResult, slice_index};
ghost use Rattle.backplane.specs.Meaning.{Sound};
ghost use Rattle.backplane.specs.Plane.{Sector};
ghost use Rattle.model.specs.Rules.{Read, Write};
ghost use Rattle.model.specs.Runs.{Given};
ghost use Rattle.array.specs.Calls.{wiped, coding_of, Follows};
ghost use Rattle.run.specs.Calls.{call_of, reply_for, area_after};
ghost use Rattle.run.specs.Runs.{device_of, MadeAll, MadeSome, RunKept, RunFailed};

use crate::call::{Answer, Call, Outcome, RunFault};
use array::array::Array;
use backplane::Backplane;
use codes::Code;
use std::alloc::{AllocError, AllocFailed, Global};

// Formats the array, makes the calls one after the other, and gives back every answer, with every block read.
pub fn run<B: Backplane, C: Code>(
    heap: Global,
    array: &mut Array<B, C>,
    calls: &[Call],
    work: &mut [u8],
) -> Result<Vec<Answer>, RunFault>
    ensures does { MatchResult result (λ v. RunKept B.Backplane C.Code array.old (length work.old) calls.now v.items array.new) (λ f. RunFailed B.Backplane C.Code array.old (length work.old) calls.now f array.new) }
    ensures area { work.new ≡ wiped work.old }
{
    keeps_sound(&array.backplane);
    array.format(work)?;
    Ok(make_all(heap, array, calls, work)?)
}

// What every backplane keeps, for the proof alone.
fn keeps_sound<B: Backplane>(backplane: &B)
    ensures { Sound (B.Backplane.view backplane.now) }
{
    let _slots = backplane.slots();
}

// A call after the other, until there is no memory for an answer.
fn make_all<B: Backplane, C: Code>(
    heap: Global,
    array: &mut Array<B, C>,
    calls: &[Call],
    work: &mut [u8],
) -> Result<Vec<Answer>, AllocError>
    requires { wiped work.old ≡ work.old }
    ensures does { MatchResult result (λ v. MadeAll (coding_of B.Backplane C.Code array.old) (length work.old) (device_of B.Backplane C.Code array.old) calls.now v.items (device_of B.Backplane C.Code array.new)) (λ _. MadeSome (coding_of B.Backplane C.Code array.old) (length work.old) (device_of B.Backplane C.Code array.old) calls.now (device_of B.Backplane C.Code array.new)) }
    ensures area { work.new ≡ work.old }
{
    let mut answers = Vec::new(heap);
    for call in calls {
        let _ = make_next(array, *call, work, &mut answers)?;
    }
    Ok(answers)
}

// Makes a call and keeps its answer, which is handed back too, also where there was no memory to keep it.
fn make_next<B: Backplane, C: Code>(
    array: &mut Array<B, C>,
    call: Call,
    work: &mut [u8],
    answers: &mut Vec<Answer>,
) -> Result<Answer, AllocFailed<Answer>>
    ensures does { MatchResult result (λ x. Follows B.Backplane C.Code (call_of (length work.old) call.entry) array.old (reply_for x) array.new) (λ f. Follows B.Backplane C.Code (call_of (length work.old) call.entry) array.old (reply_for f.value) array.new) }
    ensures given { Given (coding_of B.Backplane C.Code array.old) Sector (call_of (length work.old) call.entry) }
    ensures area { work.new ≡ area_after call.entry work.old }
    ensures added { IfOk result (λ x. answers.new.items ≡ answers.old.items ++ x ∷ []) }
{
    let answer = make_one(array, call, work);
    answers.push(answer)?;
    Ok(answer)
}

fn make_one<B: Backplane, C: Code>(array: &mut Array<B, C>, call: Call, work: &mut [u8]) -> Answer
    ensures does { Follows B.Backplane C.Code (call_of (length work.old) call.entry) array.old (reply_for result) array.new }
    ensures given { Given (coding_of B.Backplane C.Code array.old) Sector (call_of (length work.old) call.entry) }
    ensures area { work.new ≡ area_after call.entry work.old }
{
    match call {
        Call::Read(number) => read_block(array, number, work),
        Call::Clear => array.clear(work).map(Outcome::from),
        Call::Pull(slot) => array.pull(slot).map(Outcome::from),
        Call::Fit(slot) => array.fit(slot, work).map(Outcome::from),
        Call::Rebuild(slot) => array.rebuild(slot, work).map(Outcome::from),
        Call::Start => array.start(work).map(Outcome::from),
        Call::Write(number, bytes) => write_block(array, number, bytes, work),
        Call::Fold(stripe) => array.fold(stripe, work).map(Outcome::from),
    }
}

// Writes the block of this number; what is given is bytes, which the history of the calls asks for.
fn write_block<B: Backplane, C: Code>(
    array: &mut Array<B, C>,
    number: u32,
    bytes: &[u8],
    work: &mut [u8],
) -> Answer
    ensures does { Follows B.Backplane C.Code (Write number bytes.now (length work.old)) array.old (reply_for result) array.new }
    ensures given { (j : ℕ) → slice_index bytes.now j < 256 }
    ensures area { work.new ≡ wiped work.old }
{
    array.write(number, bytes, work).map(Outcome::from)
}

// The block of this number, inside the answer.
fn read_block<B: Backplane, C: Code>(
    array: &mut Array<B, C>,
    number: u32,
    work: &mut [u8],
) -> Answer
    ensures does { Follows B.Backplane C.Code (Read number 512 (length work.old)) array.old (reply_for result) array.new }
    ensures area { work.new ≡ wiped work.old }
{
    let mut block = [0u8; 512];
    array.read(number, &mut block, work)?;
    Ok(Outcome::from(block))
}
