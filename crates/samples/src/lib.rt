// Worked examples: what the functions answer, and that the definitions of their contracts say the same.
#![tactic(auto)]

ghost use Rattle.std.specs.Prelude.{◌≡◌, [], ◌∷◌};
ghost use Rattle.samples.specs.Samples.{Samples};

use codes::{Code, DoubleParity, SingleParity};
use field::{double, power};

// The answers to the samples, in their order.
pub fn samples_hold() -> [u8; 7]
    ensures answers { result ≡ 29 ∷ 205 ∷ 0 ∷ 0 ∷ 9 ∷ 1 ∷ 2 ∷ [] }
    ensures samples { Samples }
{
    let bytes = [1, 2, 3];
    let (x, y) = solved_pair();
    [
        double(128),
        power(12),
        SingleParity::check_byte(0, &bytes),
        DoubleParity::check_byte(0, &bytes),
        DoubleParity::check_byte(1, &bytes),
        x,
        y,
    ]
}

// The first two of three data bytes, by the third and both checks.
fn solved_pair() -> (u8, u8)
    ensures { result ≡ (1, 2) }
{
    let mut row = [0, 0, 3, 0, 9];
    let lost = [true, true];
    DoubleParity::solve(3, &mut row, &lost).unwrap();
    (row[0], row[1])
}
