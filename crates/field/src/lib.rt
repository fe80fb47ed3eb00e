// The field of 256 elements over the polynomial 0x11D, by stored tables of powers and exponents.
#![tactic(auto)]

ghost use Rattle.std.specs.Prelude.{◌≡◌, ℕ, ◌+◌, ◌%◌, ◌<◌, IfSome, IfNone};
ghost use Rattle.field.specs.Field.{doubled, exp, log, log_of, times, reciprocal, inverse_of, quotient_of, polynomial};
ghost use Rattle.field.specs.Laws.{FieldLaws, Order255};

mod tables;

use tables::{EXP, LOG};

// How many powers E has before they come round.
const ORDER: usize = 255;

// The entry of the power table: E(i), and again E(i - 255) from 255 on.
fn entry(i: usize) -> u8
    requires { i < 510 }
    ensures { result ≡ exp (i % 255) }
{
    EXP[i]
}

// The exponent of `b`, which 0 has not.
fn exponent(b: u8) -> Option<usize>
    ensures value { IfSome result (λ e. e ≡ log b) }
    ensures bound { IfSome result (λ e. e < 255) }
    ensures above { IfSome result (λ _. 0 < b) }
    ensures zero { IfNone result (b ≡ 0) }
{
    if b == 0 {
        return None;
    }
    Some(LOG[b as usize] as usize)
}

pub fn double(a: u8) -> u8
    ensures { result ≡ doubled a }
{
    if a < 128 {
        2 * a
    } else {
        ((2 * (a as u16) - 256) as u8) ^ 0x1D
    }
}

// E(i mod 255).
pub fn power(i: usize) -> u8
    ensures { result ≡ exp (i % 255) }
{
    entry(i % ORDER)
}

// The exponent of `b`, which 0 has not.
pub fn logarithm(b: u8) -> Option<u8>
    ensures { result ≡ log_of b }
{
    Some(exponent(b)? as u8)
}

// The product, which is that of polynomials modulo 0x11D.
pub fn product(a: u8, b: u8) -> u8
    ensures value { result ≡ times a b }
    ensures polynomial { result ≡ polynomial 8 a b }
{
    match (exponent(a), exponent(b)) {
        (Some(i), Some(j)) => entry(i + j),
        _ => 0,
    }
}

// E(j mod 255) times `b`, with no look for the exponent of a power.
pub fn scaled(j: usize, b: u8) -> u8
    ensures { result ≡ times (exp (j % 255)) b }
{
    match exponent(b) {
        Some(e) => entry(j % ORDER + e),
        None => 0,
    }
}

// 1 / a, which 0 has not.
pub fn inverse(a: u8) -> Option<u8>
    ensures { result ≡ inverse_of a }
{
    Some(entry(ORDER - exponent(a)?))
}

// a / b, but for b = 0.
pub fn quotient(a: u8, b: u8) -> Option<u8>
    ensures { result ≡ quotient_of a b }
{
    let below = ORDER - exponent(b)?;
    Some(match exponent(a) {
        Some(above) => entry(above + below),
        None => 0,
    })
}

// The order of E, one of the two rounds of the power table; with the laws of the field.
pub fn order() -> usize
    ensures value { result ≡ 255 }
    ensures laws { FieldLaws }
    ensures powers { Order255 }
{
    EXP.len() / 2
}
