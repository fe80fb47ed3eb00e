// Code 2: two check bytes, P and Q. Any two bytes of a row may be lost.
ghost use Rattle.std.specs.Prelude.{◌≡◌, ℕ};
ghost use Rattle.codes.specs.Double.{double, divided, lone, former, data_two, solved_two};
ghost use Rattle.codes.specs.DoubleLaws.{double-low, double-past, double-fill, double-zero, double-adds, double-apart, double-solves, double-completes};
ghost use Rattle.std.proofs.Common.{lit<, lit≤};

use crate::code::Code;
use crate::row::{
    check_at, clear_lost, is_lost, next_lost, plain_share, sum_of, weighted_of, weighted_share,
};
use field::{power, quotient, scaled};

#[derive(Clone, Copy, Debug, PartialEq, Eq)]
pub struct DoubleParity;

// a / b, and 0 where b is 0.
fn over(a: u8, b: u8) -> u8
    ensures { result ≡ divided a b }
{
    quotient(a, b).unwrap_or(0)
}

// The one lost byte, at column i, by what P lacks, or where P is lost by what Q lacks.
fn lone_of(i: usize, p: Option<u8>, q: u8) -> u8
    ensures { result ≡ lone i p q }
{
    match p {
        Some(p) => p,
        None => over(q, power(i)),
    }
}

// The former of two lost bytes, at columns i and j, by what P and Q lack.
fn former_of(i: usize, j: usize, p: u8, q: u8) -> u8
    ensures { result ≡ former i j p q }
{
    over(q ^ scaled(j, p), power(i) ^ power(j))
}

impl Code for DoubleParity {
    const NUMBER: u8 = 2;

    const ROWS: usize = 2;

    ghost NUMBER = { 2 };

    ghost ROWS = { 2 };

    ghost check = { double };

    ghost repaired = { data_two };

    ghost solved = { solved_two };

    ghost named = { lit< tt };

    ghost few = { (lit≤ tt, lit≤ tt) };

    ghost low = { double-low };

    ghost past = { double-past };

    ghost fill = { double-fill };

    ghost zero = { double-zero };

    ghost additive = { double-adds };

    ghost apart = { double-apart };

    ghost solves = { double-solves };

    ghost completes = { double-completes };

    fn check_byte(r: usize, bytes: &[u8]) -> u8 {
        match r {
            0 => sum_of(bytes),
            1 => weighted_of(1, bytes),
            _ => 0,
        }
    }

    fn share(r: usize, j: usize, b: u8) -> u8 {
        match r {
            0 => plain_share(j, b),
            1 => weighted_share(1, j, b),
            _ => 0,
        }
    }

    fn fill_data(bytes: &mut [u8], checks: &[u8], lost: &[bool]) {
        let k = bytes.len();
        clear_lost(bytes, lost);
        let Some(i) = next_lost(lost, 0, k) else {
            return;
        };
        let p = check_at(checks, 0) ^ sum_of(bytes);
        let q = check_at(checks, 1) ^ weighted_of(1, bytes);
        if let Some(j) = next_lost(lost, i + 1, k) {
            let x = former_of(i, j, p, q);
            bytes[i] = x;
            bytes[j] = p ^ x;
        } else {
            let kept = if is_lost(lost, k) { None } else { Some(p) };
            bytes[i] = lone_of(i, kept, q);
        }
    }
}
