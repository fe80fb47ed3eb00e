// Code 1: one check byte, the sum of the data bytes. Any one byte of a row may be lost.
ghost use Rattle.std.specs.Prelude.{◌≡◌, ℕ};
ghost use Rattle.codes.specs.Single.{single, data_one, solved_one};
ghost use Rattle.codes.specs.SingleLaws.{single-low, single-past, single-fill, single-zero, single-adds, single-apart, single-solves, single-completes};
ghost use Rattle.std.proofs.Common.{lit<, lit≤};

use crate::code::Code;
use crate::row::{check_at, clear_lost, next_lost, plain_share, sum_of};

#[derive(Clone, Copy, Debug, PartialEq, Eq)]
pub struct SingleParity;

impl Code for SingleParity {
    const NUMBER: u8 = 1;

    const ROWS: usize = 1;

    ghost NUMBER = { 1 };

    ghost ROWS = { 1 };

    ghost check = { single };

    ghost repaired = { data_one };

    ghost solved = { solved_one };

    ghost named = { lit< tt };

    ghost few = { (lit≤ tt, lit≤ tt) };

    ghost low = { single-low };

    ghost past = { single-past };

    ghost fill = { single-fill };

    ghost zero = { single-zero };

    ghost additive = { single-adds };

    ghost apart = { single-apart };

    ghost solves = { single-solves };

    ghost completes = { single-completes };

    fn check_byte(r: usize, bytes: &[u8]) -> u8 {
        if r == 0 { sum_of(bytes) } else { 0 }
    }

    fn share(r: usize, j: usize, b: u8) -> u8 {
        if r == 0 { plain_share(j, b) } else { 0 }
    }

    // A lost byte is what the check lacks.
    fn fill_data(bytes: &mut [u8], checks: &[u8], lost: &[bool]) {
        let k = bytes.len();
        clear_lost(bytes, lost);
        if let Some(i) = next_lost(lost, 0, k) {
            let missing = check_at(checks, 0) ^ sum_of(bytes);
            bytes[i] = missing;
        }
    }
}
