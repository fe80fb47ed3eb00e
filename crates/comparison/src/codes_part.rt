// Checks, shares and solved rows of each code, compared with the reference.
use crate::reference::checks;
use crate::reference::checks::Block;
use crate::source::Source;
use bitwise::{flags, times};
use codes::Code;
use std::fmt;

#[derive(Clone, Copy, Default)]
pub struct CodeTally {
    // check bytes and shares compared
    bytes: u64,
    // rows that were solved, and compared whole
    solved: u64,
    // calls that had to be refused
    refused: u64,
    // answers that differ from the reference
    different: u64,
}

impl CodeTally {
    fn differ(&mut self, differs: bool) {
        self.different = self.different.saturating_add(u64::from(differs));
    }

    fn count_byte(&mut self, differs: bool) {
        self.bytes = self.bytes.saturating_add(1);
        self.differ(differs);
    }

    fn count_solved(&mut self, differs: bool) {
        self.solved = self.solved.saturating_add(1);
        self.differ(differs);
    }

    fn count_refused(&mut self, differs: bool) {
        self.refused = self.refused.saturating_add(1);
        self.differ(differs);
    }
}

impl fmt::Display for CodeTally {
    fn fmt<W: fmt::Write>(&self, f: &mut fmt::Formatter<W>) -> fmt::Result {
        let CodeTally {
            bytes,
            solved,
            refused,
            different,
        } = *self;
        writeln!(f, "  check bytes and shares compared: {bytes}")?;
        writeln!(f, "  rows solved and compared: {solved}")?;
        writeln!(f, "  calls that had to be refused: {refused}")?;
        write!(f, "  different from the reference: {different}")
    }
}

fn random_row(source: &mut Source) -> [Block; 16] {
    std::array::from_fn(|_| source.bytes())
}

// The bytes at place `i` of the blocks of a row.
fn slice_at(row: &[Block; 16], i: usize) -> [u8; 16] {
    let mut bytes = [0u8; 16];
    for (b, x) in bytes.iter_mut().zip(row.iter()) {
        *b = x.get(i).copied().unwrap_or(0);
    }
    bytes
}

// Whether the first `n` bytes of a row are solved.
fn solves<C: Code>(k: usize, n: usize, row: &mut [u8], lost: &[bool]) -> bool {
    match row.get_mut(..n) {
        Some(bytes) => C::solve(k, bytes, lost).is_ok(),
        None => false,
    }
}

// Rows to solve: how many data places and places in all they have, and a bit for each lost place.
#[derive(Clone, Copy)]
struct Case {
    k: usize,
    n: usize,
    mask: u32,
}

// The share of a byte by the reference: none past the code's rows and the twelfth column.
fn wanted_share<C: Code>(r: usize, j: usize, b: u8) -> u8 {
    if r < C::check_rows() && j < 12 {
        times(checks::weight(r, j), b)
    } else {
        0
    }
}

// The sum of the shares of a list.
fn wanted_check<C: Code>(r: usize, list: &[u8]) -> u8 {
    let shares = list.iter().enumerate();
    shares.fold(0, |sum, (j, b)| sum ^ wanted_share::<C>(r, j, *b))
}

// The comparison of a code: where its inputs come from, and what it went through.
#[derive(Clone, Copy)]
struct Trial {
    source: Source,
    tally: CodeTally,
}

impl Trial {
    // Every place of a row of random blocks, solved as a row of bytes.
    fn solve_places<C: Code>(&mut self, case: Case) {
        let Case { k, n, mask } = case;
        let row = random_row(&mut self.source);
        let lost: [bool; 20] = flags(mask);
        let mut expected = row;
        checks::fill_lost(&mut expected, &lost, k, n.saturating_sub(k));
        for i in 0..512usize {
            let mut bytes = slice_at(&row, i);
            let solved = solves::<C>(k, n, &mut bytes, &lost);
            self.tally
                .count_solved(!solved || bytes != slice_at(&expected, i));
        }
    }

    // A call that has to be refused and to leave the row as it was.
    fn refuse<C: Code>(&mut self, case: Case) {
        let Case { k, n, mask } = case;
        let mut bytes: [u8; 20] = self.source.bytes();
        let before = bytes;
        let lost: [bool; 20] = flags(mask);
        if n <= 20 {
            let solved = solves::<C>(k, n, &mut bytes, &lost);
            self.tally.count_refused(solved || bytes != before);
        }
    }

    // Every set of lost places of a row with `k` data bytes, those that are too many among them.
    fn every_set<C: Code>(&mut self, k: usize) {
        let m = C::check_rows();
        let n = k.saturating_add(m);
        for mask in 0..1u32 << n.min(16) {
            let case = Case { k, n, mask };
            if mask.count_ones() as usize <= m {
                self.solve_places::<C>(case);
            } else {
                self.refuse::<C>(case);
            }
        }
    }

    // Rows of a wrong length, too few or too many data columns, and a lost place behind the row.
    fn every_refusal<C: Code>(&mut self) {
        for k in 0..16usize {
            let n = k.saturating_add(C::check_rows());
            let whole = Case { k, n, mask: 0 };
            if k < 2 || k > 12 {
                self.refuse::<C>(whole);
            }
            for n in [n.saturating_add(1), n.saturating_sub(1)] {
                self.refuse::<C>(Case { n, ..whole });
            }
            if n < 20 {
                let mask = 1 << n;
                self.refuse::<C>(Case { mask, ..whole });
            }
        }
    }

    // The checks of a data list and the shares of a byte in a row, out of range too.
    fn check_row<C: Code>(&mut self, r: usize, list: &[u8; 14]) {
        for length in 0..15usize {
            let part = &list[..length];
            self.tally
                .count_byte(C::check_byte(r, part) != wanted_check::<C>(r, part));
        }
        for (j, b) in list.iter().enumerate() {
            self.tally
                .count_byte(C::share(r, j, *b) != wanted_share::<C>(r, j, *b));
        }
    }

    fn check_bytes<C: Code>(&mut self) {
        let list = self.source.bytes();
        for r in 0..5usize {
            self.check_row::<C>(r, &list);
        }
    }
}

pub(crate) fn compare_code<C: Code>(seed: u64) -> CodeTally {
    let mut trial = Trial {
        source: Source::new(seed),
        tally: CodeTally::default(),
    };
    for _ in 0..200 {
        trial.check_bytes::<C>();
    }
    for k in 2..=12usize {
        trial.every_set::<C>(k);
    }
    trial.every_refusal::<C>();
    trial.tally
}
