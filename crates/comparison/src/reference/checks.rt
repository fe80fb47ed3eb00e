// Check blocks and lost columns, by products that are made bit by bit.
use bitwise::{add_times, power_of_two, times};

pub type Block = [u8; 512];

pub const ZEROS: Block = [0; 512];

// The byte whose product with `a` is 1; 0 where there is none.
fn inverse(a: u8) -> u8 {
    (1..=255u8).find(|b| times(a, *b) == 1).unwrap_or(0)
}

// What column `j` is multiplied by in check row `r`: 2 to the power r * j.
pub(crate) fn weight(r: usize, j: usize) -> u8 {
    power_of_two(r.saturating_mul(j))
}

// The block at a place of a row, zeros where there is none.
pub(crate) fn column(row: &[Block], c: usize) -> Block {
    row.get(c).copied().unwrap_or(ZEROS)
}

fn put(row: &mut [Block], c: usize, x: Block) {
    if let Some(place) = row.get_mut(c) {
        *place = x;
    }
}

// Check row `r` of the first `k` columns.
fn check_of(row: &[Block], k: usize, r: usize) -> Block {
    let mut sum = ZEROS;
    for (j, x) in row.iter().take(k).enumerate() {
        add_times(&mut sum, weight(r, j), x);
    }
    sum
}

fn is_lost(lost: &[bool], c: usize) -> bool {
    lost.get(c).copied().unwrap_or(false)
}

// An equation in the lost data columns: what each is multiplied by, and the sum.
#[derive(Clone, Copy)]
struct Equation {
    weights: [u8; 12],
    sum: Block,
    // the column that it gives, once it is resolved
    gives: Option<usize>,
}

// The equation that says nothing.
const NOTHING: Equation = Equation {
    weights: [0; 12],
    sum: ZEROS,
    gives: None,
};

impl Equation {
    // What check row `r` says of the lost data columns.
    fn of_check(row: &[Block], lost: &[bool], k: usize, r: usize) -> Equation {
        let mut weights = [0u8; 12];
        let mut sum = column(row, k.saturating_add(r));
        for (j, w) in weights.iter_mut().take(k).enumerate() {
            if is_lost(lost, j) {
                *w = weight(r, j);
            } else {
                add_times(&mut sum, weight(r, j), &column(row, j));
            }
        }
        Equation {
            weights,
            sum,
            gives: None,
        }
    }

    fn weight(&self, j: usize) -> u8 {
        self.weights.get(j).copied().unwrap_or(0)
    }

    // Adds `w` times `other`.
    fn add(&mut self, w: u8, other: &Equation) {
        add_times(&mut self.weights, w, &other.weights);
        add_times(&mut self.sum, w, &other.sum);
    }

    // Divided so that it names column `j` once, which it gives.
    fn giving(&self, j: usize) -> Equation {
        let mut e = NOTHING;
        e.add(inverse(self.weight(j)), self);
        e.gives = Some(j);
        e
    }
}

// Takes column `j` out of every equation but one that it names.
fn eliminate(system: &mut [Equation], j: usize) {
    let mut open = system.iter_mut();
    let Some(named) = open.find(|e| e.gives.is_none() && e.weight(j) != 0) else {
        return;
    };
    *named = named.giving(j);
    let pivot = *named;
    for e in system.iter_mut() {
        if e.gives != Some(j) {
            let w = e.weight(j);
            e.add(w, &pivot);
        }
    }
}

// The equations of the lowest kept check rows, as many as data columns are lost; the other entries say nothing.
fn lowest_rows(row: &[Block], lost: &[bool], k: usize, m: usize) -> [Equation; 4] {
    let mut system = [NOTHING; 4];
    let wanted = lost.iter().take(k).filter(|l| **l).count();
    let kept = (0..m).filter(|r| !is_lost(lost, k.saturating_add(*r)));
    for (e, r) in system.iter_mut().zip(kept).take(wanted) {
        *e = Equation::of_check(row, lost, k, r);
    }
    system
}

// The column that the equations give, once they are resolved.
fn resolved(system: &[Equation], j: usize) -> Block {
    system
        .iter()
        .find(|e| e.gives == Some(j))
        .map_or(ZEROS, |e| e.sum)
}

// Fills the lost columns of a row in: data from the lowest kept check rows, then checks from the data.
pub(crate) fn fill_lost(row: &mut [Block], lost: &[bool], k: usize, m: usize) {
    fill_data(row, lost, k, m);
    for r in 0..m {
        let c = k.saturating_add(r);
        if is_lost(lost, c) {
            let x = check_of(row, k, r);
            put(row, c, x);
        }
    }
}

// Takes the lost data columns out, one by one, so that each equation names one of them, and puts them into the row.
fn fill_data(row: &mut [Block], lost: &[bool], k: usize, m: usize) {
    let mut system = lowest_rows(row, lost, k, m);
    for j in (0..k).filter(|j| is_lost(lost, *j)) {
        eliminate(&mut system, j);
    }
    for j in (0..k).filter(|j| is_lost(lost, *j)) {
        put(row, j, resolved(&system, j));
    }
}
