// Compares the product with an independent implementation on very many inputs, and says what it went through.
#![tactic(auto)]

mod array_part;
mod codes_part;
mod reference;
mod source;

use array_part::{CallTally, compare_lists};
use backplane::sizes::Sizes;
use codes::{Code, DoubleParity, SingleParity};
use codes_part::compare_code;
use std::io;

// Slots, blocks and cells of the arrays to compare, and how many lists of calls on each.
type Table = [(u32, u32, u32, u64); 3];

const SINGLE: Table = [(3, 3, 8, 900), (4, 3, 14, 1500), (13, 2, 30, 300)];

const DOUBLE: Table = [(4, 3, 9, 900), (5, 3, 18, 1500), (14, 2, 40, 300)];

fn compare_array<C: Code + Drop + Copy>(
    rt: &HostRuntime,
    name: &str,
    code: C,
    table: Table,
) -> io::Result<()> {
    let mut tally = CallTally::default();
    for (slots, blocks, cells, lists) in table {
        let sizes = Sizes {
            slots,
            blocks,
            cells,
        };
        tally = compare_lists(rt.alloc(), code, sizes, lists, tally)?;
    }
    println!(rt; "{name}\n{tally}")
}

fn main(rt: HostRuntime) -> io::Result<()> {
    let single = compare_code::<SingleParity>(1);
    println!(rt; "Code 1, single parity\n{single}")?;
    let double = compare_code::<DoubleParity>(2);
    println!(rt; "Code 2, double parity (P and Q)\n{double}")?;
    compare_array(&rt, "The array with code 1", SingleParity, SINGLE)?;
    compare_array(&rt, "The array with code 2", DoubleParity, DOUBLE)
}
