// Check blocks by products that are made bit by bit, to compare the check blocks on the disks with.
use bitwise::{add_times, power_of_two};

// Check row `r` of a stripe's data blocks, which stand one after the other.
pub(crate) fn check_block(data: &[u8], r: usize) -> [u8; 512] {
    let mut sum = [0u8; 512];
    for (j, block) in data.chunks(512).enumerate() {
        add_times(&mut sum, power_of_two(r.saturating_mul(j)), block);
    }
    sum
}
