// One bit for each stripe, eight to a byte, in lent bytes: 65,536 stripes have room in 8,192.
ghost use Rattle.std.specs.Prelude.{◌≡◌, ℕ, ◌*◌, ◌^◌, ◌<◌, ◌≤◌, true, false, length, if◌then◌else◌, nat_eq};
ghost use Rattle.layout.specs.Counts.{count, first_of};
ghost use Rattle.layout.specs.Marks.{bit_of, marked};

use crate::blocks::byte_at;

// Marks a stripe, if it has room.
pub fn mark(map: &mut [u8], stripe: u32)
    ensures within { stripe < 8 * length map.old → (t : ℕ) → marked map.new t ≡ (if nat_eq t stripe then true else marked map.old t) }
    ensures past { 8 * length map.old ≤ stripe → map.new ≡ map.old }
{
    set_mark(map, stripe, true);
}

// Takes a stripe's mark away, if it has room.
pub fn unmark(map: &mut [u8], stripe: u32)
    ensures within { stripe < 8 * length map.old → (t : ℕ) → marked map.new t ≡ (if nat_eq t stripe then false else marked map.old t) }
    ensures past { 8 * length map.old ≤ stripe → map.new ≡ map.old }
{
    set_mark(map, stripe, false);
}

// Whether a stripe is marked; one without room never is.
pub fn is_marked(map: &[u8], stripe: u32) -> bool
    ensures { result ≡ marked map.now stripe }
{
    has_bit(byte_at(map, stripe as usize / 8), stripe % 8)
}

// How many of so many stripes are marked. A loop: every write counts all stripes, and the chain of `filter` and `count` takes twice the instructions for each.
pub fn count_marked(map: &[u8], stripes: u32) -> u32
    ensures { result ≡ count stripes (marked map.now) }
{
    let mut n = 0;
    for s in 0..stripes {
        if is_marked(map, s) {
            n += 1;
        }
    }
    n
}

// The lowest of so many stripes that is marked, if any is.
pub fn lowest_marked(map: &[u8], stripes: u32) -> Option<u32>
    ensures { result ≡ first_of stripes (marked map.now) }
{
    (0..stripes).find(|s| is_marked(map, *s))
}

fn set_mark(map: &mut [u8], stripe: u32, on: bool)
    ensures within { stripe < 8 * length map.old → (t : ℕ) → marked map.new t ≡ (if nat_eq t stripe then on else marked map.old t) }
    ensures past { 8 * length map.old ≤ stripe → map.new ≡ map.old }
{
    let at = stripe as usize / 8;
    if at < map.len() {
        map[at] = with_bit(map[at], stripe % 8, on);
    }
}

fn with_bit(byte: u8, bit: u32, on: bool) -> u8
    requires { bit < 8 }
    ensures { (j : ℕ) → j < 8 → bit_of result j ≡ (if nat_eq j bit then on else bit_of byte j) }
{
    if on {
        byte | (1 << bit)
    } else {
        byte & !(1 << bit)
    }
}

fn has_bit(byte: u8, bit: u32) -> bool
    requires { bit < 8 }
    ensures { result ≡ bit_of byte bit }
{
    byte & (1 << bit) != 0
}
