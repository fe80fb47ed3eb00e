// Products of bytes bit by bit, with no tables: what the programs compare the array's codes with. No code is shared with those.
#![tactic(auto)]

ghost use Rattle.std.specs.Prelude.{◌≡◌, ℕ, ◌<◌, bit_xor, slice_index, slice_index_or, false};
ghost use Rattle.bitwise.specs.Bitwise.{times_x, product, power, bit};

fn times_x(a: u8) -> u8
    ensures { result ≡ times_x a }
{
    if a < 128 {
        2 * a
    } else {
        ((2 * (a as u16) - 256) as u8) ^ 0x1D
    }
}

// The product of two bytes modulo x^8 + x^4 + x^3 + x^2 + 1, the bits of `b` from the lowest on.
pub fn times(a: u8, b: u8) -> u8
    ensures { result ≡ product 8 a b }
{
    let mut sum = 0;
    let mut shifted = a;
    let mut rest = b;
    for _ in 0..8u32 {
        if rest % 2 == 1 {
            sum ^= shifted;
        }
        shifted = times_x(shifted);
        rest /= 2;
    }
    sum
}

// 2 to the power `e`.
pub fn power_of_two(e: usize) -> u8
    ensures { result ≡ power e }
{
    let mut p = 1;
    for _ in 0..e {
        p = times_x(p);
    }
    p
}

// Adds `w` times `x` to a sum, byte by byte; bytes past the end of `x` count as zeros.
pub fn add_times<const N: usize>(sum: &mut [u8; N], w: u8, x: &[u8])
    ensures { (i : ℕ) → i < N → slice_index sum.new i ≡ bit_xor (slice_index sum.old i) (product 8 w (slice_index x.now i)) }
{
    for (i, s) in sum.iter_mut().enumerate() {
        *s ^= times(w, x.get(i).copied().unwrap_or(0));
    }
}

// The flags of the set bits of a mask, from the lowest on.
pub fn flags<const N: usize>(mask: u32) -> [bool; N]
    ensures { (i : ℕ) → i < N → slice_index_or result i false ≡ bit mask i }
{
    std::array::from_fn(|i| i < 32 && (mask >> i) % 2 == 1)
}
