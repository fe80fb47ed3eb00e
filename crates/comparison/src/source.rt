// Pseudo-random numbers: the same from run to run.
#[derive(Clone, Copy)]
pub struct Source {
    state: u64,
}

impl Source {
    pub(crate) fn new(seed: u64) -> Source {
        Source {
            state: seed ^ 0x9E37_79B9_7F4A_7C15,
        }
    }

    fn next(&mut self) -> u64 {
        let mut x = self.state;
        x ^= x.wrapping_mul(8192);
        x ^= x >> 7;
        x ^= x.wrapping_mul(131072);
        self.state = x;
        x
    }

    // A number below `n`, or 0.
    pub(crate) fn below(&mut self, n: u32) -> u32 {
        let x = self.next() >> 11;
        if n == 0 {
            0
        } else {
            ((x % u64::from(n)) & 0xffff_ffff) as u32
        }
    }

    // One of these.
    pub(crate) fn pick(&mut self, from: &[u32; 6]) -> u32 {
        from.get(self.below(6) as usize).copied().unwrap_or(0)
    }

    pub(crate) fn byte(&mut self) -> u8 {
        ((self.next() >> 24) & 0xff) as u8
    }

    pub(crate) fn bytes<const N: usize>(&mut self) -> [u8; N] {
        let mut bytes = [0u8; N];
        for b in bytes.iter_mut() {
            *b = self.byte();
        }
        bytes
    }
}
