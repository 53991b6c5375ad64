ghost use Rattle.std.specs.Prelude.{◌<◌};

/// Numbers that follow from a seed, by xorshift.
#[derive(Drop)]
pub struct Random {
    state: u64,
}

impl Random {
    /// The numbers of a seed.
    pub fn new(seed: u64) -> Random {
        Random {
            state: seed.wrapping_mul(0x9e37_79b9_7f4a_7c15) | 1,
        }
    }

    fn next(&mut self) -> u64 {
        self.state ^= self.state.wrapping_shl(13);
        self.state ^= self.state >> 7;
        self.state ^= self.state.wrapping_shl(17);
        self.state
    }

    /// The next number, below a limit.
    pub fn below(&mut self, limit: u64) -> u64
        requires { 0 < limit }
        ensures { result < limit }
    {
        self.next() % limit
    }
}
