use pg_interval::Interval;

/// Numbers from a seed, one after another: the generator splitmix64.
#[derive(Drop)]
pub struct Draw {
    state: u64,
}

impl Draw {
    /// The generator that starts at the seed.
    pub fn new(seed: u64) -> Draw {
        Draw { state: seed }
    }

    /// The next number.
    fn number(&mut self) -> u64 {
        self.state = self.state.wrapping_add(0x9e37_79b9_7f4a_7c15);
        let mut z = self.state;
        z = (z ^ (z >> 30)).wrapping_mul(0xbf58_476d_1ce4_e5b9);
        z = (z ^ (z >> 27)).wrapping_mul(0x94d0_49bb_1331_11eb);
        z ^ (z >> 31)
    }

    /// A signed number of 64 bits, small ones as likely as large ones.
    fn signed(&mut self) -> i64 {
        let shift = self.number() % 64;
        i64::from_be_bytes(self.number().to_be_bytes()) >> shift
    }

    /// The same, of 32 bits.
    fn signed_half(&mut self) -> i32 {
        let shift = self.number() % 32;
        ((i64::from_be_bytes(self.number().to_be_bytes()) >> 32) as i32) >> shift
    }

    /// The next interval, of any size and any signs.
    pub fn interval(&mut self) -> Interval {
        let months = self.signed_half();
        let days = self.signed_half();
        Interval::new(months, days, self.signed())
    }

    /// A number within a thousand, of either sign.
    fn thousand(&mut self) -> i32 {
        (self.number() % 2001) as i32 - 1000
    }

    /// The next small interval: months and days within a thousand, and a time within 2 ^ 30
    /// microseconds, which are 18 minutes.
    pub fn small_interval(&mut self) -> Interval {
        let months = self.thousand();
        let days = self.thousand();
        let microseconds = (self.number() % 0x8000_0001) as i64 - 0x4000_0000;
        Interval::new(months, days, microseconds)
    }
}
