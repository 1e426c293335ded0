//! Coins: a bit for each round, the same for all stations.

#![tactic(auto)]

ghost use Rattle.std.specs.Prelude.{◌≡◌, ℕ, Bool};
ghost use Rattle.coins.specs.Bits.{table_bit, seed_bit};

/// A coin is a bit for each of the rounds 0 to 7, which are all that a rig is set up with. Any other number of a round
/// has a bit too, so that a toss answers always.
pub trait Coin {
    // The bit of each round.
    ghost bits: { Self → ℕ → Bool };

    /// The round's bit. A toss changes nothing: the same round has the same bit again.
    fn toss(&self, round: u8) -> bool
        ensures { result ≡ bits self.now round };
}

/// A coin by a table of a byte: bit r for round r, and 0 from round 8 on.
#[derive(Clone, Copy, PartialEq, Eq, Debug)]
pub struct TableCoin {
    pub table: u8,
}

impl Coin for TableCoin {
    ghost bits = { λ c. table_bit c.table };

    fn toss(&self, round: u8) -> bool {
        self.table.unbounded_shr(round as u32) % 2 == 1
    }
}

/// A coin by a seed of 64 bits, for any number of rounds.
#[derive(Clone, Copy, PartialEq, Eq, Debug)]
pub struct SeedCoin {
    pub seed: u64,
}

impl SeedCoin {
    /// 2^64 over the golden ratio, rounded down: its multiples spread over the numbers of 64 bits.
    const STEP: u64 = 11400714819323198485;

    /// By how many places a number is rotated left before it meets itself.
    const ROTATION: u32 = 29;
}

impl Coin for SeedCoin {
    ghost bits = { λ c. seed_bit c.seed };

    fn toss(&self, round: u8) -> bool {
        let steps = SeedCoin::STEP.wrapping_mul(round as u64 + 1);
        let mixed = self.seed.wrapping_add(steps);
        (mixed & mixed.rotate_left(SeedCoin::ROTATION)).count_ones() % 2 == 1
    }
}

#[cfg(test)]
mod tests;
