//! The coin of a run file.

ghost use Rattle.runfile.specs.Coins.{bits, CoinRead};

use coins::{Coin, SeedCoin, TableCoin};

/// A coin of one of the two kinds that a run file can have.
#[derive(Clone, Copy, PartialEq, Eq, Debug)]
pub enum FileCoin {
    Table(TableCoin),
    Seed(SeedCoin),
}

impl Coin for FileCoin {
    ghost bits = { bits };

    fn toss(&self, round: u8) -> bool {
        match self {
            FileCoin::Table(coin) => coin.toss(round),
            FileCoin::Seed(coin) => coin.toss(round),
        }
    }
}

impl FileCoin {
    /// The coin that stands in a body: a table of one byte, or a seed of eight; none where the body has another length.
    pub fn read(body: &[u8]) -> Option<FileCoin>
        ensures { CoinRead body.now result }
    {
        match body {
            [table] => Some(FileCoin::Table(TableCoin { table: *table })),
            [a, b, c, d, e, f, g, h] => {
                let seed = u64::from_le_bytes([*a, *b, *c, *d, *e, *f, *g, *h]);
                Some(FileCoin::Seed(SeedCoin { seed }))
            }
            _ => None,
        }
    }
}
