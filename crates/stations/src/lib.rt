//! Sets of stations.

#![tactic(auto)]

ghost use Rattle.std.specs.Prelude.{◌≡◌, ◌-◌, ◌^◌, ◌<◌, min, ◌++◌, if◌then◌else◌, false, Some, codes, nat_le, nat_lt};
ghost use Rattle.agreement.specs.Sets.{up_to, both, below, outside, without, either, only, inside, every, covers, tally};
ghost use Rattle.stations.specs.Members.{members};
ghost use Rattle.stations.specs.Text.{listed};

use std::fmt;
use std::marker::Model;

/// A set of stations with numbers below 16: a number in which station i counts 2^i.
#[derive(Clone, Copy, PartialEq, Eq, Debug)]
pub struct StationSet {
    bits: u16,
}

/// Clauses see a set as its number, and its stations by `members`.
impl Model for StationSet {
    ghost use Rattle.std.specs.Prelude.{ℕ};

    ghost Value = { ℕ };

    ghost view = { λ x. x.bits };

    ghost inverse = { λ n. record { bits = n } };
}

// The number of the set of all stations below n, and below 16.
fn mask(n: u8) -> u16
    ensures { result ≡ 2 ^ min n 16 - 1 }
{
    if n < 16 { (1 << n) - 1 } else { u16::MAX }
}

/// The set with this number.
impl From<u16> for StationSet {
    ghost from_gives = { λ bits x. x ≡ bits };

    fn from(bits: u16) -> StationSet {
        StationSet { bits }
    }
}

impl StationSet {
    /// The set with no station.
    pub const EMPTY: StationSet = StationSet { bits: 0 };

    /// Whether a station is in the set; none from 16 on is.
    pub fn has(self, station: u8) -> bool
        ensures { result ≡ below 16 (members self) station }
    {
        station < 16 && self.digit(station)
    }

    /// The set with one station more; a station from 16 on adds nothing.
    pub fn with(self, station: u8) -> StationSet
        ensures { members result ≡ (if nat_lt station 16 then either (members self) (only station) else members self) }
    {
        if station < 16 {
            self.union(StationSet::single(station))
        } else {
            self
        }
    }

    /// The set with one station fewer; a station from 16 on is not in it.
    pub fn without(self, station: u8) -> StationSet
        ensures { members result ≡ (if nat_lt station 16 then without (members self) (only station) else members self) }
    {
        if station < 16 {
            self.difference(StationSet::single(station))
        } else {
            self
        }
    }

    /// Puts a station into the set, and answers whether it is new there; a station from 16 on is not put in.
    pub fn insert(&mut self, station: u8) -> bool
        ensures members { members self.new ≡ (if nat_lt station 16 then either (members self.old) (only station) else members self.old) }
        ensures is_new { result ≡ below 16 (outside (members self.old)) station }
        ensures unchanged { result ≡ false → self.new ≡ self.old }
    {
        if station >= 16 || self.has(station) {
            return false;
        }
        *self = self.with(station);
        true
    }

    /// The stations of the set below n.
    pub fn up_to(self, n: u8) -> StationSet
        ensures { members result ≡ below (min n 16) (members self) }
    {
        StationSet::all(n).intersection(self)
    }

    /// The stations below n, and below 16, that are not in the set.
    pub fn rest(self, n: u8) -> StationSet
        ensures { members result ≡ below (min n 16) (outside (members self)) }
    {
        StationSet::all(n).difference(self)
    }

    /// Whether at most so many of the stations below n are in the set.
    pub fn has_at_most(self, most: u8, n: u8) -> bool
        ensures { result ≡ nat_le (tally n (members self)) most }
    {
        self.count(n) <= most as u32
    }

    /// Whether each station below n that is in this set is in the other too.
    pub fn is_inside(self, other: StationSet, n: u8) -> bool
        ensures { result ≡ inside n (members self) (members other) }
    {
        self.difference(other).has_none(n)
    }

    /// Whether the set has no station from n on: its number is below 2^n.
    pub fn is_below(self, n: u8) -> bool
        ensures { result ≡ nat_lt self (2 ^ min n 16) }
    {
        n >= 16 || self.bits < 1 << n
    }

    /// Whether every station below n is in one of three sets.
    pub fn cover(x: StationSet, y: StationSet, z: StationSet, n: u8) -> bool
        ensures { result ≡ covers n (members x) (members y) (members z) }
    {
        x.union(y.union(z)).has_all(n)
    }

    // Below 16, here and in `single`: the public functions take any byte, so a type for it would serve these two alone.
    fn digit(self, station: u8) -> bool
        requires { station < 16 }
        ensures { result ≡ members self station }
    {
        (self.bits >> station) & 1 == 1
    }

    fn single(station: u8) -> StationSet
        requires { station < 16 }
        ensures { members result ≡ only station }
    {
        StationSet { bits: 1 << station }
    }

    fn all(n: u8) -> StationSet
        ensures { members result ≡ up_to (min n 16) }
    {
        StationSet { bits: mask(n) }
    }

    fn union(self, other: StationSet) -> StationSet
        ensures { members result ≡ either (members self) (members other) }
    {
        StationSet {
            bits: self.bits | other.bits,
        }
    }

    fn intersection(self, other: StationSet) -> StationSet
        ensures { members result ≡ both (members self) (members other) }
    {
        StationSet {
            bits: self.bits & other.bits,
        }
    }

    /// The stations of this set that are not in the other.
    pub fn difference(self, other: StationSet) -> StationSet
        ensures stations { members result ≡ without (members self) (members other) }
        ensures by_both { members result ≡ both (members self) (outside (members other)) }
    {
        StationSet {
            bits: self.bits & !other.bits,
        }
    }

    fn count(self, n: u8) -> u32
        ensures { result ≡ tally n (members self) }
    {
        (self.bits & mask(n)).count_ones()
    }

    fn has_none(self, n: u8) -> bool
        ensures { result ≡ every n (outside (members self)) }
    {
        self.bits & mask(n) == 0
    }

    fn has_all(self, n: u8) -> bool
        ensures { result ≡ every n (members self) }
    {
        n <= 16 && !self.bits & mask(n) == 0
    }
}

/// The stations in ascending order, as `{0,3}`.
impl fmt::Display for StationSet {
    ghost output = { λ x. Some (codes "{" ++ (listed 16 (members x) ++ codes "}")) };

    fn fmt<W: fmt::Write>(&self, f: &mut fmt::Formatter<W>) -> fmt::Result {
        write!(f, "{{")?;
        let mut comma = "";
        // No filter: a loop over one doesn't prove in a function with a type parameter, and a helper is no plainer.
        for station in 0..16u8 {
            if self.has(station) {
                write!(f, "{comma}{station}")?;
                comma = ",";
            }
        }
        write!(f, "}}")
    }
}
