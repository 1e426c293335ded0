//! The bodies of a run file.

/// A body of a run file: the part of the file in which it stands, and no copy.
#[derive(Clone, Copy, PartialEq, Eq, Debug)]
pub enum Body<'a> {
    /// The fault rule.
    Rule(&'a [u8]),
    /// The network, the rounds, who is a guest, and who opens with 1.
    Stations(&'a [u8]),
    /// The coin.
    Coin(&'a [u8]),
    /// The calls.
    Calls(&'a [u8]),
}
