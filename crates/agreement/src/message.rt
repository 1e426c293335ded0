//! What stations send one another.

/// A message: five one-byte fields. Its kind is 1 for prepare, 2 for propose and 3 for commit; stations that follow
/// the rules send no other.
#[derive(Clone, Copy, Debug, PartialEq, Eq)]
pub struct Message {
    pub sender: u8,
    pub addressee: u8,
    // A number and no enum: a guest may send any byte as a kind, and it travels as it was sent.
    pub kind: u8,
    pub stage: u8,
    // A number and no `Option` of a bit: a guest may send any byte as a value too.
    pub value: u8,
}
