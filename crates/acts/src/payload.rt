//! What stations say.

ghost use Rattle.std.specs.Prelude.{◌≡◌, ◌*◌, ◌<◌, IfSome, is_some};
ghost use Rattle.agreement.specs.Messages.{message as message_of};
ghost use Rattle.agreement.specs.Station.{is_heeded};
ghost use Rattle.acts.specs.Payloads.{payload_of, Within};

use crate::rounds::Rounds;
use crate::value::Value;
use agreement::Message;

/// What a station says to all stations: that it prepares or proposes a value in a stage, or that it commits a bit.
#[derive(Clone, Copy, PartialEq, Eq, Debug)]
pub enum Payload {
    Prepare { stage: u8, value: Value },
    Propose { stage: u8, value: Value },
    Commit { bit: bool },
}

impl Payload {
    // The kinds of messages.
    const PREPARE: u8 = 1;

    const PROPOSE: u8 = 2;

    const COMMIT: u8 = 3;

    /// What a message says, in a rig of so many stations and rounds; none where it is ignored.
    pub fn from_message(message: Message, size: u8, rounds: Rounds) -> Option<Payload>
        ensures heeded { is_some result ≡ is_heeded size (4 * rounds.count) message }
        ensures says { IfSome result (λ p. message_of message.sender message.addressee (payload_of p) ≡ message) }

        // These two follow, and are said for callers, so that their indices are seen to be in range.
        ensures sender { IfSome result (λ _. message.sender < size) }
        ensures stage { IfSome result (Within (4 * rounds.count)) }
    {
        if message.sender >= size {
            return None;
        }
        let value = Value::from_number(message.value)?;
        let stage = message.stage;
        match (message.kind, value) {
            (Payload::PREPARE, _) if stage < rounds.stages() => {
                Some(Payload::Prepare { stage, value })
            }
            (Payload::PROPOSE, _) if stage < rounds.stages() => {
                Some(Payload::Propose { stage, value })
            }
            (Payload::COMMIT, Value::Zero) if stage == 0 => Some(Payload::Commit { bit: false }),
            (Payload::COMMIT, Value::One) if stage == 0 => Some(Payload::Commit { bit: true }),
            _ => None,
        }
    }

    /// The message by which a station says so to another.
    pub fn to_message(self, sender: u8, addressee: u8) -> Message
        ensures { result ≡ message_of sender addressee (payload_of self) }
    {
        let (kind, stage, value) = match self {
            Payload::Prepare { stage, value } => (Payload::PREPARE, stage, value as u8),
            Payload::Propose { stage, value } => (Payload::PROPOSE, stage, value as u8),
            Payload::Commit { bit } => (Payload::COMMIT, 0, bit as u8),
        };
        Message {
            sender,
            addressee,
            kind,
            stage,
            value,
        }
    }
}
