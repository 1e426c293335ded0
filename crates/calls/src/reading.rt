//! Calls as bytes.

ghost use Rattle.std.specs.Prelude.{◌≡◌, length};
ghost use Rattle.calls.specs.Format.{encoding, FirstCall, CallsRead};

use crate::call::Call;
use crate::fault::ReadFault;
use agreement::Message;
use std::alloc::Global;

impl Call {
    /// The call with which the bytes begin, if they begin with one.
    pub fn read(bytes: &[u8]) -> Option<Call>
        ensures { FirstCall bytes.now result }
    {
        match bytes {
            [b't', station, ..] => Some(Call::Turn { station: *station }),
            [b'd', hint, ..] => Some(Call::Deliver { hint: *hint }),
            [b'f', sender, addressee, kind, stage, value, ..] => Some(Call::Send {
                message: Message {
                    sender: *sender,
                    addressee: *addressee,
                    kind: *kind,
                    stage: *stage,
                    value: *value,
                },
            }),
            [b'l', hint, ..] => Some(Call::Lose { hint: *hint }),
            _ => None,
        }
    }

    /// How many bytes the call has.
    pub fn width(self) -> usize
        ensures { result ≡ length (encoding self) }
    {
        match self {
            Call::Send { .. } => 6,
            Call::Turn { .. } | Call::Deliver { .. } | Call::Lose { .. } => 2,
        }
    }
}

/// The calls that the bytes are, one after another; or the place of the first that is unknown or cut off.
pub fn read_calls(heap: Global, bytes: &[u8]) -> Result<Vec<Call>, ReadFault>
    ensures { CallsRead bytes.now result }
{
    let mut calls = Vec::new(heap);
    let mut place = 0;
    while place < bytes.len() {
        let call = Call::read(&bytes[place..]).ok_or(ReadFault::Broken { place })?;
        calls.push(call)?;
        place += call.width();
    }
    Ok(calls)
}
