//! Calls that are made and written.

ghost use Rattle.std.specs.Prelude.{◌≡◌, ◌<◌, ◌↔◌, length, IsErr, IfOk, OnErr};
ghost use Rattle.transcript.specs.Playing.{LinePlayed};

use crate::fault::LineFault;
use crate::lines::{check_room, put_answer};
use calls::call::Call;
use coins::Coin;
use faults::rule::FaultRule;
use network::Network;
use rig::Rig;

/// Makes a call of a rig, and puts its line at the beginning of a buffer; what stands after it stays. A buffer of fewer than
/// 32 bytes is refused before the call is made.
pub fn play_call<F: FaultRule, N: Network, C: Coin>(
    rig: &mut Rig<F, N, C>,
    call: Call,
    buffer: &mut [u8],
) -> Result<usize, LineFault>
    ensures short { IsErr result ↔ length buffer.old < 32 }
    ensures rig { OnErr result (rig.new ≡ rig.old) }
    ensures buffer { OnErr result (buffer.new ≡ buffer.old) }
    ensures line { IfOk result (λ n. LinePlayed call n rig.old rig.new buffer.old buffer.new) }
{
    check_room(buffer)?;
    let made = call.make(rig);
    put_answer(buffer, call, made)
}
