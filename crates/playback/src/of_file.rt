//! What is printed of a run file.

ghost use Rattle.std.specs.Prelude.{◌≡◌, ◌++◌, IfOk};
ghost use Rattle.runfile.specs.Faults.{number, place};
ghost use Rattle.transcript.specs.Lines.{refusal_line};
ghost use Rattle.playback.specs.Files.{PrintsSaid, PrintsFile};

use crate::playing::{add_line, play};
use network::bag::Bag;
use network::lanes::Lanes;
use runfile::{FileFault, NetworkKind, RunFile};
use std::alloc::{AllocError, Global};
use transcript::{LINE, put_refusal};

/// What is printed of a run file: the transcript of its calls, or the line of its first fault; or that there is no memory for
/// that.
pub fn printout(heap: Global, file: &[u8]) -> Result<Vec<u8>, AllocError>
    ensures { IfOk result (λ text. PrintsFile file.now text.items) }
{
    match RunFile::read(heap, file) {
        Ok(run) => play_file(heap, run),
        Err(fault) => refusal(heap, fault),
    }
}

// The transcript of what a file says.
fn play_file(heap: Global, run: RunFile) -> Result<Vec<u8>, AllocError>
    ensures { IfOk result (λ text. PrintsSaid run text.items) }
{
    let RunFile {
        rule,
        network,
        setup,
        coin,
        calls,
    } = run;
    let calls = calls.as_slice();
    match network {
        NetworkKind::Bag => {
            let (_, text) = play(heap, setup, rule, Bag::new(heap)?, coin, calls)?;
            Ok(text)
        }
        NetworkKind::Lanes => {
            let (_, text) = play(heap, setup, rule, Lanes::new(heap)?, coin, calls)?;
            Ok(text)
        }
    }
}

// The line of a fault.
fn refusal(heap: Global, fault: FileFault) -> Result<Vec<u8>, AllocError>
    ensures { IfOk result (λ text. text.items ≡ refusal_line (number fault) (place fault)) }
{
    let mut text = Vec::new(heap);
    let mut line = [0; LINE];
    let put = put_refusal(&mut line, fault.number(), fault.place());
    add_line(&mut text, &line, put)?;
    Ok(text)
}
