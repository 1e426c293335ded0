//! Playing calls on a rig.

ghost use Rattle.std.specs.Prelude.{◌≡◌, ◌++◌, ◌≤◌, map, take, Some, IfOk};
ghost use Rattle.std.specs.Result.{IsOkAnd};
ghost use Rattle.transcript.specs.Lines.{missing_line};
ghost use Rattle.calls.specs.Calls.{call_of};
ghost use Rattle.rig.specs.Settings.{setting_of};
ghost use Rattle.playback.specs.Runs.{PrintsRun};
ghost use Rattle.playback.specs.Playing.{PrintsCalls, AddsCall};
ghost use Rattle.playback.specs.Outcomes.{noted_line, outcome_lines};

use calls::call::Call;
use coins::Coin;
use faults::rule::FaultRule;
use network::Network;
use rig::{Outcome, Rig, Setup, StationOutcome};
use std::alloc::{AllocError, Global};
use transcript::{LINE, LineFault, play_call, put_missing, put_station};

/// Opens a rig, makes every call of a list, and closes it: the network as the rig left it, and the transcript; or that there
/// is no memory for it.
pub fn play<F: FaultRule + Drop, N: Network + Drop, C: Coin + Drop>(
    heap: Global,
    setup: Setup,
    rule: F,
    network: N,
    coin: C,
    calls: &[Call],
) -> Result<(N, Vec<u8>), AllocError>
    ensures { IfOk result (λ played. PrintsRun N.net network
        (setting_of (F.families rule) setup (C.bits coin)) (map call_of calls.now) played.0 played.1.items) }
{
    let mut rig = setup.open(rule, network, coin);
    let mut text = play_calls(heap, &mut rig, calls)?;
    let (network, outcome) = rig.close();
    add_outcome(&mut text, &outcome)?;
    Ok((network, text))
}

// Makes every call of a list, and answers their lines.
fn play_calls<F: FaultRule, N: Network, C: Coin>(
    heap: Global,
    rig: &mut Rig<F, N, C>,
    calls: &[Call],
) -> Result<Vec<u8>, AllocError>
    ensures { IfOk result (λ text. PrintsCalls (map call_of calls.now) text.items rig.old rig.new) }
{
    let mut text = Vec::new(heap);
    for call in calls {
        add_call(&mut text, rig, *call)?;
    }
    Ok(text)
}

// Makes a call, and adds its line.
fn add_call<F: FaultRule, N: Network, C: Coin>(
    text: &mut Vec<u8>,
    rig: &mut Rig<F, N, C>,
    call: Call,
) -> Result<(), AllocError>
    ensures { IfOk result (λ _. AddsCall call text.old.items text.new.items rig.old rig.new) }
{
    let mut line = [0; LINE];
    let put = play_call(rig, call, &mut line);
    add_line(text, &line, put)
}

// Adds the last lines: of the own stations, and of what is missing.
fn add_outcome(text: &mut Vec<u8>, outcome: &Outcome) -> Result<(), AllocError>
    ensures { IfOk result (λ _. text.new.items ≡ text.old.items ++ outcome_lines outcome.now) }
{
    for (station, told) in outcome.stations.iter().enumerate() {
        if let Some(told) = told {
            add_station(text, station as u8, told)?;
        }
    }
    add_missing(text, outcome.missing)?;
    Ok(())
}

// Adds the line of what is missing.
fn add_missing(text: &mut Vec<u8>, missing: u32) -> Result<(), AllocError>
    ensures { IfOk result (λ _. text.new.items ≡ text.old.items ++ missing_line missing) }
{
    let mut line = [0; LINE];
    let put = put_missing(&mut line, missing);
    add_line(text, &line, put)
}

// Adds the line of a station.
fn add_station(text: &mut Vec<u8>, station: u8, outcome: &StationOutcome) -> Result<(), AllocError>
    ensures { IfOk result (λ _. text.new.items ≡ text.old.items ++ noted_line station (Some outcome.now)) }
{
    let mut line = [0; LINE];
    let put = put_station(&mut line, station, outcome);
    add_line(text, &line, put)
}

/// Adds the line that was put into a buffer, which is long enough for each.
pub(crate) fn add_line(
    text: &mut Vec<u8>,
    line: &[u8; LINE],
    put: Result<usize, LineFault>,
) -> Result<(), AllocError>
    requires { IsOkAnd put (λ n. n ≤ 32) }
    ensures { IfOk result (λ _. IfOk put (λ n. text.new.items ≡ text.old.items ++ take n line.now)) }
{
    text.extend_from_slice(&line[..put.unwrap()])?;
    Ok(())
}
