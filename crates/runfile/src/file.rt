//! Reading a run file.

ghost use Rattle.std.specs.Prelude.{◌≡◌, ◌+◌, ◌≤◌, length};
ghost use Rattle.runfile.specs.Rules.{RuleRead};
ghost use Rattle.runfile.specs.Parts.{RulePart, StationsPart, CoinPart, CallsPart};
ghost use Rattle.runfile.specs.Files.{FileRead};

use crate::body::Body;
use crate::coin::FileCoin;
use crate::contents::{CONTENTS, bodies};
use crate::fault::{FileFault, Placed};
use crate::station_body::{NetworkKind, Stations};
use calls::call::Call;
use calls::fault::ReadFault;
use calls::reading::read_calls;
use faults::fault::Fault;
use rig::Setup;
use rulebody::body::RuleBody;
use rulebody::rule::Rule;
use std::alloc::Global;

/// What a run file says: what a rig is opened with, and the calls to make.
#[derive(Drop)]
pub struct RunFile {
    /// The fault rule.
    pub rule: Rule,
    /// Which network carries the messages.
    pub network: NetworkKind,
    /// The rounds, the guests, and who opens with 1.
    pub setup: Setup,
    /// The coin.
    pub coin: FileCoin,
    /// The calls, in their order.
    pub calls: Vec<Call>,
}

// The rule that a body says, or its first fault.
fn read_rule(heap: Global, body: &[u8]) -> Result<Rule, Fault>
    ensures { RuleRead body.now result }
{
    RuleBody::read(heap, body)?.make(heap)
}

// The rule that the body at a place says.
fn rule_at(heap: Global, body: &[u8], place: u16) -> Result<Rule, FileFault>
    ensures { RulePart body.now place result }
{
    Ok(read_rule(heap, body).map_err(|fault| Placed { fault, place })?)
}

// The network and the setup that the body at a place says.
fn stations_at(body: &[u8], place: u16) -> Result<(NetworkKind, Setup), FileFault>
    ensures { StationsPart body.now place result }
{
    let stations = Stations::read(body).ok_or(FileFault::Form { place })?;
    let setup = stations.setup().map_err(|fault| Placed { fault, place })?;
    Ok((stations.network, setup))
}

// The coin that the body at a place says.
fn coin_at(body: &[u8], place: u16) -> Result<FileCoin, FileFault>
    ensures { CoinPart body.now place result }
{
    FileCoin::read(body).ok_or(FileFault::Form { place })
}

// The calls that the body at a place says.
fn calls_at(heap: Global, body: &[u8], place: u16) -> Result<Vec<Call>, FileFault>
    requires { place + length body.now ≤ 40000 }
    ensures { CallsPart body.now place result }
{
    match read_calls(heap, body) {
        Ok(calls) => Ok(calls),
        Err(ReadFault::Broken { place: k }) => Err(FileFault::Call {
            place: place + k as u16,
        }),
        Err(ReadFault::Memory) => Err(FileFault::Memory { place }),
    }
}

impl RunFile {
    /// What the file says; or its first fault, and where that is.
    pub fn read(heap: Global, file: &[u8]) -> Result<RunFile, FileFault>
        ensures { FileRead file.now result }
    {
        let (
            Body::Rule(rule_body),
            Body::Stations(stations_body),
            Body::Coin(coin_body),
            Body::Calls(calls_body),
        ) = bodies(file)?
        else {
            unreachable!()
        };
        let mut place = CONTENTS as u16;
        let rule = rule_at(heap, rule_body, place)?;
        place += rule_body.len() as u16;
        let (network, setup) = stations_at(stations_body, place)?;
        place += stations_body.len() as u16;
        let coin = coin_at(coin_body, place)?;
        place += coin_body.len() as u16;
        let calls = calls_at(heap, calls_body, place)?;
        Ok(RunFile {
            rule,
            network,
            setup,
            coin,
            calls,
        })
    }
}
