//! The questions. They change nothing.

ghost use Rattle.std.specs.Prelude.{◌≡◌, ◌+◌, ◌*◌, ◌^◌, ◌≤◌, ◌↔◌, true, min, length, option_map, IfOk};
ghost use Rattle.agreement.specs.Station.{bit as bit_number, size};
ghost use Rattle.agreement.specs.Law.{grading_in, Quiet};
ghost use Rattle.acts.specs.Gradings.{in_numbers};
ghost use Rattle.std.specs.Result.{result_err};
ghost use Rattle.rig.specs.Calls.{station_fault, grading_fault};
ghost use Rattle.rig.specs.Rigs.{setting, view};

use super::Rig;
use crate::fault::CallFault;
use acts::rounds::Rounds;
use acts::value::Grading;
use coins::Coin;
use faults::rule::FaultRule;
use network::Network;
use station::station::Station;

impl<F: FaultRule, N: Network, C: Coin> Rig<F, N, C> {
    /// The current stage of an own station; four times the number of rounds where it has finished.
    pub fn stage(&self, station: u8) -> Result<u8, CallFault>
        ensures fault { result_err result ≡ station_fault (setting self.now) station }
        ensures stage { IfOk result (λ s. s ≡ ((view self.now).station station).stage) }
    {
        self.check_own(station)?;
        Ok(self.stations.record(station).stage())
    }

    /// The grading that an own station made in a round: in half 0, after quarter 1, or in half 1, after quarter 3. None
    /// where it has not made it yet.
    pub fn grading(&self, station: u8, round: u8, half: u8) -> Result<Option<Grading>, CallFault>
        ensures fault { result_err result ≡ grading_fault (setting self.now) station round half }
        ensures grading { IfOk result (λ x. option_map in_numbers x ≡ grading_in (view self.now) station round half) }
    {
        self.check_own(station)?;
        if round >= self.setup.rounds.count || half > 1 {
            return Err(CallFault::NoGrading);
        }
        let stage = Rounds::QUARTERS * round + 2 * half + 1;
        Ok(self.stations.record(station).grading(stage))
    }

    /// The bit that an own station decided. None where it has not decided yet.
    pub fn decision(&self, station: u8) -> Result<Option<bool>, CallFault>
        ensures fault { result_err result ≡ station_fault (setting self.now) station }
        ensures decision { IfOk result (λ b. option_map bit_number b ≡ ((view self.now).station station).decision) }
    {
        self.check_own(station)?;
        Ok(self.stations.record(station).decision())
    }

    /// How many messages turns handed to the network, also those that it turned away.
    pub fn posted(&self) -> u16
        ensures count { result ≡ (view self.now).posted }
        ensures bound { result ≤ size (setting self.now).rules ^ 2 * (16 * (setting self.now).rounds + 1) }
    {
        self.posted
    }

    /// How many messages from own to own stations were turned away in a turn or lost; it stops at 4,294,967,295.
    pub fn missing(&self) -> u32
        ensures { result ≡ (view self.now).missing }
    {
        self.missing
    }

    /// How many messages wait, or 65,535 if more do.
    pub fn waiting(&self) -> u16
        ensures { result ≡ min 65535 (length (N.net.waiting self.now.network)) }
    {
        self.network.count()
    }

    /// Whether the rig is quiet: no message from an own to an own station waits, and no act applies at an own station.
    pub fn is_quiet(&self) -> bool
        ensures { (result ≡ true) ↔ Quiet N.net (setting self.now) (view self.now) }
    {
        self.under_way == 0
            && self
                .stations
                .is_idle(&self.rule, self.setup.rounds, self.own())
    }
}
