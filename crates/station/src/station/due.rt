//! Which act is due.

ghost use Rattle.std.specs.Prelude.{◌≡◌, ℕ, Bool, ◌*◌, ◌<◌, ◌≤◌, min, ◌+◌};
ghost use Rattle.station.specs.Stations.{read};
ghost use Rattle.station.specs.Turns.{rules_of, FirstBit, decides, FirstIn, DueOrIdle};

use super::Station;
use acts::act::Act;
use acts::rounds::Rounds;
use faults::rule::FaultRule;

impl Station {
    /// The act that is due, if any applies: the first by stages, rules 1 to 4 and values; rule 5 is tried last.
    pub(super) fn due<F: FaultRule>(&self, rule: &F, rounds: Rounds) -> Option<Act>
        ensures { (coin : ℕ → Bool)
            → DueOrIdle (rules_of (F.families rule.now) rounds.count coin) (read self.now) result }
    {
        for stage in 0..self.reached(rounds) {
            if let Some(act) = self.due_in(rule, stage) {
                return Some(act);
            }
        }
        let bit = self.first_to_decide(rule)?;
        Some(Act::Decide { bit })
    }

    // How many stages the station has come to.
    fn reached(&self, rounds: Rounds) -> u8
        ensures { result ≡ min (4 * rounds.count) (self.now.current + 1) }
    {
        rounds.stages().min(self.current.saturating_add(1))
    }

    // The first act of a stage that applies, by rules 1 to 4.
    fn due_in<F: FaultRule>(&self, rule: &F, stage: u8) -> Option<Act>
        requires { (stage < 32) × (stage ≤ self.now.current) }
        ensures { FirstIn (F.families rule.now) (read self.now) stage result }
    {
        let record = &self.stages[stage as usize];
        let is_current = stage == self.current;
        if is_current && let Some(act) = record.opening(stage) {
            return Some(act);
        }
        if let Some(act) = record.serving(rule, stage) {
            return Some(act);
        }
        if is_current {
            record.closing(rule, stage)
        } else {
            None
        }
    }

    // The first bit that rule 5 decides.
    fn first_to_decide<F: FaultRule>(&self, rule: &F) -> Option<bool>
        ensures { FirstBit (decides (F.families rule.now) self.now) result }
    {
        if self.decision.is_some() {
            return None;
        }
        let place = self
            .committers
            .iter()
            .position(|committers| rule.is_blocking(*committers))?;
        Some(place == 1)
    }
}
