//! What every fault rule is asked, and promises.

ghost use Rattle.std.specs.Prelude.{◌≡◌, Some, not};
ghost use Rattle.agreement.specs.Sets.{outside};
ghost use Rattle.agreement.specs.Families.{Families, Laws};
ghost use Rattle.stations.specs.Members.{members};
ghost use Rattle.faults.specs.Sizes.{Sized};
ghost use Rattle.faults.specs.Senses.{family, name, IgnoresOthers};

use stations::StationSet;
use std::fmt;

/// The two senses in which guests are tolerated. Own stations are those that are no guests and follow the
/// protocol; a station opens a cue with a bit. Wide: own stations that all open with one bit decide it.
/// Narrow: besides, no two own stations decide differently.
#[derive(Clone, Copy, Debug, PartialEq, Eq)]
pub enum Sense {
    Wide,
    Narrow,
}

/// The sense in a word, as `wide`.
impl fmt::Display for Sense {
    ghost output = { λ s. Some (name s) };

    fn fmt<W: fmt::Write>(&self, f: &mut fmt::Formatter<W>) -> fmt::Result {
        f.write_str(match self {
            Sense::Wide => "wide",
            Sense::Narrow => "narrow",
        })
    }
}

/// A fault rule: which sets of stations may be guests. Stations from its size on do not count, and a
/// question changes nothing.
pub trait FaultRule {
    ghost families: { Self → Families };

    /// How many stations there are.
    fn size(&self) -> u8
        ensures { result ≡ (families self.now).n };

    /// Whether a set is tolerable in one of the two senses.
    fn tolerates(&self, sense: Sense, x: StationSet) -> bool
        ensures { result ≡ family (families self.now) sense (members x) };

    /// Whether a set is wide-tolerable.
    fn is_wide(&self, x: StationSet) -> bool
        ensures { result ≡ (families self.now).wide (members x) }
    {
        self.tolerates(Sense::Wide, x)
    }

    /// Whether a set is narrow-tolerable.
    fn is_narrow(&self, x: StationSet) -> bool
        ensures { result ≡ (families self.now).narrow (members x) }
    {
        self.tolerates(Sense::Narrow, x)
    }

    /// Whether a set is blocking: not wide-tolerable.
    fn is_blocking(&self, x: StationSet) -> bool
        ensures { result ≡ not ((families self.now).wide (members x)) }
    {
        !self.is_wide(x)
    }

    /// Whether a set is a quorum: the stations outside it are wide-tolerable.
    #[tactic(auto, using(crate::specs::RuleLaws::wide_of_others))]
    fn is_quorum(&self, x: StationSet) -> bool
        ensures { result ≡ (families self.now).wide (outside (members x)) }
    {
        self.is_wide(x.rest(self.size()))
    }

    ghost sized: { (f : Self) → Sized (families f).n };

    ghost laws: { (f : Self) → Laws (families f) };
}

/// Every fault rule has one to ten stations, keeps the four laws, and ignores every other station.
pub fn keeps_laws<F: FaultRule>(rule: &F)
    ensures sized { Sized (F.FaultRule.families rule.now).n }
    ensures laws { Laws (F.FaultRule.families rule.now) }
    ensures ignores_others { IgnoresOthers (F.FaultRule.families rule.now) }
{}
