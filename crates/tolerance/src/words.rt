//! Rules, guests and refusals in words.

use faults::fault::Fault;
use faults::rule::Sense;
use rulebody::body::RuleBody;
use stations::StationSet;
use std::fmt;

/// What a body says.
#[derive(Clone, Copy)]
pub(crate) struct Body<'a>(pub(crate) &'a RuleBody);

impl fmt::Display for Body<'_> {
    fn fmt<W: fmt::Write>(&self, f: &mut fmt::Formatter<W>) -> fmt::Result {
        match self.0 {
            RuleBody::Threshold { n, s, a } => {
                writeln!(f, "Threshold rule; stations: {n}")?;
                writeln!(f, "  wide guests: at most {s} of the stations")?;
                writeln!(f, "  narrow guests: at most {a} of the stations")
            }
            RuleBody::Listed { n, wide, narrow } => {
                writeln!(f, "Listed rule; stations: {n}")?;
                for (sense, sets) in [(Sense::Wide, wide), (Sense::Narrow, narrow)] {
                    write!(f, "{}", List { sense, sets })?;
                }
                Ok(())
            }
        }
    }
}

// Not one type with `Largest`: each says another thing of its sets, and shows them in another way.
/// Which guests a list tolerates in a sense.
#[derive(Clone, Copy)]
pub(crate) struct List<'a> {
    pub(crate) sense: Sense,
    pub(crate) sets: &'a [StationSet],
}

impl fmt::Display for List<'_> {
    fn fmt<W: fmt::Write>(&self, f: &mut fmt::Formatter<W>) -> fmt::Result {
        write!(f, "  {} guests: any part of one of", self.sense)?;
        if self.sets.is_empty() {
            write!(f, " no sets")?;
        }
        for set in self.sets {
            write!(f, " {set}")?;
        }
        writeln!(f)
    }
}

/// The largest sets of guests that a rule tolerates in a sense.
#[derive(Clone, Copy)]
pub(crate) struct Largest<'a> {
    pub(crate) sense: Sense,
    pub(crate) sets: &'a [StationSet],
}

impl fmt::Display for Largest<'_> {
    fn fmt<W: fmt::Write>(&self, f: &mut fmt::Formatter<W>) -> fmt::Result {
        let meaning = match self.sense {
            Sense::Narrow => "Narrow guests: with them no two own stations may decide differently.",
            Sense::Wide =>
                "Wide guests: with them own stations that open alike must decide as they opened.",
        };
        writeln!(f)?;
        writeln!(f, "{meaning}")?;
        writeln!(
            f,
            "Largest {}-tolerable guest sets: {}",
            self.sense,
            self.sets.len()
        )?;
        for set in self.sets {
            writeln!(f, "  {set}")?;
        }
        Ok(())
    }
}

/// Why a rule is refused.
#[derive(Clone, Copy)]
pub(crate) struct Refusal(pub(crate) Fault);

impl fmt::Display for Refusal {
    fn fmt<W: fmt::Write>(&self, f: &mut fmt::Formatter<W>) -> fmt::Result {
        writeln!(f, "Refused, number {}: {}.", self.0.number(), self.0)
    }
}

/// The sets that hold every station, where that is why the rule of a body is refused and its lists have them: each by its
/// place and by what is in it.
#[derive(Clone, Copy)]
pub(crate) struct Cover<'a> {
    pub(crate) body: &'a RuleBody,
    pub(crate) fault: Fault,
}

impl fmt::Display for Cover<'_> {
    fn fmt<W: fmt::Write>(&self, f: &mut fmt::Formatter<W>) -> fmt::Result {
        if let (Fault::CoveredBy(three), RuleBody::Listed { wide, narrow, .. }) = (
            self.fault, self.body,
        ) {
            let (first, second) = three.wide;
            for (sense, list, place) in [
                (Sense::Narrow, narrow, three.narrow),
                (Sense::Wide, wide, first),
                (Sense::Wide, wide, second),
            ] {
                if let Some(set) = list.get(place) {
                    writeln!(f, "  {sense} list, place {place}: {set}")?;
                }
            }
        }
        Ok(())
    }
}
