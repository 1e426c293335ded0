//! Making the rule of a body.

ghost use Rattle.rulebody.specs.Making.{BodyMade};

use crate::body::RuleBody;
use crate::rule::Rule;
use faults::fault::Fault;
use faults::listed::Listed;
use faults::threshold::Threshold;
use std::alloc::Global;

impl RuleBody {
    /// The rule that the body says, or its first fault.
    pub fn make(&self, heap: Global) -> Result<Rule, Fault>
        ensures { BodyMade self.now result }
    {
        // No `map`: it copies the result several times.
        match self {
            RuleBody::Threshold { n, s, a } => Ok(Rule::Threshold(Threshold::new(*n, *s, *a)?)),
            RuleBody::Listed { n, wide, narrow } => {
                Ok(Rule::Listed(Listed::new(heap, *n, wide, narrow)?))
            }
        }
    }
}
