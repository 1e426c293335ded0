//! Cases worked by hand: one table that is proved, and more that are run as tests.

#![tactic(auto)]

ghost use Rattle.worked.specs.Cases.{AllCome, table};

/// Every case of the table comes to what it says.
pub fn worked_cases()
    ensures { AllCome table }
{}

#[cfg(test)]
mod tests;
