//! What is said of some bodies.

use crate::report;
use std::test::Fail;

#[test]
fn rules_are_told(rt: HostRuntime) -> Result<(), Fail> {
    let made = report(rt.alloc(), &[1, 2, 0, 0])?;
    assert!(rt;
        made.as_str()
            == "Threshold rule; stations: 2
  wide guests: at most 0 of the stations
  narrow guests: at most 0 of the stations

Narrow guests: with them no two own stations may decide differently.
Largest narrow-tolerable guest sets: 1
  {}

Wide guests: with them own stations that open alike must decide as they opened.
Largest wide-tolerable guest sets: 1
  {}
"
    );
    let raised = report(rt.alloc(), &[1, 7, 1, 2])?;
    assert!(rt;
        raised.as_str()
            == "Threshold rule; stations: 7
  wide guests: at most 1 of the stations
  narrow guests: at most 2 of the stations
Refused, number 2: some narrow guests would not be wide guests too.
"
    );
    Ok(())
}

#[test]
fn refused_lists_are_told(rt: HostRuntime) -> Result<(), Fail> {
    let covered = report(rt.alloc(), &[2, 4, 3, 2, 1, 0, 3, 0, 12, 0, 1, 0, 3, 0])?;
    assert!(rt;
        covered.as_str()
            == "Listed rule; stations: 4
  wide guests: any part of one of {0} {0,1} {2,3}
  narrow guests: any part of one of {0} {0,1}
Refused, number 3: these sets, two wide and one narrow, hold all the stations (places count from 0).
  narrow list, place 0: {0}
  wide list, place 1: {0,1}
  wide list, place 2: {2,3}
"
    );
    let lists = report(rt.alloc(), &[2, 4, 0, 1, 16, 0])?;
    assert!(rt;
        lists.as_str()
            == "Listed rule; stations: 4
  wide guests: any part of one of no sets
  narrow guests: any part of one of {4}
Refused, number 4: a list must have 1 to 8 sets, all of stations that the rule has.
"
    );
    Ok(())
}

#[test]
fn other_refusals_are_told(rt: HostRuntime) -> Result<(), Fail> {
    let form = report(rt.alloc(), &[1, 4, 1])?;
    assert!(rt;
        form.as_str()
            == "Refused, number 24: these bytes are not a rule body.
"
    );
    let size = report(rt.alloc(), &[1, 11, 0, 0])?;
    assert!(rt;
        size.as_str()
            == "Threshold rule; stations: 11
  wide guests: at most 0 of the stations
  narrow guests: at most 0 of the stations
Refused, number 1: a rule has 1 to 10 stations.
"
    );
    let reached = report(rt.alloc(), &[1, 3, 1, 1])?;
    assert!(rt;
        reached.as_str()
            == "Threshold rule; stations: 3
  wide guests: at most 1 of the stations
  narrow guests: at most 1 of the stations
Refused, number 3: two sets of wide guests and one of narrow guests could be all the stations.
"
    );
    Ok(())
}
