//! A single station, call by call.

use super::{message, set_up, threshold};
use acts::act::Act;
use acts::value::{Value, ValueSet};
use coins::TableCoin;
use network::bag::Bag;
use rig::{CallFault, Delivery};

#[test]
fn a_single_station_goes_through_a_stage(rt: HostRuntime) {
    let bag = Bag::new(rt.alloc()).expect(&rt, "there is memory");
    let rule = threshold(&rt, 1, 0, 0);
    let mut rig = set_up(&rt, 1, &[], &[0]).open(rule, bag, TableCoin { table: 0 });
    let (stage, value) = (0, Value::One);
    let heard = |kind| Ok(Delivery {
        message: message(0, 0, kind, 0, 1),
        changed: true,
    });
    assert_eq!(rt; rig.turn(0), Ok(Act::Open { stage, value }));
    assert_eq!(rt; (rig.posted(), rig.waiting()), (1, 1));
    assert_eq!(rt; rig.deliver(0), heard(1));
    assert_eq!(rt; rig.turn(0), Ok(Act::Admit { stage, value }));
    assert_eq!(rt; rig.turn(0), Err(CallFault::NothingDue));
    assert_eq!(rt; rig.is_quiet(), false);
    assert_eq!(rt; rig.deliver(0), heard(2));
    assert_eq!(rt;
        rig.turn(0),
        Ok(Act::Close {
            stage,
            values: ValueSet::Bit(true)
        })
    );
    assert_eq!(rt; rig.stage(0), Ok(1));
    assert_eq!(rt; rig.decision(0), Ok(None));
    assert_eq!(rt; rig.grading(0, 0, 0), Ok(None));
    assert_eq!(rt; (rig.posted(), rig.missing(), rig.waiting()), (2, 0, 0));
}
