//! Every refusal, each also before those that come after it.

use super::{ZEROS, message, set_up, threshold};
use network::bag::Bag;
use network::lanes::Lanes;
use rig::{CallFault, Setup, SetupFault};

#[test]
fn a_setup_has_one_to_eight_rounds(rt: HostRuntime) {
    for rounds in 0..=255 {
        let refused = Setup::new(rounds).err();
        let wanted = (rounds == 0 || rounds > 8).then_some(SetupFault::Rounds);
        assert_eq!(rt; refused, wanted);
    }
}

#[test]
fn stations_and_bits_are_looked_at(rt: HostRuntime) {
    let mut setup = set_up(&rt, 1, &[0], &[9]);
    for station in 0..=255 {
        let wanted = (station > 9).then_some(SetupFault::Station);
        assert_eq!(rt; setup.enter_guest(station).err(), wanted);
        assert_eq!(rt; setup.enter_opening(station, 1).err(), wanted);
        assert_eq!(rt; setup.enter_opening(station, 0).err(), wanted);
        let wanted = wanted.unwrap_or(SetupFault::Bit);
        assert_eq!(rt; setup.enter_opening(station, 2), Err(wanted));
        assert_eq!(rt; setup.enter_opening(station, 255), Err(wanted));
    }
}

#[test]
fn calls_are_refused_in_order(rt: HostRuntime) {
    let bag = Bag::new(rt.alloc()).expect(&rt, "there is memory");
    let rule = threshold(&rt, 4, 1, 1);
    let mut rig = set_up(&rt, 2, &[1, 7], &[]).open(rule, bag, ZEROS);
    // Of stations: there is none from 4 on, whether it was entered as a guest or not; 1 is a guest.
    for (station, fault) in [
        (4, CallFault::NoStation),
        (7, CallFault::NoStation),
        (255, CallFault::NoStation),
        (1, CallFault::Guest),
    ] {
        assert_eq!(rt; rig.turn(station), Err(fault));
        assert_eq!(rt; rig.stage(station), Err(fault));
        assert_eq!(rt; rig.decision(station), Err(fault));
        assert_eq!(rt; rig.grading(station, 0, 0), Err(fault));
        assert_eq!(rt; rig.grading(station, 2, 2), Err(fault));
    }
    // There are rounds 0 and 1, and halves 0 and 1.
    for (round, half) in [(2, 0), (0, 2), (255, 255), (1, 128), (64, 1)] {
        assert_eq!(rt; rig.grading(0, round, half), Err(CallFault::NoGrading));
    }
    assert_eq!(rt; rig.grading(0, 1, 1), Ok(None));
    assert_eq!(rt; rig.deliver(0), Err(CallFault::NothingWaits));
    assert_eq!(rt; rig.lose(255), Err(CallFault::NothingWaits));
    // Guests' messages: the sender and the addressee are looked at before whether the sender is a guest.
    for (sender, addressee, fault) in [
        (4, 0, CallFault::NoStation),
        (7, 0, CallFault::NoStation),
        (1, 4, CallFault::NoStation),
        (0, 4, CallFault::NoStation),
        (0, 1, CallFault::OwnSender),
        (3, 3, CallFault::OwnSender),
    ] {
        assert_eq!(rt; rig.send(message(sender, addressee, 9, 99, 99)), Err(fault));
    }
    assert_eq!(rt; (rig.posted(), rig.missing(), rig.waiting()), (0, 0, 0));
}

#[test]
fn a_full_network_refuses_guests(rt: HostRuntime) {
    let lanes = Lanes::new(rt.alloc()).expect(&rt, "there is memory");
    let rule = threshold(&rt, 4, 1, 1);
    let mut rig = set_up(&rt, 2, &[1], &[]).open(rule, lanes, ZEROS);
    for _ in 0..40 {
        assert_eq!(rt; rig.send(message(1, 2, 0, 0, 0)), Ok(()));
    }
    assert_eq!(rt;
        rig.send(message(1, 2, 0, 0, 0)),
        Err(CallFault::TurnedAway)
    );
    assert_eq!(rt; rig.send(message(0, 2, 0, 0, 0)), Err(CallFault::OwnSender));
    assert_eq!(rt; rig.send(message(1, 6, 0, 0, 0)), Err(CallFault::NoStation));
    assert_eq!(rt; rig.send(message(1, 3, 0, 0, 0)), Ok(()));
    assert_eq!(rt; (rig.posted(), rig.missing(), rig.waiting()), (0, 0, 41));
}

#[test]
fn faults_have_numbers_and_words(rt: HostRuntime) {
    for (fault, number, words) in [
        (SetupFault::Rounds, 5, "a rig has 1 to 8 rounds"),
        (SetupFault::Station, 6, "stations are numbered 0 to 9"),
        (SetupFault::Bit, 7, "an opening bit is 0 or 1"),
    ] {
        assert_eq!(rt; fault.number(), number);
        let text = format!(in rt.alloc(); "{fault}").expect(&rt, "there is memory");
        assert_eq!(rt; text.as_str(), words);
    }
    for (fault, number, words) in [
        (CallFault::NoStation, 11, "the rig has no such station"),
        (CallFault::Guest, 12, "the station is a guest"),
        (CallFault::NothingDue, 13, "the station has nothing to do"),
        (CallFault::NothingWaits, 14, "no message waits"),
        (CallFault::OwnSender, 15, "the sender is no guest"),
        (
            CallFault::TurnedAway,
            16,
            "the network turned the message away",
        ),
        (
            CallFault::NoGrading,
            18,
            "the rig has no such round, or the round no such half",
        ),
    ] {
        assert_eq!(rt; fault.number(), number);
        let text = format!(in rt.alloc(); "{fault}").expect(&rt, "there is memory");
        assert_eq!(rt; text.as_str(), words);
    }
}
