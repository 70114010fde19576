//! Worked examples of stored policies and of routing.

ghost use Rattle.std.specs.Prelude.{◌≡◌, ◌<◌, ◌^◌};
ghost use Rattle.split_leg.specs.Routing.{chosen};

use dc_base::{Cell, LegSet, Octets, Shape};
use split_leg::{Choice, Legs, Policies, Policy, Route, SentAs};
use std::alloc::Global;
use std::process::Abort;
use std::test::Fail;

#[test]
fn choices_and_routes_of_stored_policies(rt: HostRuntime) -> Result<(), Fail> {
    let even = Box::new(
        rt.alloc(),
        |mcg: u64, scg: u64| -> Choice
            requires { (mcg < 2 ^ 48) × (scg < 2 ^ 48) }
            ensures { result ≡ chosen (record { plus = 0; minus = 1 }) mcg scg }
        {
            if scg + 1 <= mcg {
                Choice::Scg
            } else {
                Choice::Mcg
            }
        },
    )?;
    let second = Box::new(
        rt.alloc(),
        |mcg: u64, scg: u64| -> Choice
            requires { (mcg < 2 ^ 48) × (scg < 2 ^ 48) }
            ensures { result ≡ chosen (record { plus = 100000; minus = 0 }) mcg scg }
        {
            if scg <= mcg + 100_000 {
                Choice::Scg
            } else {
                Choice::Mcg
            }
        },
    )?;
    let mut list = Vec::new(rt.alloc());
    list.push(Policy::new(Octets::new(rt.alloc()), 0, 1, even))
        .map_err(|_| "memory")?;
    list.push(Policy::new(Octets::new(rt.alloc()), 100_000, 0, second))
        .map_err(|_| "memory")?;
    let policies = Policies::new(list);
    assert_eq!(rt; policies.len(), 2);
    assert_eq!(rt; policies.choose(0, 0, 0), Choice::Mcg);
    assert_eq!(rt; policies.choose(0, 5, 4), Choice::Scg);
    assert_eq!(rt; policies.choose(1, 10, 100_010), Choice::Scg);
    assert_eq!(rt; policies.choose(1, 10, 100_011), Choice::Mcg);
    routes_of_a_split_bearer(&rt, rt.alloc(), &policies)?;
    move_to_a_thread(policies);
    Ok(())
}

/// Takes what may move to another thread.
fn move_to_a_thread<T: Send + Drop>(_value: T) {}

/// The routes by the first of the policies.
fn routes_of_a_split_bearer(
    rt: &impl Abort,
    alloc: Global,
    policies: &Policies,
) -> Result<(), Fail> {
    assert!(rt; policies.len() > 0);
    let shape = Shape {
        at_second: false,
        legs: LegSet::Split(Cell::Mcg),
        dup: false,
    };
    let mut legs = Legs::new(alloc, shape, 10, 0);
    assert_eq!(rt; legs.route(policies, true), Route::One(Cell::Mcg));
    legs.sent(Cell::Mcg, Some(0), 6)?;
    assert_eq!(rt; legs.route(policies, true), Route::One(Cell::Mcg));
    legs.sent(Cell::Mcg, Some(1), 6)?;
    assert_eq!(rt; legs.route(policies, true), Route::One(Cell::Scg));
    legs.sent(Cell::Scg, Some(2), 6)?;
    assert_eq!(rt; legs.route(policies, true), Route::One(Cell::Scg));
    legs.sent(Cell::Scg, Some(3), 6)?;
    assert_eq!(rt; legs.route(policies, true), Route::One(Cell::Mcg));
    assert_eq!(rt; legs.route(policies, false), Route::One(Cell::Mcg));

    legs.fail(Cell::Mcg);
    assert!(rt; !legs.is_live(Cell::Mcg) && legs.is_live(Cell::Scg));
    assert_eq!(rt; legs.route(policies, true), Route::One(Cell::Scg));
    assert_eq!(rt; legs.route(policies, false), Route::One(Cell::Scg));
    legs.fail(Cell::Scg);
    assert!(rt; !legs.is_live(Cell::Scg));
    assert_eq!(rt; legs.route(policies, true), Route::None);
    Ok(())
}

fn sent_as(num: u32, repeat: bool) -> SentAs {
    SentAs { num, repeat }
}

#[test]
fn repeats_acks_and_confirmed_counts(rt: HostRuntime) -> Result<(), Fail> {
    let shape = Shape {
        at_second: false,
        legs: LegSet::Split(Cell::Mcg),
        dup: true,
    };
    let mut legs = Legs::new(rt.alloc(), shape, 0, 0);
    legs.begin_send();
    assert_eq!(rt; legs.sent(Cell::Mcg, Some(7), 6), Ok(sent_as(0, false)));
    assert_eq!(rt; legs.sent(Cell::Scg, Some(7), 6), Ok(sent_as(0, false)));
    legs.begin_send();
    assert_eq!(rt; legs.sent(Cell::Mcg, Some(7), 6), Ok(sent_as(1, true)));
    legs.begin_send();
    assert_eq!(rt; legs.sent(Cell::Scg, None, 5), Ok(sent_as(1, false)));
    assert_eq!(rt; (legs.volume(Cell::Mcg), legs.volume(Cell::Scg)), (6, 11));

    assert_eq!(rt; legs.acked(Cell::Scg, 1), None);
    assert_eq!(rt; legs.acked(Cell::Mcg, 0), Some(7));
    assert_eq!(rt; legs.acked(Cell::Mcg, 0), None);
    assert_eq!(rt; (legs.volume(Cell::Mcg), legs.volume(Cell::Scg)), (0, 6));
    legs.settled(7);
    assert_eq!(rt; legs.volume(Cell::Scg), 6);
    legs.settled_one(7);
    assert_eq!(rt; legs.volume(Cell::Scg), 0);
    assert_eq!(rt; legs.acked(Cell::Scg, 0), Some(7));
    assert_eq!(rt;
        (legs.next_num(Cell::Mcg), legs.next_num(Cell::Scg)),
        (2, 2)
    );
    Ok(())
}

/// A leg with two PDUs of COUNT 5 in one send, a control PDU, a repeat, and a PDU of the last COUNT.
fn leg_with_six_pdus(alloc: Global) -> Result<Legs, Fail> {
    let shape = Shape {
        at_second: true,
        legs: LegSet::Scg,
        dup: false,
    };
    let mut legs = Legs::new(alloc, shape, 0, 0);
    legs.begin_send();
    legs.sent(Cell::Scg, Some(5), 10)?;
    legs.sent(Cell::Scg, Some(5), 11)?;
    legs.begin_send();
    legs.sent(Cell::Scg, None, 3)?;
    legs.sent(Cell::Scg, Some(9), 20)?;
    legs.sent(Cell::Scg, Some(5), 12)?;
    legs.sent(Cell::Scg, Some(u32::MAX), 30)?;
    Ok(legs)
}

#[test]
fn confirms_counts_in_any_order(rt: HostRuntime) -> Result<(), Fail> {
    let mut legs = leg_with_six_pdus(rt.alloc())?;
    assert!(rt; legs.is_live(Cell::Scg) && !legs.is_live(Cell::Mcg));
    assert_eq!(rt; legs.volume(Cell::Scg), 74);
    legs.settled_one(9);
    assert_eq!(rt; legs.volume(Cell::Scg), 54);
    legs.settled(5);
    assert_eq!(rt; legs.volume(Cell::Scg), 54);
    assert_eq!(rt; legs.acked(Cell::Scg, 1), Some(5));
    assert_eq!(rt; legs.volume(Cell::Scg), 43);
    legs.settled(9);
    assert_eq!(rt; legs.volume(Cell::Scg), 33);
    legs.settled_one(u32::MAX);
    assert_eq!(rt; legs.volume(Cell::Scg), 3);
    assert_eq!(rt; legs.acked(Cell::Scg, 4), Some(5));
    assert_eq!(rt; legs.acked(Cell::Scg, 2), None);
    assert_eq!(rt; legs.volume(Cell::Scg), 0);
    Ok(())
}
