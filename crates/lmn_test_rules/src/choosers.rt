//! Which membrane is asked first.
ghost use Rattle.std.specs.Prelude.{◌<◌};

use lmn_order::{Chooser, Order, follow};

/// Asks a chooser that keeps an order.
fn pick(order: Order, t: u64, m: u64) -> u64
    requires { 0 < m }
{
    let chooser = Chooser::new(
        |t: u64, m: u64| -> u64
            requires { 0 < m }
            ensures { result < m }
        { order.choose(t, m) },
    );
    chooser.pick(t, m)
}

/// Asks a chooser that follows a list.
fn pick_by(numbers: &[u64], t: u64, m: u64) -> u64
    requires { 0 < m }
{
    let chooser = Chooser::new(
        |t: u64, m: u64| -> u64
            requires { 0 < m }
            ensures { result < m }
        { follow(numbers, t, m) },
    );
    chooser.pick(t, m)
}

#[test]
fn the_first_is_the_root(rt: HostRuntime) {
    assert_eq!(rt; pick(Order::First, 5, 3), 0);
}

#[test]
fn each_has_its_turn(rt: HostRuntime) {
    assert_eq!(rt; pick(Order::Turn, 0, 3), 0);
    assert_eq!(rt; pick(Order::Turn, 2, 3), 2);
    assert_eq!(rt; pick(Order::Turn, 3, 3), 0);
}

/// The numbers were computed outside, in integers without bound.
#[test]
fn a_seed_names_these(rt: HostRuntime) {
    assert_eq!(rt; pick(Order::Seed(0), 0, u64::MAX), 167_951_807);
    assert_eq!(rt; pick(Order::Seed(0), 0, 3), 2);
    assert_eq!(rt; pick(Order::Seed(0), 1, u64::MAX), 908_834_774);
    assert_eq!(rt; pick(Order::Seed(7), 5, 1000), 815);
    assert_eq!(rt;
        pick(
            Order::Seed(9_223_372_036_854_775_807),
            9_223_372_036_854_775_807,
            u64::MAX
        ),
        833_669_522
    );
}

#[test]
fn a_list_is_followed_to_its_end(rt: HostRuntime) {
    let numbers = [2, 4];
    assert_eq!(rt; pick_by(numbers.as_slice(), 0, 3), 2);
    assert_eq!(rt; pick_by(numbers.as_slice(), 1, 3), 1);
    assert_eq!(rt; pick_by(numbers.as_slice(), 2, 3), 0);
}
