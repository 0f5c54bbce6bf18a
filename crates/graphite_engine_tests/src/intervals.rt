//! Intervals that are moved over time.
use graphite_time::{Interval, LAST};
use std::process::Abort;

fn ends(over: Option<Interval>) -> Option<(u64, u64)> {
    let over = over?;
    Some((over.a(), over.b()))
}

fn assert_shifted(rt: &impl Abort, a: u64, b: u64, by: u32, h: u64, shifted: Option<(u64, u64)>) {
    if h <= LAST
        && let Some(over) = Interval::new(a, b)
    {
        assert_eq!(rt; ends(over.shift(by, h)), shifted);
    }
}

fn assert_back(rt: &impl Abort, a: u64, b: u64, by: u32, earlier: Option<(u64, u64)>) {
    if let Some(over) = Interval::new(a, b) {
        assert_eq!(rt; ends(over.back(by)), earlier);
    }
}

#[test]
fn intervals_move_over_time(rt: HostRuntime) {
    assert_shifted(&rt, 0, 5, 9, 20, Some((9, 14)));
    assert_shifted(&rt, 5, 10, 1, 10, Some((6, 10)));
    assert_shifted(&rt, 9, 10, 1, 10, None);
    assert_back(&rt, 9, 14, 9, Some((0, 5)));
    assert_back(&rt, 3, 5, 4, None);
}
