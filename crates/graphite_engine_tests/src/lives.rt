//! Lives of one lifespan and of two.
ghost use Rattle.std.specs.Prelude.{◌≡◌, IfOk};
ghost use Rattle.graphite_time.specs.Interval.{start_of, end_of};

use graphite_time::{Interval, Life};
use std::process::Abort;
use std::test::Fail;

/// The interval between two instants.
pub(crate) fn interval(a: u64, b: u64) -> Result<Interval, Fail>
    ensures start { IfOk result (λ over. start_of over ≡ a) }
    ensures end { IfOk result (λ over. end_of over ≡ b) }
{
    Ok(Interval::new(a, b).ok_or("an empty interval")?)
}

fn assert_holds(rt: &impl Abort, life: &Life, t: u64, stay: Option<Interval>) {
    assert_eq!(rt; life.holds(t), stay.is_some());
    assert_eq!(rt; life.stay(t), stay);
}

fn assert_covers(rt: &impl Abort, life: &Life, ends: &[(u64, u64, bool)]) {
    for (a, b, covered) in ends {
        if let Some(over) = Interval::new(*a, *b) {
            assert_eq!(rt; life.covers(over), *covered);
        }
    }
}

#[test]
fn a_life_of_one_lifespan(rt: HostRuntime) -> Result<(), Fail> {
    let short = interval(2, 4)?;
    let life = Life::one(rt.alloc(), short)?;
    assert_eq!(rt; life.spans().len(), 1);
    assert_holds(&rt, &life, 1, None);
    assert_holds(&rt, &life, 2, Some(short));
    assert_holds(&rt, &life, 3, Some(short));
    assert_holds(&rt, &life, 4, None);
    assert_covers(
        &rt,
        &life,
        &[(2, 4, true), (3, 4, true), (1, 3, false), (3, 7, false)],
    );
    Ok(())
}

#[test]
fn a_life_of_two_lifespans_and_its_mirror(rt: HostRuntime) -> Result<(), Fail> {
    let late = interval(6, 9)?;
    let mut life = Life::one(rt.alloc(), interval(2, 4)?)?;
    life.push(late)?;
    assert_holds(&rt, &life, 4, None);
    assert_holds(&rt, &life, 6, Some(late));
    assert_covers(&rt, &life, &[(3, 7, false)]);
    assert_eq!(rt; late.mirror(10), interval(1, 4)?);
    let mirror = life.mirror(10)?;
    assert_eq!(rt;
        mirror.spans(),
        [interval(1, 4)?, interval(6, 8)?].as_slice()
    );
    Ok(())
}

#[test]
fn a_life_from_the_first_instant(rt: HostRuntime) -> Result<(), Fail> {
    let long = interval(0, 10)?;
    let life = Life::one(rt.alloc(), long)?;
    assert_holds(&rt, &life, 0, Some(long));
    assert_holds(&rt, &life, 10, None);
    let copied = life.copy()?;
    assert_holds(&rt, &copied, 9, Some(long));
    assert_covers(&rt, &life, &[(0, 10, true), (2, 4, true), (9, 11, false)]);
    Ok(())
}
