//! The law of programs of journeys as code uses it that is generic over them, and the four programs on
//! an arc by hand.
ghost use Rattle.std.specs.Prelude.{◌≡◌, ◌+◌, ◌^◌, ◌<◌, ◌≤◌, ◌∷◌, [], ℕ, IsTrue};
ghost use Rattle.graphite_time.specs.Interval.{start_of, end_of};
ghost use Rattle.graphite_api.specs.Values.{best_next, first_departure_message};

use crate::lives::interval;
use graphite_api::{Arc, JourneyProgram, Message, Next, Program};
use graphite_paths::{Cheapest, Earliest, Fastest, Reach};
use graphite_time::Interval;
use std::process::Abort;
use std::test::Fail;

/// What any program of journeys keeps in a superstep.
fn outcome<P: JourneyProgram>(
    program: &mut P,
    step: u32,
    state: Option<u64>,
    told: u64,
) -> Next<Option<u64>>
    requires room { P.count program.old + 1 < 2 ^ 128 }
    requires step { 1 ≤ step }
    ensures { result ≡ best_next P.values.good step state (told ∷ []) }
{
    program.compute(step, state, &[told])
}

/// What any program of journeys tells over an interval of an arc.
fn told<P: JourneyProgram>(
    program: &P,
    state: Option<u64>,
    arc: &Arc,
    over: Interval,
) -> Option<Message<u64>>
    requires starts { start_of arc.now.over ≤ start_of over }
    requires ends { end_of over ≤ end_of arc.now.over }
    ensures { result ≡ first_departure_message P.values state arc.now over }
{
    program.scatter(state, arc, over)
}

/// Of any program of journeys: an earlier departure is as good as a later one, and no hop makes a value
/// better.
fn departs_early<P: JourneyProgram>(_program: &P)
    ensures early { (x depart later time cost : ℕ) → depart ≤ later
        → IsTrue (P.values.good (P.values.extend x depart time cost) (P.values.extend x later time cost)) }
    ensures no_gain { (x depart time cost : ℕ) → 1 ≤ time → IsTrue (P.values.stands x depart)
        → IsTrue (P.values.good x (P.values.extend x depart time cost)) }
{}

/// An arc over the instants 0 to 4 that takes 9 instants and costs 7, to a vertex that is alive up to the
/// instant 12.
fn slow_arc() -> Result<Arc, Fail> {
    Ok(Arc {
        from: 0,
        edge: 0,
        over: interval(0, 5)?,
        to: 1,
        time: 9,
        cost: 7,
        stay: interval(0, 13)?,
    })
}

/// What a program tells along the slow arc from the instant `a` on.
fn message<P: JourneyProgram>(
    program: &P,
    value: u64,
    a: u64,
) -> Result<Option<(u64, u64, u64)>, Fail> {
    let arc = slow_arc()?;
    let over = interval(a, 5)?;
    if over.a() < arc.over.a() || arc.over.b() < over.b() {
        return Err("not within the arc")?;
    }
    let Some(message) = told(program, Some(value), &arc, over) else {
        return Ok(None);
    };
    Ok(Some((message.over.a(), message.over.b(), message.note)))
}

#[test]
fn values_are_told_on_arrival(rt: HostRuntime) -> Result<(), Fail> {
    assert_eq!(rt; message(&Reach::new(), 0, 1)?, Some((10, 13, 0)));
    assert_eq!(rt; message(&Earliest::new(), 1, 1)?, Some((10, 13, 10)));
    assert_eq!(rt; message(&Cheapest::new(), 5, 1)?, Some((10, 13, 12)));
    assert_eq!(rt; message(&Cheapest::new(), 5, 4)?, None);
    assert_eq!(rt; message(&Fastest::new(), 1, 2)?, Some((11, 13, 1)));
    Ok(())
}

#[test]
fn the_greatest_value_is_kept(rt: HostRuntime) {
    let mut fastest = Fastest::new();
    let news = outcome(&mut fastest, 2, Some(4), 6);
    assert_eq!(rt; (news.state, news.send), (Some(6), true));
    assert_eq!(rt; fastest.calls(), 1);
}

#[test]
fn the_least_value_is_kept(rt: HostRuntime) {
    let mut earliest = Earliest::new();
    let news = outcome(&mut earliest, 2, Some(9), 6);
    assert_eq!(rt; (news.state, news.send), (Some(6), true));
    assert_eq!(rt; earliest.calls(), 1);
}
