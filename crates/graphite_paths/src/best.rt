//! What is shared by the programs: the best of what a vertex has and is told, and what it tells along an arc.
ghost use Rattle.std.specs.Prelude.{◌≡◌, ◌+◌, nat_le, option_map};
ghost use Rattle.std.specs.List.Sorted.{IsSorted};
ghost use Rattle.std.specs.Ordering.{nat_cmp};
ghost use Rattle.graphite_time.specs.Interval.{start_of};
ghost use Rattle.graphite_api.specs.Values.{best_next, rest_from};
ghost use Rattle.graphite_paths.specs.Next.{next_with, news_of};

use graphite_api::{Arc, Message, Next};
use graphite_time::Interval;

/// The outcome of a superstep where the lesser value is the better one.
pub(crate) fn least_next(step: u32, state: Option<u64>, group: &[u64]) -> Next<Option<u64>>
    requires rising { IsSorted nat_cmp group.now }
    ensures { result ≡ best_next nat_le step state group.now }
{
    // the group rises, so its first note is the least
    let least = group.first().copied();
    next_with(step, state, lesser(least, state))
}

/// The outcome of a superstep where the greater value is the better one.
pub(crate) fn greatest_next(step: u32, state: Option<u64>, group: &[u64]) -> Next<Option<u64>>
    requires rising { IsSorted nat_cmp group.now }
    ensures { result ≡ best_next (λ x y. nat_le y x) step state group.now }
{
    // the group rises, so its last note is the greatest
    let greatest = group.last().copied();
    next_with(step, state, greater(greatest, state))
}

/// The note, where it is less than the value of a vertex or that has none.
fn lesser(note: Option<u64>, state: Option<u64>) -> Option<u64>
    ensures { result ≡ news_of nat_le state note }
{
    match (note, state) {
        (Some(told), Some(own)) if own <= told => None,
        _ => note,
    }
}

/// The note, where it is greater than the value of a vertex or that has none.
fn greater(note: Option<u64>, state: Option<u64>) -> Option<u64>
    ensures { result ≡ news_of (λ x y. nat_le y x) state note }
{
    match (note, state) {
        (Some(told), Some(own)) if told <= own => None,
        _ => note,
    }
}

/// The outcome for a vertex: in the first superstep it sends its value, if it has one; later it takes the news, a better
/// value that it is told, if there is one, and sends that.
fn next_with(step: u32, state: Option<u64>, news: Option<u64>) -> Next<Option<u64>>
    ensures { result ≡ next_with step state news }
{
    if step == 1 {
        return Next {
            state,
            send: state.is_some(),
        };
    }
    Next {
        state: news.or(state),
        send: news.is_some(),
    }
}

/// A note from the arrival of the first departure on, up to the end of the lifespan that the arc names.
/// Nothing where that lifespan does not hold the arrival.
pub(crate) fn note_on_arrival(arc: &Arc, over: Interval, note: u64) -> Option<Message<u64>>
    ensures { result ≡ option_map (λ rest. record { over = rest; note = note })
        (rest_from arc.now.stay (start_of over + arc.now.time)) }
{
    let rest = rest_from(arc.stay, over.a() + u64::from(arc.time))?;
    Some(Message { over: rest, note })
}

/// The instants of a lifespan from one of them on. `None` where it does not hold that one.
fn rest_from(span: Interval, t: u64) -> Option<Interval>
    ensures { result ≡ rest_from span t }
{
    if !span.holds(t) {
        return None;
    }
    Interval::new(t, span.b())
}
