//! What the values of options say.
ghost use Rattle.std.specs.Prelude.{◌≡◌, None, Some, option_map, IfOk, IsErrOf};
ghost use Rattle.graphite_words.specs.Query.{number_given, plain_made};
ghost use Rattle.graphite_words.specs.Words.{horizon_in, instant_in, instant_of, kind_in, made_by, of_in, report_of, steps_in, steps_of};

use crate::fault::WordsFault;
use crate::made::MadeAsk;
use crate::query::Report;
use crate::steps::Steps;
use crate::table::{Command, command_of, row_of};
use graphite_api::STEP_LIMIT;
use graphite_base::{MADE_LIMIT, number_of};
use graphite_time::LAST;

/// An instant, where it is given. Refused where its value is no instant.
pub fn instant_of(value: Option<&str>) -> Result<Option<u64>, WordsFault>
    ensures asked { IfOk result (λ instant. instant_of (option_map (λ v. v.now) value.entry) ≡ Some instant) }
    ensures refused { IsErrOf result WordsFault.Refused → instant_of (option_map (λ v. v.now) value.entry) ≡ None }
{
    match value {
        Some(value) => Ok(Some(instant_in(value).ok_or(WordsFault::Refused)?)),
        None => Ok(None),
    }
}

/// The instant that a value says.
fn instant_in(value: &str) -> Option<u64>
    ensures { result ≡ instant_in value.now }
{
    number_of(value.as_bytes(), LAST)
}

/// The number of supersteps allowed, where it is given. Refused where its value is no such number.
pub fn steps_of(value: Option<&str>) -> Result<Option<Steps>, WordsFault>
    ensures asked { IfOk result (λ steps. steps_of (option_map (λ v. v.now) value.entry) ≡ Some (number_given steps)) }
    ensures refused { IsErrOf result WordsFault.Refused → steps_of (option_map (λ v. v.now) value.entry) ≡ None }
{
    match value {
        Some(value) => Ok(Some(steps_in(value).ok_or(WordsFault::Refused)?)),
        None => Ok(None),
    }
}

/// The number of supersteps that a value says.
fn steps_in(value: &str) -> Option<Steps>
    ensures { number_given result ≡ steps_in value.now }
{
    let number = number_of(value.as_bytes(), u64::from(STEP_LIMIT))?;
    if number == 0 {
        return None;
    }
    Some(Steps::new(number as u32))
}

/// The report, by its kind or its instant, which are not both given; a vertex whose path is told is given
/// with an instant alone.
pub fn report_of(kind: Option<&str>, instant: Option<&str>, path: Option<&str>) -> Option<Report>
    ensures { result ≡ report_of (option_map (λ v. v.now) kind.entry) (option_map (λ v. v.now) instant.entry)
        (option_map (λ v. v.now) path.entry) }
{
    match (kind, instant, path) {
        (None, None, None) => Some(Report::Intervals),
        (Some(value), None, None) => kind_in(value),
        (None, Some(value), None) => Some(Report::At(instant_in(value)?)),
        (None, Some(value), Some(_)) => Some(Report::PathAt(instant_in(value)?)),
        _ => None,
    }
}

/// The kind of report that a value names.
fn kind_in(value: &str) -> Option<Report>
    ensures { result ≡ kind_in value.now }
{
    match value {
        "intervals" => Some(Report::Intervals),
        "paths" => Some(Report::Paths),
        "sums" => Some(Report::Sums),
        _ => None,
    }
}

/// What a graph is made from, by the values that say it.
pub fn made_by(seed: &str, vertices: &str, edges: &str, horizon: &str, of: &str) -> Option<MadeAsk>
    ensures { option_map plain_made result ≡ made_by seed.now vertices.now edges.now horizon.now of.now }
{
    let seed = number_of(seed.as_bytes(), u64::MAX)?;
    let vertices = number_of(vertices.as_bytes(), u64::from(MADE_LIMIT))?;
    let edges = number_of(edges.as_bytes(), u64::from(MADE_LIMIT))?;
    let horizon = horizon_in(horizon)?;
    let of = of_in(of)?;
    if vertices == 0 && edges != 0 {
        return None;
    }
    Some(MadeAsk {
        seed,
        vertices: vertices as u32,
        edges: edges as u32,
        horizon,
        of,
    })
}

/// The horizon that a value says.
fn horizon_in(value: &str) -> Option<u64>
    ensures { result ≡ horizon_in value.now }
{
    let horizon = instant_in(value)?;
    if horizon == 0 {
        return None;
    }
    Some(horizon)
}

/// The program to run on a made graph that a value names.
fn of_in(value: &str) -> Option<Command>
    ensures { result ≡ of_in value.now }
{
    let command = command_of(value.as_bytes())?;
    if !row_of(command).takes_report {
        return None;
    }
    Some(command)
}
