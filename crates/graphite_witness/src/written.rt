//! The written journey of a value.
ghost use Rattle.std.specs.Prelude.{◌≡◌, ◌≢◌, ◌<◌, ℕ, List, length, map, option_map, IfOk, IsSome};
ghost use Rattle.graphite_api.specs.declared.kind.Kind.TheVariants.{Latest};
ghost use Rattle.graphite_api.specs.Hop.{Hop};
ghost use Rattle.graphite_api.specs.Table.{vertex_is_alive};
ghost use Rattle.graphite_api.specs.TableHops.{IsHopOn};
ghost use Rattle.graphite_api.specs.Written.{IsWrittenFrom, IsWrittenTo};
ghost use Rattle.graphite_witness.specs.Answered.{value_for, IsAnswered};
ghost use Rattle.graphite_witness.specs.Found.{BestFor};
ghost use Rattle.graphite_witness.specs.Incoming.{IsIncomingOf};
ghost use Rattle.graphite_witness.specs.Steps.{step_of, IsWitness};

use crate::answered::value_of;
use crate::hops::{first_hop, last_hop};
use crate::{Answered, IncomingArcs, Step};
use graphite_api::Kind;
use graphite_time::NoMemory;
use std::alloc::Global;

/// The steps of the written journey for `v` at `t`, its first one first: of the journeys with the best value the one whose
/// last step is of the least edge and then the earliest, and so on back to its start; for [`Kind::Latest`] the one whose
/// first step is of the least edge and then the latest, and so on. `None` where there is no value.
pub fn witness(
    alloc: Global,
    answered: &Answered<'_>,
    incoming: &IncomingArcs,
    v: u32,
    t: u64,
) -> Result<Option<Vec<Step>>, NoMemory>
    requires answered { IsAnswered answered.now.table.now.lives answered.now.table.now.arcs answered.now.query answered.now.values.now }
    requires incoming { IsIncomingOf answered.now.table.now answered.now.query.kind incoming.now }
    requires vertex { v < length answered.now.table.now.lives }
    ensures { IfOk result (λ found. IsWitness
        (vertex_is_alive answered.now.table.now.lives) (IsHopOn answered.now.table.now.arcs) answered.now.query v t
        (value_for answered.now.values.now v t) (option_map (λ steps. steps.items) found)) }
{
    if value_of(answered.values, v, t).is_none() {
        return Ok(None);
    }
    // each life is a list of lifespans with gaps between them
    let _arcs = answered.table.arcs();
    let steps = match answered.query.kind {
        Kind::Latest => steps_onward(alloc, answered, v, t)?,
        _ => {
            let mut steps = steps_back(alloc, answered, incoming, v, t)?;
            steps.reverse();
            steps
        }
    };
    Ok(Some(steps))
}

/// The steps of the written journey to `v` at `t`, its last one first.
fn steps_back(
    alloc: Global,
    answered: &Answered<'_>,
    incoming: &IncomingArcs,
    v: u32,
    t: u64,
) -> Result<Vec<Step>, NoMemory>
    requires answered { IsAnswered answered.now.table.now.lives answered.now.table.now.arcs answered.now.query answered.now.values.now }
    requires incoming { IsIncomingOf answered.now.table.now answered.now.query.kind incoming.now }
    requires kind { answered.now.query.kind ≢ Latest }
    requires vertex { v < length answered.now.table.now.lives }
    requires value { IsSome (value_for answered.now.values.now v t) }
    ensures { IfOk result (λ steps. (hops : List Hop)
        × IsWrittenTo (vertex_is_alive answered.now.table.now.lives) (IsHopOn answered.now.table.now.arcs) answered.now.query (BestFor (vertex_is_alive answered.now.table.now.lives) (IsHopOn answered.now.table.now.arcs) answered.now.query) hops v t
        × (steps.items ≡ map step_of hops)) }
{
    let mut steps = Vec::new(alloc);
    let mut v = v;
    let mut t = t;
    while let Some(hop) = last_hop(answered, incoming, v, t) {
        steps.push(hop.step)?;
        v = hop.other;
        t = hop.step.depart;
    }
    Ok(steps)
}

/// The steps of the written journey of the latest departure from `v` at `t`, its first one first.
fn steps_onward(
    alloc: Global,
    answered: &Answered<'_>,
    v: u32,
    t: u64,
) -> Result<Vec<Step>, NoMemory>
    requires answered { IsAnswered answered.now.table.now.lives answered.now.table.now.arcs answered.now.query answered.now.values.now }
    requires kind { answered.now.query.kind ≡ Latest }
    requires vertex { v < length answered.now.table.now.lives }
    requires value { IsSome (value_for answered.now.values.now v t) }
    ensures { IfOk result (λ steps. (hops : List Hop)
        × IsWrittenFrom (vertex_is_alive answered.now.table.now.lives) (IsHopOn answered.now.table.now.arcs) answered.now.query (BestFor (vertex_is_alive answered.now.table.now.lives) (IsHopOn answered.now.table.now.arcs) answered.now.query) hops v t
        × (steps.items ≡ map step_of hops)) }
{
    let mut steps = Vec::new(alloc);
    let mut v = v;
    let mut t = t;
    while let Some(hop) = first_hop(answered, v, t) {
        steps.push(hop.step)?;
        v = hop.other;
        t = hop.step.arrive;
    }
    Ok(steps)
}
