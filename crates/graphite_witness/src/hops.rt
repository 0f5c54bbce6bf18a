//! The hops of a written journey, one at a time.
ghost use Rattle.std.specs.Prelude.{◌≡◌, ◌≢◌, ◌<◌, length, IfSome, IsSome, Some};
ghost use Rattle.graphite_time.specs.declared.TheConstants.{LAST};
ghost use Rattle.graphite_api.specs.declared.kind.Kind.TheVariants.{Latest};
ghost use Rattle.graphite_api.specs.Table.{vertex_is_alive};
ghost use Rattle.graphite_api.specs.TableHops.{IsHopOn};
ghost use Rattle.graphite_witness.specs.Answered.{value_for, IsAnswered};
ghost use Rattle.graphite_witness.specs.Ends.{can_begin};
ghost use Rattle.graphite_witness.specs.Found.{IsFirstOrStands, IsFoundBegin, IsFoundEnd, IsLastOrStands, Stands};
ghost use Rattle.graphite_witness.specs.Incoming.{IsIncomingOf};

use crate::answered::value_of;
use crate::departure::departure_along;
use crate::standing::stands;
use crate::taken::Taken;
use crate::{Answered, IncomingArcs};
use graphite_api::Arc;
use graphite_part::Partition;

/// The last hop of the written journey to `v` at `t`, where there is a value. `None` where a journey without hops has it.
pub(crate) fn last_hop(
    answered: &Answered<'_>,
    incoming: &IncomingArcs,
    v: u32,
    t: u64,
) -> Option<Taken>
    requires answered { IsAnswered answered.now.table.now.lives answered.now.table.now.arcs answered.now.query answered.now.values.now }
    requires incoming { IsIncomingOf answered.now.table.now answered.now.query.kind incoming.now }
    requires kind { answered.now.query.kind ≢ Latest }
    requires vertex { v < length answered.now.table.now.lives }
    requires value { IsSome (value_for answered.now.values.now v t) }
    ensures found { IsLastOrStands (vertex_is_alive answered.now.table.now.lives) (IsHopOn answered.now.table.now.arcs) answered.now.query v t result }
    ensures vertex { IfSome result (λ taken. taken.other < length answered.now.table.now.lives) }
    ensures value { IfSome result (λ taken. IsSome (value_for answered.now.values.now taken.other taken.step.depart)) }
    ensures earlier { IfSome result (λ taken. taken.step.depart < t) }
{
    let value = value_of(answered.values, v, t)?;
    if stands(answered, v, t, value) {
        return None;
    }
    hop_ending(answered, incoming, v, t, value)
}

/// The first hop into `v`, by edge and then by departure, that can end a best journey to it at `t`.
fn hop_ending(
    answered: &Answered<'_>,
    incoming: &IncomingArcs,
    v: u32,
    t: u64,
    value: u64,
) -> Option<Taken>
    requires answered { IsAnswered answered.now.table.now.lives answered.now.table.now.arcs answered.now.query answered.now.values.now }
    requires incoming { IsIncomingOf answered.now.table.now answered.now.query.kind incoming.now }
    requires kind { answered.now.query.kind ≢ Latest }
    requires vertex { v < length answered.now.table.now.lives }
    requires value { value_for answered.now.values.now v t ≡ Some value }
    ensures found { IsFoundEnd (vertex_is_alive answered.now.table.now.lives) (IsHopOn answered.now.table.now.arcs) answered.now.query v t result }
    ensures vertex { IfSome result (λ taken. taken.other < length answered.now.table.now.lives) }
    ensures value { IfSome result (λ taken. IsSome (value_for answered.now.values.now taken.other taken.step.depart)) }
    ensures earlier { IfSome result (λ taken. taken.step.depart < t) }
{
    // the source of every arc is a vertex of the table
    let _arcs = answered.table.arcs();
    for arc in incoming.into_of(v) {
        let depart = departure_along(answered.values, answered.query.kind, arc, t, value);
        if let Some(depart) = depart {
            return Some(Taken::back(arc, depart));
        }
    }
    None
}

/// The first hop of the written journey from `v` at `t`, the one of the latest departure, where there is a value. `None`
/// where a journey without hops has it.
pub(crate) fn first_hop(answered: &Answered<'_>, v: u32, t: u64) -> Option<Taken>
    requires answered { IsAnswered answered.now.table.now.lives answered.now.table.now.arcs answered.now.query answered.now.values.now }
    requires kind { answered.now.query.kind ≡ Latest }
    requires vertex { v < length answered.now.table.now.lives }
    requires value { IsSome (value_for answered.now.values.now v t) }
    ensures found { IsFirstOrStands (vertex_is_alive answered.now.table.now.lives) (IsHopOn answered.now.table.now.arcs) answered.now.query v t result }
    ensures vertex { IfSome result (λ taken. taken.other < length answered.now.table.now.lives) }
    ensures value { IfSome result (λ taken. IsSome (value_for answered.now.values.now taken.other taken.step.arrive)) }
    ensures later { IfSome result (λ taken. t < taken.step.arrive) }
    ensures in_time { IfSome result (λ taken. taken.step.arrive < LAST) }
{
    let value = value_of(answered.values, v, t)?;
    if stands(answered, v, t, value) {
        return None;
    }
    hop_beginning(answered, v, t, value)
}

/// The first hop out of `v`, by edge, that departs at `value` and arrives where there is a value.
fn hop_beginning(answered: &Answered<'_>, v: u32, t: u64, value: u64) -> Option<Taken>
    requires answered { IsAnswered answered.now.table.now.lives answered.now.table.now.arcs answered.now.query answered.now.values.now }
    requires kind { answered.now.query.kind ≡ Latest }
    requires vertex { v < length answered.now.table.now.lives }
    requires value { value_for answered.now.values.now v t ≡ Some value }
    requires hops { Stands (vertex_is_alive answered.now.table.now.lives) (IsHopOn answered.now.table.now.arcs) answered.now.query v t → ⊥ }
    ensures found { IsFoundBegin (vertex_is_alive answered.now.table.now.lives) (IsHopOn answered.now.table.now.arcs) answered.now.query v t result }
    ensures vertex { IfSome result (λ taken. taken.other < length answered.now.table.now.lives) }
    ensures value { IfSome result (λ taken. IsSome (value_for answered.now.values.now taken.other taken.step.arrive)) }
    ensures later { IfSome result (λ taken. t < taken.step.arrive) }
    ensures in_time { IfSome result (λ taken. taken.step.arrive < LAST) }
{
    // the target of every arc is a vertex of the table
    let _arcs = answered.table.arcs();
    for arc in answered.table.arcs_of(v) {
        if can_begin(answered.values, arc, value) {
            return Some(Taken::onward(arc, value));
        }
    }
    None
}

/// Whether the arc can be taken at `depart` and arrives where there is a value.
fn can_begin(values: &[Partition<Option<u64>>], arc: &Arc, depart: u64) -> bool
    requires to { arc.now.to < length values.now }
    ensures { result ≡ can_begin values.now depart arc.now }
{
    arc.over.holds(depart) && value_of(values, arc.to, depart + u64::from(arc.time)).is_some()
}
