//! Laws of what is written. The functions do nothing: what they ensure is the law.
ghost use Rattle.std.specs.Prelude.{◌≡◌, ◌<◌, ◌≤◌, ℕ, List, map, Some};
ghost use Rattle.graphite_text.specs.Graph.{PlainGraph, vertex_is_alive};
ghost use Rattle.graphite_api.specs.declared.path_query.PathQuery.{PathQuery};
ghost use Rattle.graphite_api.specs.Hop.{Hop};
ghost use Rattle.graphite_api.specs.Journey.{IsAskedFor, IsBestOverAll, journey_value};
ghost use Rattle.graphite_hops.specs.Hops.{IsHopOf};
ghost use Rattle.graphite_witness.specs.declared.step.Step.{Step};
ghost use Rattle.graphite_witness.specs.Steps.{step_of};
ghost use Rattle.graphite_top.specs.Answer.{Answer};
ghost use Rattle.graphite_top.specs.Journeys.{JourneyAsk, AreTold, IsJourneyAnswer};

/// A question about the journeys of a graph has one answer alone. So the text of a run is known, byte for byte, though
/// its clause says no more than that there are best values such that the text is their report.
pub fn an_answer_is_one()
    ensures { (ask : JourneyAsk) (answer other : Answer)
        → IsJourneyAnswer ask answer → IsJourneyAnswer ask other → answer ≡ other }
{}

/// The steps that are told beside a best value are those of a journey of the graph that the query asks about, within its
/// window, which has that value.
pub fn a_told_journey_has_the_value()
    ensures { (graph : PlainGraph) (query : PathQuery) (v t x : ℕ) (steps : List Step)
        → IsBestOverAll (vertex_is_alive graph) (IsHopOf graph) query v t (Some x)
        → AreTold graph query v t (Some x) steps
        → (at : ℕ) × (hops : List Hop) × (query.from ≤ at) × (at < query.until)
        × IsAskedFor (vertex_is_alive graph) (IsHopOf graph) query.kind query.vertex at hops v t
        × (journey_value query.kind at hops ≡ x) × (steps ≡ map step_of hops) }
{}
