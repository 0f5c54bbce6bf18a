//! Laws of written journeys, on a table and for any hops that a test tells. The functions do nothing: what they ensure is
//! the law.
ghost use Rattle.std.specs.Prelude.{◌≡◌, ◌<◌, ◌≤◌, ℕ, Bool, IsTrue, List, map, Option, Some};
ghost use Rattle.graphite_time.specs.declared.interval.Interval.{Interval};
ghost use Rattle.graphite_part.specs.declared.piece.Piece.{Piece};
ghost use Rattle.graphite_api.specs.declared.arc.Arc.{Arc};
ghost use Rattle.graphite_api.specs.declared.path_query.PathQuery.{PathQuery};
ghost use Rattle.graphite_api.specs.Hop.{Hop};
ghost use Rattle.graphite_api.specs.Journey.{IsAskedFor, journey_value, IsBestOverAll};
ghost use Rattle.graphite_api.specs.Table.{vertex_is_alive, IsTable};
ghost use Rattle.graphite_api.specs.TableHops.{IsHopOn};
ghost use Rattle.graphite_witness.specs.declared.step.Step.{Step};
ghost use Rattle.graphite_witness.specs.Answered.{value_for, AreOnce, IsAnswered};
ghost use Rattle.graphite_witness.specs.Steps.{step_of, AreSteps};

/// One alone. Where an edge is entered at an instant by one hop at most, the steps of the written journey for a vertex at an
/// instant are one list, whichever way they are found.
pub fn a_written_journey_is_one()
    ensures table { (lives : List (List Interval)) (arcs : List Arc) (query : PathQuery) (v t : ℕ) (steps others : List Step)
        → AreOnce (IsHopOn arcs)
        → AreSteps (vertex_is_alive lives) (IsHopOn arcs) query v t steps
        → AreSteps (vertex_is_alive lives) (IsHopOn arcs) query v t others
        → steps ≡ others }
    ensures tests { (alive : ℕ → ℕ → Bool) (is_hop : Hop → Bool) (query : PathQuery) (v t : ℕ) (steps others : List Step)
        → AreOnce (λ hop. IsTrue (is_hop hop))
        → AreSteps alive (λ hop. IsTrue (is_hop hop)) query v t steps
        → AreSteps alive (λ hop. IsTrue (is_hop hop)) query v t others
        → steps ≡ others }
{}

/// A best one. The steps of the written journey are those of the hops of a journey that the query asks about, within its
/// window, and the value of that journey is the best over all journeys.
pub fn a_written_journey_is_a_best_one()
    ensures table { (lives : List (List Interval)) (arcs : List Arc) (query : PathQuery) (v t : ℕ) (steps : List Step)
        → AreSteps (vertex_is_alive lives) (IsHopOn arcs) query v t steps
        → (at : ℕ) × (hops : List Hop) × (query.from ≤ at) × (at < query.until)
        × IsAskedFor (vertex_is_alive lives) (IsHopOn arcs) query.kind query.vertex at hops v t
        × IsBestOverAll (vertex_is_alive lives) (IsHopOn arcs) query v t (Some (journey_value query.kind at hops))
        × (steps ≡ map step_of hops) }
    ensures tests { (alive : ℕ → ℕ → Bool) (is_hop : Hop → Bool) (query : PathQuery) (v t : ℕ) (steps : List Step)
        → AreSteps alive (λ hop. IsTrue (is_hop hop)) query v t steps
        → (at : ℕ) × (hops : List Hop) × (query.from ≤ at) × (at < query.until)
        × IsAskedFor alive (λ hop. IsTrue (is_hop hop)) query.kind query.vertex at hops v t
        × IsBestOverAll alive (λ hop. IsTrue (is_hop hop)) query v t (Some (journey_value query.kind at hops))
        × (steps ≡ map step_of hops) }
{}

/// Nowhere missing. Where the best values of a question on a table are known, there are the steps of a written journey for
/// every vertex at every instant with a value.
pub fn every_best_value_has_a_written_journey()
    ensures { (lives : List (List Interval)) (arcs : List Arc) (query : PathQuery) (values : List (List (Piece (Option ℕ))))
        → IsTable lives arcs → IsAnswered lives arcs query values
        → (steps : ℕ → ℕ → List Step)
        × ((v t x : ℕ) → value_for values v t ≡ Some x → AreSteps (vertex_is_alive lives) (IsHopOn arcs) query v t (steps v t)) }
{}
