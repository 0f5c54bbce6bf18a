//! Laws of best values over journeys, of lists of hops alone: no message and no superstep is in them. The
//! functions do nothing: what they ensure is the law.
ghost use Rattle.std.specs.Prelude.{◌≡◌, ◌≢◌, ◌<◌, ◌≤◌, ◌+◌, ◌^◌, ◌∷◌, ℕ, suc, All, IsTrue, List, Option, None, Some, option_map};
ghost use Rattle.std.specs.List.{Contains};
ghost use Rattle.graphite_time.specs.declared.interval.Interval.{Interval};
ghost use Rattle.graphite_time.specs.Interval.{start_of, end_of, holds};
ghost use Rattle.graphite_time.specs.Life.{IsLife};
ghost use Rattle.graphite_time.specs.Mirror.{mirrored};
ghost use Rattle.graphite_warp.specs.declared.message.Message.{Message};
ghost use Rattle.graphite_api.specs.declared.arc.Arc.{Arc};
ghost use Rattle.graphite_api.specs.declared.kind.Kind.TheVariants.{Cheapest, Latest};
ghost use Rattle.graphite_api.specs.declared.path_query.PathQuery.{PathQuery};
ghost use Rattle.graphite_api.specs.Attained.{Attains, IsBestAttained, IsBestOfLists, IsOneMore};
ghost use Rattle.graphite_api.specs.Best.{IsBest};
ghost use Rattle.graphite_api.specs.Hop.{Hop, Waits};
ghost use Rattle.graphite_api.specs.Journey.{IsBestWithin, IsBestOverAll};
ghost use Rattle.graphite_api.specs.KindValues.{saturating_values, values_of};
ghost use Rattle.graphite_api.specs.Mirror.{mirrored_query, AreMirrored};
ghost use Rattle.graphite_api.specs.Search.{IsJourneySearch};
ghost use Rattle.graphite_api.specs.Table.{vertex_is_alive};
ghost use Rattle.graphite_api.specs.TableHops.{hop_along, lifespans, IsHopOn, StaysAt};
ghost use Rattle.graphite_api.specs.Values.{first_departure_message, Values, AreLawful};

/// The last hop. The best value of lists of one hop more is the best of two things: the best so far, and
/// the best so far where and when a further hop departs, carried along that hop.
pub fn the_last_hop_makes_the_best()
    ensures { (values : Values) (lives : List (List Interval)) (arcs : List Arc) (start best : ℕ → ℕ → Option ℕ) (k : ℕ)
        → AreLawful values → 1 ≤ k
        → ((v t : ℕ) → IsBestAttained values (vertex_is_alive lives) (IsHopOn arcs) start k v t (best v t))
        → (v t : ℕ) (value : Option ℕ)
        → IsBest (λ x y. IsTrue (values.good x y)) (IsOneMore values (vertex_is_alive lives) (IsHopOn arcs) best v t) value
        → IsBestAttained values (vertex_is_alive lives) (IsHopOn arcs) start (suc k) v t value }
{}

/// The first departure. A value brings something along an arc over an interval, and what it brings by the
/// first departure holds wherever any other departure of the interval leads, and is as good.
pub fn the_first_departure_is_enough()
    ensures made { (values : Values) (lives : List (List Interval)) (arc : Arc) (over : Interval) (x : ℕ)
        → StaysAt lives arc → start_of arc.over ≤ start_of over → end_of over ≤ end_of arc.over
        → (message : Message ℕ) × (first_departure_message values (Some x) arc over ≡ Some message) }
    ensures good { (values : Values) (lives : List (List Interval)) (arc : Arc) (over : Interval) (x : ℕ) (message : Message ℕ)
        → AreLawful values → All IsLife lives → StaysAt lives arc
        → start_of arc.over ≤ start_of over → end_of over ≤ end_of arc.over
        → first_departure_message values (Some x) arc over ≡ Some message
        → (depart t : ℕ) → IsTrue (holds over depart) → Waits (vertex_is_alive lives) arc.to (depart + arc.time) t
        → IsTrue (holds message.over t) × IsTrue (values.good message.note (values.extend x depart arc.time arc.cost)) }
{}

/// What is told along an arc is, at every instant at which it holds, the value of a list of hops: of the list
/// that led to the departure, and that hop.
pub fn each_message_is_attained()
    ensures { (values : Values) (lives : List (List Interval)) (arcs : List Arc) (start : ℕ → ℕ → Option ℕ)
        (arc : Arc) (over : Interval) (x : ℕ) (message : Message ℕ) (hops : List Hop)
        → StaysAt lives arc → start_of arc.over ≤ start_of over → end_of over ≤ end_of arc.over → Contains arcs arc
        → first_departure_message values (Some x) arc over ≡ Some message
        → Attains values (vertex_is_alive lives) (IsHopOn arcs) start hops arc.from (start_of over) x
        → (t : ℕ) → IsTrue (holds message.over t)
        → Attains values (vertex_is_alive lives) (IsHopOn arcs) start (hop_along arc (start_of over) ∷ hops) arc.to t message.note }
{}

/// Settled. Where one hop more makes no value better, no number of hops does.
pub fn settled_values_are_best()
    ensures { (values : Values) (lives : List (List Interval)) (arcs : List Arc) (start best : ℕ → ℕ → Option ℕ) (k : ℕ)
        → AreLawful values
        → ((v t : ℕ) → IsBestAttained values (vertex_is_alive lives) (IsHopOn arcs) start k v t (best v t))
        → ((v t : ℕ) → IsBestAttained values (vertex_is_alive lives) (IsHopOn arcs) start (suc k) v t (best v t))
        → (v t : ℕ) → IsBestOfLists values (vertex_is_alive lives) (IsHopOn arcs) start v t (best v t) }
{}

/// Enough. Fewer hops than there are lifespans are as good as any number of them, since waiting can take the
/// place of a way back to a lifespan.
pub fn fewer_hops_than_lifespans_are_enough()
    ensures { (values : Values) (lives : List (List Interval)) (arcs : List Arc) (start : ℕ → ℕ → Option ℕ)
        → IsJourneySearch values lives (IsHopOn arcs) start
        → (v t : ℕ) (value : Option ℕ)
        → IsBestAttained values (vertex_is_alive lives) (IsHopOn arcs) start (lifespans lives) v t value
        → IsBestOfLists values (vertex_is_alive lives) (IsHopOn arcs) start v t value }
{}

/// Crossing. From the values of journeys without hops, the best value of lists of hops is the best value of
/// journeys: within a number of hops, and over all of them.
pub fn best_of_lists_is_best_of_journeys()
    ensures within { (lives : List (List Interval)) (arcs : List Arc) (query : PathQuery) (start : ℕ → ℕ → Option ℕ)
        → query.kind ≢ Latest
        → ((v t : ℕ) → IsBestWithin (vertex_is_alive lives) (IsHopOn arcs) query 1 v t (start v t))
        → (k v t : ℕ) (value : Option ℕ)
        → IsBestAttained (values_of query.kind) (vertex_is_alive lives) (IsHopOn arcs) start k v t value
        → IsBestWithin (vertex_is_alive lives) (IsHopOn arcs) query k v t value }
    ensures over_all { (lives : List (List Interval)) (arcs : List Arc) (query : PathQuery) (start : ℕ → ℕ → Option ℕ)
        → query.kind ≢ Latest
        → ((v t : ℕ) → IsBestWithin (vertex_is_alive lives) (IsHopOn arcs) query 1 v t (start v t))
        → (v t : ℕ) (value : Option ℕ)
        → IsBestOfLists (values_of query.kind) (vertex_is_alive lives) (IsHopOn arcs) start v t value
        → IsBestOverAll (vertex_is_alive lives) (IsHopOn arcs) query v t value }
{}

/// Sums that stop at 2^64 - 1 have the best values of the exact sums: within up to 2^21 hops, and over all where a best
/// one is found within so many. The costs are below 2^32.
pub fn saturating_sums_are_exact()
    ensures within { (lives : List (List Interval)) (arcs : List Arc) (start : ℕ → ℕ → Option ℕ)
        → All (λ arc. arc.cost < 2 ^ 32) arcs → ((v t x : ℕ) → start v t ≡ Some x → x ≡ 0)
        → (k v t : ℕ) (value : Option ℕ) → k ≤ 2 ^ 21
        → IsBestAttained saturating_values (vertex_is_alive lives) (IsHopOn arcs) start k v t value
        → IsBestAttained (values_of Cheapest) (vertex_is_alive lives) (IsHopOn arcs) start k v t value }
    ensures over_all { (lives : List (List Interval)) (arcs : List Arc) (start : ℕ → ℕ → Option ℕ)
        → All (λ arc. arc.cost < 2 ^ 32) arcs → ((v t x : ℕ) → start v t ≡ Some x → x ≡ 0)
        → (k v t : ℕ) (value : Option ℕ) → k ≤ 2 ^ 21
        → IsBestAttained saturating_values (vertex_is_alive lives) (IsHopOn arcs) start k v t value
        → IsBestOfLists saturating_values (vertex_is_alive lives) (IsHopOn arcs) start v t value
        → IsBestOfLists (values_of Cheapest) (vertex_is_alive lives) (IsHopOn arcs) start v t value }
{}

/// The mirror. The latest departure is the mirror of the earliest arrival in the mirror of time.
pub fn latest_is_earliest_in_the_mirror()
    ensures within { (h : ℕ) (lives lives' : List (List Interval)) (arcs arcs' : List Arc) (query : PathQuery)
        → AreMirrored h (vertex_is_alive lives) (vertex_is_alive lives') (IsHopOn arcs) (IsHopOn arcs')
        → query.kind ≡ Latest
        → (k v t : ℕ) (value : Option ℕ) → t < h
        → IsBestWithin (vertex_is_alive lives') (IsHopOn arcs') (mirrored_query h query) k v (mirrored h t) value
        → IsBestWithin (vertex_is_alive lives) (IsHopOn arcs) query k v t (option_map (mirrored h) value) }
    ensures over_all { (h : ℕ) (lives lives' : List (List Interval)) (arcs arcs' : List Arc) (query : PathQuery)
        → AreMirrored h (vertex_is_alive lives) (vertex_is_alive lives') (IsHopOn arcs) (IsHopOn arcs')
        → query.kind ≡ Latest
        → (v t : ℕ) (value : Option ℕ) → t < h
        → IsBestOverAll (vertex_is_alive lives') (IsHopOn arcs') (mirrored_query h query) v (mirrored h t) value
        → IsBestOverAll (vertex_is_alive lives) (IsHopOn arcs) query v t (option_map (mirrored h) value) }
{}
