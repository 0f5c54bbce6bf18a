//! Laws of supersteps. The functions do nothing: what they ensure is the law.
ghost use Rattle.std.specs.Prelude.{◌≡◌, ◌<◌, ◌≤◌, ◌+◌, ◌++◌, ◌==◌, ℕ, suc, false, List, Option, None, filter, filter_map};
ghost use Rattle.graphite_warp.specs.Sorted.{sorted};
ghost use Rattle.graphite_api.specs.declared.next.Next.{Next};
ghost use Rattle.graphite_api.specs.Plan.{Plan};
ghost use Rattle.graphite_api.specs.Rules.{state_of};
ghost use Rattle.graphite_api.specs.Snapshot.{Link, Snapshot, both_ways};
ghost use Rattle.graphite_api.specs.Supersteps.{number_after, groups_on, going_on, after, sends_in, note_along, group_of};
ghost use Rattle.graphite_api.specs.Calls.{supersteps_made};

/// Where no vertex sends in a superstep, no later one changes anything, for a program whose vertices
/// do not always compute.
pub fn silence_lasts<S, M>()
    ensures { (plan : Plan S M) (snapshot : Snapshot S) (k j : ℕ)
        → plan.always ≡ false → 1 ≤ k → ((v : ℕ) → sends_in plan snapshot k v ≡ false) → k ≤ j
        → (v : ℕ) → after plan snapshot j v ≡ after plan snapshot k v }
{}

/// So the outcomes of the supersteps that are made are those of all that are allowed, at every instant
/// below the horizon.
pub fn early_stop_changes_nothing<S, M>()
    ensures { (plan : Plan S M) (snapshots : ℕ → Snapshot S) (vertices horizon steps t : ℕ)
        → t < horizon → ((w : ℕ) → vertices ≤ w → (snapshots t).start w ≡ None)
        → (v : ℕ) → after plan (snapshots t) (supersteps_made plan snapshots vertices horizon steps) v
        ≡ after plan (snapshots t) steps v }
{}

/// Supersteps that go on from the states and the groups that n of them left are those that come after
/// these n in one run.
pub fn going_on_is_one_run<S, M>()
    ensures { (plan : Plan S M) (links : List Link) (k : ℕ) (states : ℕ → Option S) (groups : ℕ → List M) (n m : ℕ)
        → let whole = going_on plan links k states groups in
        (v : ℕ) → going_on plan links (number_after k n) (λ w. state_of (whole n w)) (groups_on plan links groups n (whole n)) (suc m) v
        ≡ whole (suc (n + m)) v }
{}

/// Where edges lead both ways, a vertex is told by the sources of the links into it and by the
/// targets of the links out of it.
pub fn both_ends_tell<S, M>()
    ensures { (plan : Plan S M) (links : List Link) (outcomes : ℕ → Option (Next S)) (v : ℕ)
        → group_of plan (both_ways links) outcomes v
        ≡ sorted plan.order
        (filter_map (λ link. note_along plan (outcomes link.from) link) (filter (λ link. link.to == v) links)
        ++ filter_map (λ link. note_along plan (outcomes link.to) link) (filter (λ link. link.from == v) links)) }
{}
