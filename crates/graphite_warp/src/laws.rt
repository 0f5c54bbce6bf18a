//! Laws of time-warp. The functions do nothing: what they ensure is the law.
ghost use Rattle.std.specs.Prelude.{◌≡◌, ◌≢◌, ◌↔◌, ◌≤◌, ◌&&◌, ℕ, IsTrue, Bool, List, [], Option, None, Some, is_some, map, slice_get, IsSorted};
ghost use Rattle.std.specs.List.Sorted.{IsPermutation};
ghost use Rattle.graphite_time.specs.Interval.{holds};
ghost use Rattle.graphite_part.specs.declared.piece.Piece.{Piece};
ghost use Rattle.graphite_part.specs.Pieces.{value_at, AreRuns, run_of};
ghost use Rattle.graphite_part.specs.Runs.{runs_of, TellsApart};
ghost use Rattle.graphite_warp.specs.declared.message.Message.{Message};
ghost use Rattle.graphite_warp.specs.declared.touch.Touch.{Touch};
ghost use Rattle.graphite_warp.specs.Sorted.{sorted};
ghost use Rattle.graphite_warp.specs.Warp.{notes_at, is_touched, is_asked, warped};

use graphite_part::Plain;

/// For these states and messages there is one list of triples.
pub fn triples_are_unique<S: Plain, M: Plain>()
    ensures { (touch : Touch) (states : ℕ → Option S) (messages : List (Message M))
        (xs ys : List (Piece (S × List M)))
        → AreRuns (warped M.cmp touch states messages) xs
        → AreRuns (warped M.cmp touch states messages) ys → xs ≡ ys }
{}

/// At each instant that a triple holds, its state is the state, its notes are those of exactly the
/// messages that hold the instant, and the instant is asked for.
pub fn triples_tell<S: Plain, M: Plain>()
    ensures { (touch : Touch) (states : ℕ → Option S) (messages : List (Message M))
        (triples : List (Piece (S × List M))) (k t : ℕ) (triple : Piece (S × List M))
        → AreRuns (warped M.cmp touch states messages) triples
        → slice_get triples k ≡ Some triple → IsTrue (holds triple.over t)
        → (states t ≡ Some triple.value.0) × (notes_at M.cmp messages t ≡ triple.value.1)
        × IsTrue (is_asked touch messages t) }
{}

/// An instant lies in a triple exactly where it has a state and is asked for.
pub fn instants_are_met<S: Plain, M: Plain>()
    ensures { (touch : Touch) (states : ℕ → Option S) (messages : List (Message M))
        (triples : List (Piece (S × List M))) (t : ℕ)
        → AreRuns (warped M.cmp touch states messages) triples
        → is_some (value_at triples t) ≡ (is_asked touch messages t && is_some (states t)) }
{}

/// The triples are the list of the maximal runs of state and notes, where there is no state from the
/// horizon on.
pub fn triples_are_runs<S: Plain, M: Plain>()
    ensures { (same : S × List M → S × List M → Bool) (touch : Touch) (states : ℕ → Option S)
        (messages : List (Message M)) (horizon : ℕ) (triples : List (Piece (S × List M)))
        → TellsApart (λ x. x) same → AreRuns (warped M.cmp touch states messages) triples
        → ((t : ℕ) → horizon ≤ t → states t ≡ None)
        → map run_of triples ≡ runs_of same (warped M.cmp touch states messages) horizon }
{}

/// A message holds an instant exactly where the instant has a note.
pub fn touched_instants_have_notes<M: Plain>()
    ensures { (messages : List (Message M)) (t : ℕ)
        → IsTrue (is_touched messages t) ↔ (notes_at M.cmp messages t ≢ []) }
{}

/// The order of the messages does not matter.
pub fn order_is_free<S: Plain, M: Plain>()
    ensures notes { (xs ys : List (Message M)) (t : ℕ)
        → IsPermutation xs ys → notes_at M.cmp xs t ≡ notes_at M.cmp ys t }
    ensures triples { (touch : Touch) (states : ℕ → Option S) (xs ys : List (Message M)) (t : ℕ)
        → IsPermutation xs ys
        → warped M.cmp touch states xs t ≡ warped M.cmp touch states ys t }
{}

/// The sorted list has the elements of the list, in rising order.
pub fn sorted_lists_rise<M: Plain>()
    ensures elements { (notes : List M) → IsPermutation notes (sorted M.cmp notes) }
    ensures rise { (notes : List M) → IsSorted M.cmp (sorted M.cmp notes) }
{}
