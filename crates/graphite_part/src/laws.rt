//! Laws of pieces. The functions do nothing: what they ensure is the law.
ghost use Rattle.std.specs.Prelude.{◌≡◌, ◌≤◌, ℕ, List, Bool, Option, None, IfSome, map, option_map};
ghost use Rattle.graphite_part.specs.declared.piece.Piece.{Piece};
ghost use Rattle.graphite_part.specs.Pieces.{value_at, IsChain, AreRuns, run_of, run_with};
ghost use Rattle.graphite_part.specs.Calls.{AreAnswers};
ghost use Rattle.graphite_part.specs.Runs.{runs_of, TellsApart};

/// Two chains with the same value at every instant are the same list of pieces.
pub fn chain_is_unique<T>()
    ensures { (xs ys : List (Piece T)) → IsChain xs → IsChain ys
        → ((t : ℕ) → value_at xs t ≡ value_at ys t) → xs ≡ ys }
{}

/// A chain with the values of f is the list of the maximal runs of f, where f has nothing from the
/// horizon on.
pub fn pieces_are_runs<T>()
    ensures { (same : T → T → Bool) (f : ℕ → Option T) (horizon : ℕ) (pieces : List (Piece T))
        → TellsApart (λ x. x) same → AreRuns f pieces → ((t : ℕ) → horizon ≤ t → f t ≡ None)
        → map run_of pieces ≡ runs_of same f horizon }
{}

/// The same after a function that keeps different values apart.
pub fn pieces_are_mapped_runs<T, U>()
    ensures { (g : T → U) (same : U → U → Bool) (f : ℕ → Option T) (horizon : ℕ)
        (pieces : List (Piece T))
        → TellsApart g same → AreRuns f pieces → ((t : ℕ) → horizon ≤ t → f t ≡ None)
        → map (run_with g) pieces ≡ runs_of same (λ t. option_map g (f t)) horizon }
{}

/// Where a function says the only thing that `f` gives of each value, what `f` gives are the runs of
/// that function.
pub fn answers_are_runs<T, U, F: Fn(T) -> U>(f: &F)
    ensures { (g : T → U) (old : List (Piece T)) (new : List (Piece U))
        → ((t : ℕ) → IfSome (value_at old t) (λ x. (y : U) → F.post f.now x y → y ≡ g x))
        → AreAnswers (F.post f.now) old new → AreRuns (λ t. option_map g (value_at old t)) new }
{}
