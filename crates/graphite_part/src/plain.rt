//! The values of partitions, which are copied and compared.
ghost use Rattle.std.specs.Prelude.{◌≡◌, ◌↔◌, Bool, true, false, IsTrue};
ghost use Rattle.std.specs.Mem.{FitsInMemory};
ghost use Rattle.std.proofs.Common.{lit<};
ghost use Rattle.graphite_part.specs.contracts.piece.Piece.{the_row as piece_row};
ghost use Rattle.std.specs.contracts.option.Option.{the_row as option_row};
ghost use Rattle.graphite_part.specs.Plain.{IsExact};
ghost use Rattle.graphite_part.specs.PlainLaws.{bool_exact, nat_exact, not_known, option_exact, pair_exact};

/// Plain values: they are copied, those that compare equal are the same value, and one of them stands
/// where none is given.
pub trait Plain: Copy + Ord + Default {
    ghost exact: { IsExact Self.cmp };

    /// Whether a single piece with a value is kept in place, which asks that it is known to fit in
    /// memory.
    const IN_PLACE: bool;

    ghost IN_PLACE: { Bool };

    ghost fits: { Self.IN_PLACE ≡ true → FitsInMemory (piece_row Self.row) };

    /// The same of a piece with a value or nothing.
    const OPTION_IN_PLACE: bool;

    ghost OPTION_IN_PLACE: { Bool };

    ghost option_fits: { Self.OPTION_IN_PLACE ≡ true → FitsInMemory (piece_row (option_row Self.row)) };
}

impl Plain for bool {
    ghost exact = { bool_exact };

    const IN_PLACE: bool = true;

    ghost IN_PLACE = { true };

    ghost fits = { λ _. lit< tt };

    const OPTION_IN_PLACE: bool = true;

    ghost OPTION_IN_PLACE = { true };

    ghost option_fits = { λ _. lit< tt };
}

impl Plain for u32 {
    ghost exact = { nat_exact };

    const IN_PLACE: bool = true;

    ghost IN_PLACE = { true };

    ghost fits = { λ _. lit< tt };

    const OPTION_IN_PLACE: bool = true;

    ghost OPTION_IN_PLACE = { true };

    ghost option_fits = { λ _. lit< tt };
}

impl Plain for u64 {
    ghost exact = { nat_exact };

    const IN_PLACE: bool = true;

    ghost IN_PLACE = { true };

    ghost fits = { λ _. lit< tt };

    const OPTION_IN_PLACE: bool = true;

    ghost OPTION_IN_PLACE = { true };

    ghost option_fits = { λ _. lit< tt };
}

impl<T: Plain> Plain for Option<T> {
    ghost exact = { option_exact T.cmp T.exact };

    const IN_PLACE: bool = T::OPTION_IN_PLACE;

    ghost IN_PLACE = { T.OPTION_IN_PLACE };

    ghost fits = { T.option_fits };

    const OPTION_IN_PLACE: bool = false;

    ghost OPTION_IN_PLACE = { false };

    ghost option_fits = { not_known };
}

impl<T: Plain, U: Plain> Plain for (T, U) {
    ghost exact = { pair_exact T.cmp U.cmp T.exact U.exact };

    const IN_PLACE: bool = false;

    ghost IN_PLACE = { false };

    ghost fits = { not_known };

    const OPTION_IN_PLACE: bool = false;

    ghost OPTION_IN_PLACE = { false };

    ghost option_fits = { not_known };
}

/// Whether two values are the same.
pub fn is_same<T: Plain>(x: T, y: T) -> bool
    ensures { IsTrue result ↔ (x ≡ y) }
{
    x == y
}
