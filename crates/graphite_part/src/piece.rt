//! A value over an interval.
ghost use Rattle.std.specs.Prelude.{◌≡◌, ◌↔◌, IsTrue};
ghost use Rattle.graphite_part.specs.declared.piece.Piece.{Piece};

use crate::{Lasting, Plain, is_same};
use graphite_time::Interval;

/// A value over an interval of instants.
#[derive(Clone, Copy, Debug, PartialEq, Eq)]
pub struct Piece<T> {
    pub over: Interval,
    pub value: T,
}

impl<T: Plain> Lasting for Piece<T> {
    ghost Value = { T };

    ghost piece = { λ piece. piece };

    fn interval(&self) -> Interval {
        self.over
    }

    fn has_value_of(&self, other: &Self) -> bool {
        is_same(self.value, other.value)
    }

    fn set_interval(&mut self, over: Interval) {
        self.over = over;
    }
}
