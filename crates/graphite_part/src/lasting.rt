//! Lists of what holds a value at the instants of an interval, written from the first instant to the
//! last: what touches the last one with its value lengthens it.
ghost use Rattle.std.specs.Prelude.{◌≡◌, ◌↔◌, ◌<◌, ◌≤◌, IsTrue, IfSome, IfNone, OnOk, OnErr, map, length};
ghost use Rattle.graphite_time.specs.Interval.{start_of};
ghost use Rattle.graphite_part.specs.declared.piece.Piece.{Piece};
ghost use Rattle.graphite_part.specs.Pieces.{IsChain, last_end};
ghost use Rattle.graphite_part.specs.Fills.{EndsWith, Lengthens, Pushed};

use graphite_time::{Interval, NoMemory};

/// What holds a value at the instants of an interval, and can hold it for longer: contracts see it as
/// a piece.
pub trait Lasting: Drop {
    ghost Value: { Type 0 };

    ghost piece: { Self → Piece Value };

    /// The instants.
    fn interval(&self) -> Interval
        ensures { result ≡ (piece self.now).over };

    /// Whether both hold the same value.
    fn has_value_of(&self, other: &Self) -> bool
        ensures { IsTrue result ↔ ((piece self.now).value ≡ (piece other.now).value) };

    /// Moves it to other instants, with its value.
    fn set_interval(&mut self, over: Interval)
        ensures { piece self.new ≡ record { over = over; value = (piece self.old).value } };
}

/// Adds one at the end. Where it touches the last one with the same value, that is lengthened in its
/// place. After [`NoMemory`] nothing has changed.
pub fn append<P: Lasting>(list: &mut Vec<P>, next: P) -> Result<(), NoMemory>
    requires chain { IsChain (map P.piece list.old.items) }
    requires later { last_end (map P.piece list.old.items) ≤ start_of (P.piece next).over }
    ensures ok { OnOk result (Pushed (map P.piece list.old.items) (map P.piece list.new.items)
        (P.piece next).over (P.piece next).value) }
    ensures err { OnErr result (list.new.items ≡ list.old.items) }
{
    if let Some(longer) = lengthened(list, &next) {
        let last = list.len() - 1;
        list[last].set_interval(longer);
        return Ok(());
    }
    list.push(next)?;
    Ok(())
}

/// The interval of the last one together with that of `next`, where the two touch with the same value.
fn lengthened<P: Lasting>(list: &[P], next: &P) -> Option<Interval>
    ensures apart { IfNone result
        (EndsWith (map P.piece list.now) (start_of (P.piece next.now).over) (P.piece next.now).value → ⊥) }
    ensures touching { IfSome result
        (Lengthens (map P.piece list.now) (P.piece next.now).over (P.piece next.now).value) }
{
    let last = list.last()?;
    let before = last.interval();
    let over = next.interval();
    if before.b() == over.a() && last.has_value_of(next) {
        return Interval::new(before.a(), over.b());
    }
    None
}
