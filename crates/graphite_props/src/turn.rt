//! Rows that come in the order of their places: owner by owner, and those of an owner key by key.
ghost use Rattle.std.specs.Prelude.{◌≡◌, true, false, IfSome, IfNone, None, slice_get, All};
ghost use Rattle.std.specs.List.{find};
ghost use Rattle.std.specs.Option.{option_map_or};
ghost use Rattle.graphite_props.specs.Store.{place_eq};
ghost use Rattle.graphite_props.specs.Turn.{place_of, place_before, has_place, AreInTurn};

use crate::PropRow;

/// The place of a row: its owner, and the number of its key.
pub(crate) fn place_of(row: &PropRow) -> (u32, u32)
    ensures { result ≡ place_of row.now }
{
    (row.owner, row.key)
}

/// Whether a place comes before another.
fn is_before(x: (u32, u32), y: (u32, u32)) -> bool
    ensures { result ≡ place_before x y }
{
    x.0 < y.0 || x.0 == y.0 && x.1 < y.1
}

/// Whether a place comes after those of all rows, which are in turn.
pub(crate) fn follows(rows: &[PropRow], place: (u32, u32)) -> bool
    requires { AreInTurn rows.now }
    ensures { result ≡ true → All (λ row. place_before (place_of row) place ≡ true) rows.now }
{
    match rows.last() {
        Some(row) => is_before(place_of(row), place),
        None => true,
    }
}

/// Where the row of a place stands among rows in turn.
pub(crate) fn row_at(rows: &[PropRow], place: (u32, u32)) -> Option<usize>
    requires { AreInTurn rows.now }
    ensures there { IfSome result (λ number. find (has_place place) rows.now ≡ slice_get rows.now number) }
    ensures missing { IfNone result (find (has_place place) rows.now ≡ None) }
{
    if follows(rows, place) {
        return None;
    }
    let guess = guess_of(rows, place);
    if is_at(rows, guess, place) {
        return Some(guess);
    }
    let number = rows.partition_point(|row| is_before(place_of(row), place));
    if is_at(rows, number, place) {
        Some(number)
    } else {
        None
    }
}

/// Whether the row with a number has this place.
fn is_at(rows: &[PropRow], number: usize, place: (u32, u32)) -> bool
    ensures { result ≡ option_map_or (has_place place) (slice_get rows.now number) false }
{
    match rows.get(number) {
        Some(row) => place_of(row) == place,
        None => false,
    }
}

/// The number of the row of a place, where all owners from the first to the last have the same keys.
fn guess_of(rows: &[PropRow], place: (u32, u32)) -> usize {
    let (Some(first), Some(last)) = (rows.first(), rows.last()) else {
        return 0;
    };
    let owners = last.owner.saturating_sub(first.owner) as usize + 1;
    let keys = rows.len() / owners;
    let before = place.0.saturating_sub(first.owner) as usize;
    before.saturating_mul(keys).saturating_add(place.1 as usize)
}
