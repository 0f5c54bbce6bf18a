//! Lists of notes in rising order.
ghost use Rattle.std.specs.Prelude.{◌≡◌};
ghost use Rattle.graphite_warp.specs.Sorted.{sorted};

use graphite_part::Plain;

/// Sorts notes. Repeats stay: since notes that compare equal are the same note, the sorted list is
/// determined.
pub fn sort_notes<M: Plain>(notes: &mut Vec<M>)
    ensures { notes.new.items ≡ sorted M.cmp notes.old.items }
{
    notes.sort_unstable();
}
