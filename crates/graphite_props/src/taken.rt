//! What the rows of a text take of time, so that one more row can be tried against them in any order.
ghost use Rattle.std.specs.Prelude.{◌≡◌, ◌<◌, ◌≤◌, ◌^◌, ◌-◌, ◌++◌, ◌∷◌, [], ℕ, true, false, length, slice_index_or, All, IfSome, IfNone, IfOk, OnOk, OnErr};
ghost use Rattle.std.specs.List.{list_any};
ghost use Rattle.graphite_time.specs.Interval.{start_of};
ghost use Rattle.graphite_props.specs.Turn.{place_of};
ghost use Rattle.graphite_props.specs.Taken.{code_at, code_of, is_met_by, AreRows, AreRising, IsTaken, IsFound, IsLastUpTo, IsLow, IsOther, AreAbove};

use crate::PropRow;
use crate::turn::place_of;
use graphite_time::{Interval, NoMemory};
use std::alloc::Global;
use std::collections::BTreeMap;

/// The numbers of rows by the codes of their places and starts. A table is needed only from the first
/// row on whose code is not the greatest so far.
pub(crate) type Taken = BTreeMap<u128, u32>;

/// A place and a start as one number, which rises with the owner first, then with the key.
fn code_at(place: (u32, u32), start: u64) -> u128
    ensures { result ≡ code_at place start }
{
    let owner = u128::from(place.0) * 0x1_0000_0000_0000_0000_0000_0000;
    let key = u128::from(place.1) * 0x1_0000_0000_0000_0000;
    owner + key + u128::from(start)
}

/// The code of a row.
fn code_of(row: &PropRow) -> u128
    ensures { result ≡ code_of row.now }
{
    code_at(place_of(row), row.over.a())
}

/// Whether a row of this place holds at an instant of the interval.
pub(crate) fn is_taken(
    taken: &Option<Taken>,
    rows: &[PropRow],
    place: (u32, u32),
    over: Interval,
) -> bool
    requires rows { AreRows rows.now }
    requires few { length rows.now < 2 ^ 32 }
    requires found { IsFound rows.now taken.now }
    ensures { result ≡ list_any (is_met_by place over) rows.now }
{
    // of those that start before the end, the last ends last
    match last_up_to(taken, rows, code_at(place, over.b() - 1)) {
        Some(number) => {
            let row = &rows[number as usize];
            place_of(row) == place && over.a() < row.over.b()
        }
        None => false,
    }
}

/// The number of the row with the greatest of the codes up to this one.
fn last_up_to(taken: &Option<Taken>, rows: &[PropRow], most: u128) -> Option<u32>
    requires few { length rows.now < 2 ^ 32 }
    requires found { IsFound rows.now taken.now }
    ensures last { IfSome result (IsLastUpTo rows.now most) }
    ensures none { IfNone result (AreAbove rows.now most) }
{
    match taken {
        Some(table) => last_in(table, rows, most),
        None => last_rising(rows, most),
    }
}

/// The same in a table.
fn last_in(table: &Taken, rows: &[PropRow], most: u128) -> Option<u32>
    requires { IsTaken rows.now table.now }
    ensures last { IfSome result (IsLastUpTo rows.now most) }
    ensures none { IfNone result (AreAbove rows.now most) }
{
    match table.range(..=most).next_back() {
        Some((_, number)) => Some(*number),
        None => None,
    }
}

/// The same among rows that rise.
fn last_rising(rows: &[PropRow], most: u128) -> Option<u32>
    requires few { length rows.now < 2 ^ 32 }
    requires rising { AreRising rows.now }
    ensures last { IfSome result (IsLastUpTo rows.now most) }
    ensures none { IfNone result (AreAbove rows.now most) }
{
    let low = low_count(rows, most);
    if low == 0 {
        return None;
    }
    Some(low as u32 - 1)
}

/// How many rows, of those that rise, have a code up to this one.
fn low_count(rows: &[PropRow], most: u128) -> usize
    requires { AreRising rows.now }
    ensures { IsLow rows.now most result }
{
    // rows mostly come in order, and then nothing is searched
    if comes_last(rows, most) {
        return rows.len();
    }
    rows.partition_point(|row| code_of(row) <= most)
}

/// Whether no row has a code above this one.
fn comes_last(rows: &[PropRow], code: u128) -> bool
    requires { AreRising rows.now }
    ensures { result ≡ true → (k : ℕ) (d : PropRow) → k < length rows.now → code_of (slice_index_or rows.now k d) ≤ code }
{
    match rows.last() {
        Some(row) => code_of(row) <= code,
        None => true,
    }
}

/// Makes the table ready for a row that will be added behind the others, where there has to be one.
pub(crate) fn take_row(
    alloc: Global,
    taken: &mut Option<Taken>,
    rows: &[PropRow],
    row: PropRow,
) -> Result<(), NoMemory>
    requires few { length rows.now < 2 ^ 32 }
    requires other { IsOther rows.now row }
    requires found { IsFound rows.now taken.old }
    ensures ok { OnOk result (IsFound (rows.now ++ row ∷ []) taken.new) }
    ensures err { OnErr result (IsFound rows.now taken.new) }
{
    if let Some(table) = taken {
        return insert_row(table, rows, row);
    }
    if comes_last(rows, code_of(&row)) {
        return Ok(());
    }
    let mut table = table_of(alloc, rows)?;
    insert_row(&mut table, rows, row)?;
    *taken = Some(table);
    Ok(())
}

/// The table of rows that rise.
fn table_of(alloc: Global, rows: &[PropRow]) -> Result<Taken, NoMemory>
    requires few { length rows.now < 2 ^ 32 }
    requires rising { AreRising rows.now }
    ensures { IfOk result (IsTaken rows.now) }
{
    let mut table = BTreeMap::new(alloc);
    for number in 0..rows.len() {
        insert_row(&mut table, &rows[..number], rows[number])?;
    }
    Ok(table)
}

/// Adds to the table a row that will be added behind the others.
fn insert_row(table: &mut Taken, rows: &[PropRow], row: PropRow) -> Result<(), NoMemory>
    requires few { length rows.now < 2 ^ 32 }
    requires other { IsOther rows.now row }
    requires taken { IsTaken rows.now table.old }
    ensures ok { OnOk result (IsTaken (rows.now ++ row ∷ []) table.new) }
    ensures err { OnErr result (IsTaken rows.now table.new) }
{
    match table.insert(code_of(&row), rows.len() as u32) {
        Ok(_) => Ok(()),
        Err(_) => Err(NoMemory),
    }
}
