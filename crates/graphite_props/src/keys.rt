//! The keys of properties, numbered in the order of their first appearance.
ghost use Rattle.std.specs.Prelude.{◌≡◌, ◌<◌, ◌^◌, map, length};
ghost use Rattle.std.specs.List.{position_or_len};
ghost use Rattle.std.specs.Str.{bytes_eq};
ghost use Rattle.indexmap.specs.IndexSet.{spare};
ghost use Rattle.graphite_props.specs.Properties.{with_key};

use indexmap::IndexSet;

/// The number that a key has, or that it gets when it is added.
pub(crate) fn next_number(keys: &IndexSet<&[u8]>, key: &[u8]) -> u32
    requires { length keys.now.keys < 2 ^ 32 }
    ensures { result ≡ position_or_len (bytes_eq key.now) (map (λ name. name.now) keys.now.keys) }
{
    keys.get_index_of(key).unwrap_or(keys.len()) as u32
}

/// Adds a key at the end, unless it is there. `number` is the one that it has or gets, and the caller
/// has made room.
pub(crate) fn add_key<'a>(keys: &mut IndexSet<&'a [u8]>, key: &'a [u8], number: u32)
    requires room { 0 < spare keys.old }
    requires number { number ≡ position_or_len (bytes_eq key.now) (map (λ name. name.now) keys.old.keys) }
    ensures { map (λ name. name.now) keys.new.keys ≡ with_key (map (λ name. name.now) keys.old.keys) key.now }
{
    if (number as usize) < keys.len() {
        return;
    }
    keys.insert(key).unwrap();
}
