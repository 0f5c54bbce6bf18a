//! Names in a table of hashes.
ghost use Rattle.std.specs.Prelude.{◌≡◌, ◌<◌, ◌^◌, [], ◌∷◌, ◌++◌, Some, slice_get, length, position, is_none, if◌then◌else◌, true, IfSome, IfOk, OnErr};
ghost use Rattle.std.specs.Str.{bytes_eq};

use graphite_time::NoMemory;
use indexmap::IndexSet;
use std::alloc::Global;
use std::marker::Model;

/// Names of bytes, all different, numbered from 0 in the order in which they were inserted. They
/// stay in the text that they were read from.
#[derive(Drop)]
pub(crate) struct HashedNames<'a> {
    set: IndexSet<&'a [u8]>,
}

impl<'a> Model for HashedNames<'a> {
    ghost use Rattle.std.specs.Prelude.{List, ℕ, map, length, ◌≤◌, ◌^◌};

    ghost Value = { List (List ℕ) };

    ghost view = { λ names. map (λ name. name.now) names.set.keys };

    ghost invariant = { λ names. length names.set.keys ≤ 2 ^ 22 };
}

impl<'a> HashedNames<'a> {
    /// No names.
    pub(crate) fn new(alloc: Global) -> HashedNames<'a>
        ensures { result ≡ [] }
    {
        HashedNames {
            set: IndexSet::new(alloc),
        }
    }

    /// How many names there are.
    pub(crate) fn len(&self) -> u32
        ensures { result ≡ length self.now }
    {
        self.set.len() as u32
    }

    /// The number of a name.
    pub(crate) fn number_of(&self, name: &[u8]) -> Option<u32>
        ensures number { result ≡ position (bytes_eq name.now) self.now }
        ensures within { IfSome result (λ number. number < length self.now) }
    {
        match self.set.get_index_of(name) {
            Some(number) => Some(number as u32),
            None => None,
        }
    }

    /// The number of a name, as [`HashedNames::number_of`] has it, without a search where it is `guess` or
    /// the one after it.
    pub(crate) fn number_near(&self, name: &[u8], guess: u32) -> Option<u32>
        ensures number { result ≡ position (bytes_eq name.now) self.now }
        ensures within { IfSome result (λ number. number < length self.now) }
    {
        if self.has_at(guess as usize, name) {
            return Some(guess);
        }
        let next = guess.saturating_add(1);
        if self.has_at(next as usize, name) {
            return Some(next);
        }
        self.number_of(name)
    }

    /// Whether a name has a number.
    fn has_at(&self, number: usize, name: &[u8]) -> bool
        ensures place { result ≡ true → position (bytes_eq name.now) self.now ≡ Some number }
        ensures within { result ≡ true → number < length self.now }
    {
        match self.set.as_slice().get(number) {
            Some(stored) => name == *stored,
            None => false,
        }
    }

    /// The name with a number.
    pub(crate) fn name_at(&self, number: u32) -> &'a [u8]
        requires { number < length self.now }
        ensures { slice_get self.now number ≡ Some result.now }
    {
        self.set.as_slice()[number as usize]
    }

    /// Adds a name, and answers `true`, where it is new. Where it is not, nothing changes.
    pub(crate) fn insert(&mut self, name: &'a [u8]) -> Result<bool, NoMemory>
        requires { length self.old < 2 ^ 22 }
        ensures added { IfOk result (λ added. added ≡ is_none (position (bytes_eq name.now) self.old)) }
        ensures names { IfOk result (λ added. self.new ≡ (if added then self.old ++ name.now ∷ [] else self.old)) }
        ensures err { OnErr result (self.new ≡ self.old) }
    {
        let (_, added) = self.set.insert_full(name)?;
        Ok(added)
    }
}
