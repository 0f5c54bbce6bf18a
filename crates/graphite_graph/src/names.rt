//! Names by their numbers, kept in one of two ways.
ghost use Rattle.std.specs.Prelude.{◌≡◌, ◌<◌, ◌^◌, [], ◌∷◌, ◌++◌, Some, slice_get, length, position, is_none, if◌then◌else◌, IfSome, IfOk, OnErr};
ghost use Rattle.std.specs.Str.{bytes_eq};

use crate::hashed::HashedNames;
use crate::numbered::NumberedNames;
use graphite_time::NoMemory;
use std::alloc::Global;
use std::marker::Model;

/// Names of bytes, all different, numbered from 0 in the order in which they were inserted. They
/// stay in the text that they were read from.
#[derive(Drop)]
pub struct Names<'a> {
    kept: Kept<'a>,
}

/// Programs that write graphs mostly number the names, so names have a table of hashes only from
/// the first one on that is out of turn.
#[derive(Drop)]
pub(crate) enum Kept<'a> {
    Numbered(NumberedNames<'a>),
    Hashed(HashedNames<'a>),
}

impl<'a> Model for Names<'a> {
    ghost use Rattle.std.specs.Prelude.{List, ℕ};
    ghost use Rattle.graphite_graph.specs.Names.{names_of};

    ghost Value = { List (List ℕ) };

    ghost view = { λ names. names_of names.kept };
}

impl<'a> Names<'a> {
    /// No names.
    pub fn new(alloc: Global) -> Names<'a>
        ensures { result ≡ [] }
    {
        Names {
            kept: Kept::Numbered(NumberedNames::new(alloc)),
        }
    }

    /// How many names there are.
    pub fn len(&self) -> u32
        ensures { result ≡ length self.now }
    {
        match &self.kept {
            Kept::Numbered(names) => names.len(),
            Kept::Hashed(names) => names.len(),
        }
    }

    /// The number of a name.
    pub fn number_of(&self, name: &[u8]) -> Option<u32>
        ensures number { result ≡ position (bytes_eq name.now) self.now }
        ensures within { IfSome result (λ number. number < length self.now) }
    {
        match &self.kept {
            Kept::Numbered(names) => names.number_of(name),
            Kept::Hashed(names) => names.number_of(name),
        }
    }

    /// The number of a name, as [`Names::number_of`] has it, without a search where it is `guess` or
    /// the one after it.
    pub fn number_near(&self, name: &[u8], guess: u32) -> Option<u32>
        ensures number { result ≡ position (bytes_eq name.now) self.now }
        ensures within { IfSome result (λ number. number < length self.now) }
    {
        match &self.kept {
            Kept::Numbered(names) => names.number_of(name),
            Kept::Hashed(names) => names.number_near(name, guess),
        }
    }

    /// The name with a number.
    pub fn name_at(&self, number: u32) -> &'a [u8]
        requires { number < length self.now }
        ensures { slice_get self.now number ≡ Some result.now }
    {
        match &self.kept {
            Kept::Numbered(names) => names.name_at(number),
            Kept::Hashed(names) => names.name_at(number),
        }
    }

    /// Adds a name, and answers `true`, where it is new. Where it is not, nothing changes.
    pub fn insert(&mut self, name: &'a [u8]) -> Result<bool, NoMemory>
        requires { length self.old < 2 ^ 22 }
        ensures added { IfOk result (λ added. added ≡ is_none (position (bytes_eq name.now) self.old)) }
        ensures names { IfOk result (λ added. self.new ≡ (if added then self.old ++ name.now ∷ [] else self.old)) }
        ensures err { OnErr result (self.new ≡ self.old) }
    {
        let mut hashed = match &mut self.kept {
            Kept::Hashed(names) => return names.insert(name),
            Kept::Numbered(names) => {
                if names.push_next(name)? {
                    return Ok(true);
                }
                names.to_hashed()?
            }
        };
        let added = hashed.insert(name)?;
        self.kept = Kept::Hashed(hashed);
        Ok(added)
    }
}
