//! Names that are a prefix with numbers that rise by one, which need no table.
ghost use Rattle.std.specs.Prelude.{◌≡◌, ℕ, ◌+◌, ◌<◌, ◌≤◌, ◌^◌, [], ◌∷◌, ◌++◌, None, Some, slice_get, length, position, is_none, is_some, if◌then◌else◌, true, false, reverse, IfSome, IfNone, IfOk, OnErr};
ghost use Rattle.std.specs.Char.{is_ascii_digit};
ghost use Rattle.std.specs.List.{take_while};
ghost use Rattle.std.specs.Str.{bytes_eq};
ghost use Rattle.graphite_graph.specs.Numbered.{prefix_of, number_after, AreNumbered};

use crate::hashed::HashedNames;
use graphite_base::number_of;
use graphite_time::NoMemory;
use std::alloc::Global;
use std::marker::Model;

/// How names are numbered: the k-th name is the prefix with `first + k` behind it.
#[derive(Clone, Copy)]
struct Numbering<'a> {
    /// What all names begin with.
    prefix: &'a [u8],
    /// The number of the first name.
    first: u64,
}

/// Names of bytes, all different. They are one prefix with canonical decimals behind it, which rise
/// by one, as in `v0`, `v1` and `v2`. So the bytes of a name say where it stands, and no other name
/// is read to find it. They stay in the text.
#[derive(Drop)]
pub(crate) struct NumberedNames<'a> {
    numbering: Numbering<'a>,
    names: Vec<&'a [u8]>,
}

impl<'a> Model for NumberedNames<'a> {
    ghost use Rattle.std.specs.Prelude.{List, ℕ, map, length, ◌≤◌, ◌^◌};
    ghost use Rattle.graphite_graph.specs.Numbered.{AreNumbered};

    ghost Value = { List (List ℕ) };

    ghost view = { λ numbered. map (λ name. name.now) numbered.names.items };

    ghost invariant = { λ numbered. (length numbered.names.items ≤ 2 ^ 22)
        × AreNumbered numbered.numbering.prefix.now numbered.numbering.first (map (λ name. name.now) numbered.names.items) };
}

/// How many digits a name ends in.
fn digits_at_end(name: &[u8]) -> usize
    ensures { result ≡ length (take_while is_ascii_digit (reverse name.now)) }
{
    name.iter().rev().take_while(|c| c.is_ascii_digit()).count()
}

/// A name without the digits that it ends in.
fn prefix_of(name: &[u8]) -> &[u8]
    ensures { result.now ≡ prefix_of name.now }
{
    &name[..name.len() - digits_at_end(name)]
}

/// The number behind a prefix in a name. `None` where the name does not begin with the prefix, or
/// where what follows is no canonical decimal or does not fit 64 bits.
fn number_after(prefix: &[u8], name: &[u8]) -> Option<u64>
    ensures { result ≡ number_after prefix.now name.now }
{
    match name.strip_prefix(prefix) {
        Some(digits) => number_of(digits, u64::MAX),
        None => None,
    }
}

impl Numbering<'_> {
    /// The only place that a name can have.
    fn place_of(&self, name: &[u8]) -> Option<u64>
        ensures place { IfSome result (λ place. number_after self.now.prefix.now name.now ≡ Some (self.now.first + place)) }
        ensures missing { IfNone result ((place : ℕ) → number_after self.now.prefix.now name.now ≡ Some (self.now.first + place) → ⊥) }
    {
        match number_after(self.prefix, name) {
            Some(number) => number.checked_sub(self.first),
            None => None,
        }
    }

    /// Whether a name can have a place.
    fn has_at(&self, place: u32, name: &[u8]) -> bool
        ensures { result ≡ true → number_after self.now.prefix.now name.now ≡ Some (self.now.first + place) }
    {
        match self.place_of(name) {
            Some(own) => own == u64::from(place),
            None => false,
        }
    }
}

impl<'a> NumberedNames<'a> {
    /// No names.
    pub(crate) fn new(alloc: Global) -> NumberedNames<'a>
        ensures { result ≡ [] }
    {
        NumberedNames {
            numbering: Numbering {
                prefix: b"",
                first: 0,
            },
            names: Vec::new(alloc),
        }
    }

    /// How many names there are.
    pub(crate) fn len(&self) -> u32
        ensures { result ≡ length self.now }
    {
        self.names.len() as u32
    }

    /// The number of a name.
    pub(crate) fn number_of(&self, name: &[u8]) -> Option<u32>
        ensures number { result ≡ position (bytes_eq name.now) self.now }
        ensures within { IfSome result (λ number. number < length self.now) }
    {
        match self.numbering.place_of(name) {
            Some(place) => {
                if place < u64::from(self.len()) {
                    Some(place as u32)
                } else {
                    None
                }
            }
            None => None,
        }
    }

    /// The name with a number.
    pub(crate) fn name_at(&self, number: u32) -> &'a [u8]
        requires { number < length self.now }
        ensures { slice_get self.now number ≡ Some result.now }
    {
        self.names[number as usize]
    }

    /// The numbering, once `name` is added behind the others. `None` where there are no others, and
    /// `name` ends in no number.
    fn numbering_with(&self, name: &'a [u8]) -> Option<Numbering<'a>>
        ensures { IfSome result (λ numbering. AreNumbered numbering.prefix.now numbering.first self.now) }
    {
        if !self.names.is_empty() {
            return Some(self.numbering);
        }
        let prefix = prefix_of(name);
        let first = number_after(prefix, name)?;
        Some(Numbering { prefix, first })
    }

    /// Adds a name where it is the one after the last, and answers whether it did.
    pub(crate) fn push_next(&mut self, name: &'a [u8]) -> Result<bool, NoMemory>
        requires { length self.old < 2 ^ 22 }
        ensures fresh { IfOk result (λ pushed. pushed ≡ true → position (bytes_eq name.now) self.old ≡ None) }
        ensures names { IfOk result (λ pushed. self.new ≡ (if pushed then self.old ++ name.now ∷ [] else self.old)) }
        ensures err { OnErr result (self.new ≡ self.old) }
    {
        let Some(numbering) = self.numbering_with(name) else {
            return Ok(false);
        };
        if !numbering.has_at(self.len(), name) {
            return Ok(false);
        }
        self.names.push(name)?;
        self.numbering = numbering;
        Ok(true)
    }

    /// The same names, found by their hashes.
    pub(crate) fn to_hashed(&self) -> Result<HashedNames<'a>, NoMemory>
        ensures { IfOk result (λ hashed. hashed ≡ self.now) }
    {
        let mut hashed = HashedNames::new(*self.names.allocator());
        for name in &self.names {
            hashed.insert(*name)?;
        }
        Ok(hashed)
    }
}
