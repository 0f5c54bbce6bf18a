//! The notes that vertices are told, gathered in a group for each vertex.
ghost use Rattle.std.specs.Prelude.{◌≡◌, ◌≢◌, ◌<◌, ◌++◌, ◌∷◌, [], ℕ, map, length, IfOk, OnOk};
ghost use Rattle.std.specs.List.{range_with_len};
ghost use Rattle.graphite_warp.specs.Sorted.{sorted};
ghost use Rattle.graphite_api.specs.Outcomes.{list_of};

use graphite_part::Plain;
use graphite_time::NoMemory;
use graphite_warp::sort_notes;
use std::alloc::Global;
use std::marker::Model;

/// The notes that each of a number of vertices is told.
#[derive(Drop)]
pub(crate) struct Groups<M: Plain> {
    groups: Vec<Group<M>>,
}

impl<M: Plain> Model for Groups<M> {
    ghost use Rattle.std.specs.Prelude.{List};

    ghost Value = { List (List M) };

    ghost view = { λ groups. groups.groups.items };
}

impl<M: Plain> Groups<M> {
    /// As many groups without notes.
    pub fn empty(alloc: Global, vertices: usize) -> Result<Groups<M>, NoMemory>
        ensures { IfOk result (λ groups. groups ≡ map (λ _. []) (range_with_len 0 vertices)) }
    {
        let groups = (0..vertices).map(|_| Group::new(alloc)).collect(alloc)?;
        Ok(Groups { groups })
    }

    /// Adds a note to the group of a vertex.
    pub fn add(&mut self, to: u32, note: M) -> Result<(), NoMemory>
        requires { to < length self.old }
        ensures len { length self.new ≡ length self.old }
        ensures own { OnOk result (list_of self.new to ≡ list_of self.old to ++ note ∷ []) }
        ensures others { OnOk result ((v : ℕ) → v ≢ to → list_of self.new v ≡ list_of self.old v) }
    {
        add_note(&mut self.groups, to, note)
    }

    /// Puts the notes of each group in rising order. Repeats stay.
    pub fn sort(&mut self)
        ensures len { length self.new ≡ length self.old }
        ensures sorted { (v : ℕ) → list_of self.new v ≡ sorted M.cmp (list_of self.old v) }
    {
        sort_groups(&mut self.groups);
    }

    /// The notes in the group of a vertex.
    pub fn notes(&self, v: usize) -> &[M]
        requires { v < length self.now }
        ensures { result.now ≡ list_of self.now v }
    {
        self.groups[v].notes()
    }
}

/// The notes that one vertex is told.
#[derive(Drop)]
struct Group<M: Plain> {
    notes: Vec<M>,
}

impl<M: Plain> Model for Group<M> {
    ghost use Rattle.std.specs.Prelude.{List};

    ghost Value = { List M };

    ghost view = { λ group. group.notes.items };
}

impl<M: Plain> Group<M> {
    /// No notes. It takes no memory.
    fn new(alloc: Global) -> Group<M>
        ensures { result ≡ [] }
    {
        Group {
            notes: Vec::new(alloc),
        }
    }

    fn add(&mut self, note: M) -> Result<(), NoMemory>
        ensures { OnOk result (self.new ≡ self.old ++ note ∷ []) }
    {
        self.notes.push(note)?;
        Ok(())
    }

    fn sort(&mut self)
        ensures { self.new ≡ sorted M.cmp self.old }
    {
        sort_notes(&mut self.notes);
    }

    fn notes(&self) -> &[M]
        ensures { result.now ≡ self.now }
    {
        &self.notes
    }
}

fn add_note<M: Plain>(groups: &mut [Group<M>], to: u32, note: M) -> Result<(), NoMemory>
    requires { to < length groups.old }
    ensures own { OnOk result (list_of groups.new to ≡ list_of groups.old to ++ note ∷ []) }
    ensures others { OnOk result ((v : ℕ) → v ≢ to → list_of groups.new v ≡ list_of groups.old v) }
{
    groups[to as usize].add(note)
}

fn sort_groups<M: Plain>(groups: &mut [Group<M>])
    ensures { (v : ℕ) → list_of groups.new v ≡ sorted M.cmp (list_of groups.old v) }
{
    for group in groups.iter_mut() {
        group.sort();
    }
}
