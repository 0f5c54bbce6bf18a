//! A run of supersteps, made one at a time.
ghost use Rattle.std.specs.Prelude.{◌≡◌, ◌+◌, ◌^◌, ◌<◌, ◌≤◌, [], true, false, All, IfOk, IsOk, IsErr, OnOk, OnErr, length};
ghost use Rattle.graphite_part.specs.Pieces.{IsChain};
ghost use Rattle.graphite_api.specs.declared.TheConstants.{STEP_LIMIT};
ghost use Rattle.graphite_loop.specs.Deliveries.{standing_of};
ghost use Rattle.graphite_loop.specs.Progress.{AreInitial};
ghost use Rattle.graphite_loop.specs.Run.{IsStart};
ghost use Rattle.graphite_loop.specs.Superstep.{IsSuperstep};
ghost use Rattle.graphite_loop.specs.Walk.{IsGivenUp};

use crate::Delivery;
use crate::walk::make_superstep;
use graphite_api::{ArcTable, Program, STEP_LIMIT};
use graphite_part::{Partition, Plain};
use graphite_time::NoMemory;
use std::alloc::Global;
use std::marker::Model;
use std::mem;

/// Supersteps over the arcs of a table, which it borrows.
#[derive(Drop)]
pub struct Run<'t, P: Program> {
    alloc: Global,
    table: &'t ArcTable,
    states: Vec<Partition<P::State>>,
    // the messages that are read in the next superstep, in the order of the vertices
    deliveries: Vec<Delivery<P::Note>>,
    made: u32,
    refused: bool,
}

impl<'t, P: Program> Model for Run<'t, P> {
    ghost use Rattle.std.specs.Prelude.{◌≡◌, false, length};
    ghost use Rattle.graphite_loop.specs.Progress.{Progress, IsReady};
    ghost use Rattle.graphite_loop.specs.Deliveries.{standing_of};

    ghost Value = { Progress P.State P.Note };

    ghost view = { λ run. record {
      table = run.table.now;
      standing = standing_of run.states.items run.deliveries.items;
      made = run.made;
      refused = run.refused;
    } };

    ghost invariant = { λ run. run.refused ≡ false
        → IsReady (length run.table.now.lives) run.states.items run.deliveries.items };
}

impl<'t, P: Program> Run<'t, P> {
    /// Begins with a state for each vertex at each instant of its life, and no messages. `init` has
    /// a partition for each vertex, over exactly its life. It takes no memory.
    pub fn start(
        alloc: Global,
        table: &'t ArcTable,
        init: Vec<Partition<P::State>>,
    ) -> Result<Run<'t, P>, NoMemory>
        requires { AreInitial table.now.lives init.items }
        ensures takes_no_memory { IsOk result }
        ensures table { IfOk result (λ run. run.table ≡ table.now) }
        ensures start { IfOk result (λ run. IsStart init.items run.standing) }
        ensures made { IfOk result (λ run. run.made ≡ 0) }
        ensures refused { IfOk result (λ run. run.refused ≡ false) }
    {
        see_chains(&init);
        Ok(Run {
            alloc,
            table,
            states: init,
            deliveries: Vec::new(alloc),
            made: 0,
            refused: false,
        })
    }

    /// Makes the next superstep: fewer than [`STEP_LIMIT`] were made, and the count of calls is below
    /// 2^127. The answer says whether a vertex sends at some instant. After [`NoMemory`] this run
    /// answers so from then on, and calls the program no more; the number of supersteps made stays.
    pub fn superstep(&mut self, program: &mut P) -> Result<bool, NoMemory>
        requires made { self.old.made < STEP_LIMIT }
        requires room { P.count program.old < 2 ^ 127 }
        ensures step { IfOk result (λ sends. IsSuperstep
            P.rules self.old.table.arcs
            (self.old.made + 1) self.old.standing self.new.standing sends
            (P.count program.old) (P.count program.new)) }
        ensures made { OnOk result (self.new.made ≡ self.old.made + 1) }
        ensures not_made { OnErr result (self.new.made ≡ self.old.made) }
        ensures ok { OnOk result (self.new.refused ≡ false) }
        ensures err { OnErr result (self.new.refused ≡ true) }
        ensures table { self.new.table ≡ self.old.table }
        ensures again { self.old.refused ≡ true → IsErr result }
        ensures no_call { self.old.refused ≡ true → P.count program.new ≡ P.count program.old }
        ensures given_up { OnErr result (IsGivenUp
            P.rules (self.old.made + 1)
            self.old.standing (P.count program.old) (P.count program.new)) }
        ensures few { P.count program.new ≤ P.count program.old + 2 ^ 96 }
    {
        if self.refused {
            return Err(NoMemory);
        }
        // until the superstep is made
        self.refused = true;
        let states = mem::replace(&mut self.states, Vec::new(self.alloc));
        let deliveries = mem::replace(&mut self.deliveries, Vec::new(self.alloc));
        let step = self.made + 1;
        let made = make_superstep(self.alloc, self.table, program, step, states, deliveries)?;
        self.states = made.states;
        self.deliveries = made.deliveries;
        self.made = step;
        self.refused = false;
        Ok(made.sends)
    }

    /// The states after the supersteps made, none of which was refused.
    pub fn states(&self) -> &[Partition<P::State>]
        requires { self.now.refused ≡ false }
        ensures { result.now ≡ self.now.standing.states }
    {
        &self.states
    }

    /// How many supersteps were made.
    pub fn made(&self) -> u32
        ensures { result ≡ self.now.made }
    {
        self.made
    }

    /// The states after the supersteps made, none of which was refused.
    pub(crate) fn into_states(self) -> Vec<Partition<P::State>>
        requires { self.refused ≡ false }
        ensures { result.items ≡ self.entry.standing.states }
    {
        self.states
    }
}

/// Shows what every partition keeps: its pieces rise, and pieces that touch differ.
fn see_chains<T: Plain>(partitions: &[Partition<T>])
    ensures { All IsChain partitions.now }
{
    for partition in partitions {
        let _pieces = partition.pieces();
    }
}
