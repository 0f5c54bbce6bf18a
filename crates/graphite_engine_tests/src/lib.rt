//! Tests of the engine, from outside: lives, pieces, properties, time-warp, arcs, supersteps and the programs.
#![tactic(auto)]

#[cfg(test)]
mod hops;
#[cfg(test)]
mod intervals;
#[cfg(test)]
mod journey_programs;
#[cfg(test)]
mod journey_starts;
#[cfg(test)]
mod lives;
#[cfg(test)]
mod partitions;
#[cfg(test)]
mod props;
#[cfg(test)]
mod snapshots;
#[cfg(test)]
mod supersteps;
#[cfg(test)]
mod tables;
#[cfg(test)]
mod warp;
#[cfg(test)]
mod witness;
