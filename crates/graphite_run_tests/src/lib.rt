//! Tests of whole runs of the program, by the top call. A crate with tests of its own is proved twice, once for them.
#![tactic(auto)]

#[cfg(test)]
mod made_runs;
#[cfg(test)]
mod path_runs;
#[cfg(test)]
mod runs;
