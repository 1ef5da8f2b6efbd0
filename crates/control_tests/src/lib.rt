//! Tests of control lines, of sweeps, and of the words of `serve`, with ample memory.
#![tactic(auto)]

#[cfg(test)]
mod faults;
#[cfg(test)]
mod lines;
#[cfg(test)]
mod shards;
#[cfg(test)]
mod sweeps;
#[cfg(test)]
mod words;
