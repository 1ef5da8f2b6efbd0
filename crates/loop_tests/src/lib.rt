//! Tests of the loops of a node, over wires in memory.
#![tactic(auto)]

#[cfg(test)]
mod pairs;
#[cfg(test)]
mod places;
#[cfg(test)]
mod wires;
