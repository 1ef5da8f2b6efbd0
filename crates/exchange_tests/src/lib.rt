//! Tests of an exchange and its passes, with ample memory.
#![tactic(auto)]

#[cfg(test)]
mod callers;
#[cfg(test)]
mod closing;
#[cfg(test)]
mod creating;
#[cfg(test)]
mod routing;
