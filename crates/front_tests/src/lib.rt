//! Tests of connections of HTTP over a desk of one shard.
#![tactic(auto)]

#[cfg(test)]
mod ends;
#[cfg(test)]
mod limits;
#[cfg(test)]
mod messages;
#[cfg(test)]
mod refusals;
#[cfg(test)]
mod support;
