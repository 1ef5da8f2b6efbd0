//! Tests of clients' sessions, from the texts of their clients to what is sent and what becomes of their messages, on one
//! shard and on sixteen, with ample memory.
#![tactic(auto)]

#[cfg(test)]
mod acks;
#[cfg(test)]
mod beginnings;
#[cfg(test)]
mod endings;
#[cfg(test)]
mod messages;
#[cfg(test)]
mod refusals;
#[cfg(test)]
mod routed;
#[cfg(test)]
mod talk;
#[cfg(test)]
mod texts;
#[cfg(test)]
mod usual;
