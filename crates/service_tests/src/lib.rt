//! Tests of the whole service: in memory, without threads, and with threads over sockets of this machine, with clients, senders and
//! an operator. A wait is bounded everywhere, so that a test which isn't answered fails.
#![tactic(auto)]

#[cfg(test)]
mod house;
#[cfg(test)]
mod memory;
#[cfg(test)]
mod operator;
#[cfg(test)]
mod sender;
#[cfg(test)]
mod services;
#[cfg(test)]
mod visits;
