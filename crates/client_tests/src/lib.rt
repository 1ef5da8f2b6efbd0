//! Tests of the client's side: the texts of its protocol both ways.
#![tactic(auto)]

#[cfg(test)]
mod clients;
#[cfg(test)]
mod notifications;
#[cfg(test)]
mod servers;
