//! Tests of the loop of sessions, over wires in memory that speak WebSocket.
#![tactic(auto)]

#[cfg(test)]
mod crowds;
#[cfg(test)]
mod gates;
#[cfg(test)]
mod pieces;
#[cfg(test)]
mod serving;
