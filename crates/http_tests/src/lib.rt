//! Tests of the bytes of HTTP: the next request of a wire, replies, and what a push request asks for.
#![tactic(auto)]

#[cfg(test)]
mod asks;
#[cfg(test)]
mod chunks;
#[cfg(test)]
mod limits;
#[cfg(test)]
mod malformed;
#[cfg(test)]
mod parts;
#[cfg(test)]
mod refusals;
#[cfg(test)]
mod replies;
#[cfg(test)]
mod requests;
#[cfg(test)]
mod support;
