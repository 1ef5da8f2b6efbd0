//! Tests of a chat over a WebSocket (RFC 6455), byte by byte, with ample memory.
#![tactic(auto)]

#[cfg(test)]
mod bytes;
#[cfg(test)]
mod handshakes;
#[cfg(test)]
mod heard;
#[cfg(test)]
mod sent;
