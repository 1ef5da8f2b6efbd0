//! The texts of the client protocol: what a client says is read, and what the server says is written.
//!
//! Texts are JSON (RFC 8259). A client's text is read by `serde_json`, and members that no message names are passed over;
//! a server's text is compact, with its keys in the order of their bytes. `specs/ClientTexts` says what each text of a
//! client means, and `specs/ServerTexts` has each text of the server.
#![tactic(auto)]

mod client;
mod data;
mod ids;
pub mod pins;
mod read;
mod server;
mod shown;
mod updates;

pub use client::{ClientFault, ClientMsg, Field};
pub use read::read_client;
pub use server::{Port, ServerMsg, write_server};
pub use updates::Updates;
