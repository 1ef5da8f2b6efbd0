//! A client's chat over a WebSocket (RFC 6455), by `tungstenite` over any wire. It tells nothing of its content: what a
//! peer is sent and what is heard of it rests on `tungstenite`. Its counts and its code are proved.
#![tactic(auto)]

mod frames;
mod marks;
mod stream;
mod ws_chat;

pub use ws_chat::{HandFault, WsChat};
