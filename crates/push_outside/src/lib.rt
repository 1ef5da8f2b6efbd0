//! How a service reaches the outside. A [`Source`] gives bytes and a [`Sink`] takes them; each call
//! answers for itself, and nothing is retried here. Both keep two counts that contracts speak of: the
//! faults, a count of failures that never falls, and the lulls, how many calls in a row had nothing
//! to do now. Beside the traits stand forms in memory, that never fail or that fail at the calls that
//! they are told, and adapters over the readers and writers of std.
#![tactic(auto)]

mod calls;
mod chat;
mod clock;
mod draw;
mod list_chat;
mod list_wire;
pub mod pins;
mod sink;
mod source;
mod std_io;
mod sure_chat;
mod wire;

pub use chat::{Chat, Heard, Item, Sent};
pub use clock::{Clock, SetClock};
pub use draw::{Draw, ListDraw, fill};
pub use list_chat::ListChat;
pub use list_wire::ListWire;
pub use sink::{ListSink, Put, Sink, SureSink};
pub use source::{Got, ListSource, Source, SureSource};
pub use std_io::{Reading, Writing};
pub use sure_chat::SureChat;
pub use wire::Wire;
