//! The command `serve` of the push service: what its words say is served over any ports, threads, clock and draws, and one line says
//! how that ended. [`ThreadSpawner`] runs the loops of the nodes as threads.
#![tactic(auto)]

mod command;
mod ended;
mod here;
mod tell;
mod threads;
mod words;

pub use command::{Ending, start_serve};
pub use ended::Ended;
pub use here::serve_here;
pub use threads::{Kept, Loop, LoopThread, ThreadSpawner, start_thread};
pub use words::is_serve;
