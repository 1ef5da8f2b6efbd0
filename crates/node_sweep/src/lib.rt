//! What a node does now and then for users that nobody else is about to do anything for. [`sweep`] tells the sessions of users
//! with orphan rows to look at what is stored, and drops users that were idle for too long.
#![tactic(auto)]

mod drops;
mod lists;
mod sweeps;
mod tells;

pub use sweeps::{Swept, sweep};
