//! Tests of the service: calls that want memory, streams, lines, and schedules that reach a limit or meet a fault.
#![tactic(auto)]

#[cfg(test)]
mod calls;
#[cfg(test)]
mod cells;
#[cfg(test)]
mod faults;
#[cfg(test)]
mod long;
#[cfg(test)]
mod lulls;
#[cfg(test)]
mod order;
#[cfg(test)]
mod parts;
#[cfg(test)]
mod shards;
#[cfg(test)]
mod stored;
#[cfg(test)]
mod streams;
#[cfg(test)]
mod support;
#[cfg(test)]
mod texts;
#[cfg(test)]
mod words;
