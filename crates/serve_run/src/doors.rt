//! The listeners of the nodes, and their bells.
ghost use Rattle.std.specs.Prelude.{◌≡◌, ◌<◌, ◌≤◌, ◌+◌, IfOk, OnOk, length, vec_len};
ghost use Rattle.node_loops.specs.Together.{raised};
ghost use Rattle.serve_run.specs.Doors.{Listened};

use crate::halt::Halt;
use push_model::NoMemory;
use push_ports::{Listener, Ports};
use serve_words::ServePlan;
use std::alloc::Global;

/// The listeners of a service's nodes, in order.
#[derive(Drop)]
pub struct Doors<L> {
    /// Those of the connection nodes.
    pub connections: Vec<L>,
    /// Those of the endpoint nodes.
    pub endpoints: Vec<L>,
}

// A listener for each of so many ports, from this one on.
fn listen_all<N: Ports>(
    alloc: Global,
    ports: &mut N,
    first: u16,
    count: u8,
) -> Result<Vec<N::L>, Halt>
    requires { first + count ≤ 65536 }
    ensures count { IfOk result (λ listeners. vec_len listeners ≡ count) }
    ensures given { IfOk result (λ _. N.given ports.new ≡ raised count (N.given ports.old)) }
    ensures cause { Listened result (N.faults ports.old) (N.faults ports.new) }
{
    let mut listeners = Vec::new(alloc);
    for k in 0..count {
        let port = first + u16::from(k);
        let Some(listener) = ports.listen(port) else {
            return Err(Halt::Port);
        };
        match listeners.push(listener) {
            Ok(()) => {}
            Err(_) => return Err(Halt::NoMemory),
        }
    }
    Ok(listeners)
}

/// A listener for each port of the plan.
pub fn open_doors<N: Ports>(
    alloc: Global,
    ports: &mut N,
    plan: &ServePlan,
) -> Result<Doors<N::L>, Halt>
    ensures connections { IfOk result (λ doors. vec_len doors.connections ≡ plan.now.connections) }
    ensures endpoints { IfOk result (λ doors. vec_len doors.endpoints ≡ plan.now.endpoints) }
    ensures some { IfOk result (λ doors. 1 ≤ vec_len doors.connections) }
    ensures few { IfOk result (λ doors. (vec_len doors.connections ≤ 8) × (vec_len doors.endpoints ≤ 8)) }
    ensures given { IfOk result (λ _. N.given ports.new ≡ raised plan.now.endpoints (raised plan.now.connections (N.given ports.old))) }
    ensures cause { Listened result (N.faults ports.old) (N.faults ports.new) }
{
    let connections = listen_all(alloc, ports, plan.connection_port(), plan.connections())?;
    let endpoints = listen_all(alloc, ports, plan.endpoint_port(), plan.endpoints())?;
    Ok(Doors {
        connections,
        endpoints,
    })
}

fn add<T: Drop>(list: &mut Vec<T>, item: T) -> Result<(), NoMemory>
    ensures { OnOk result (vec_len list.new ≡ vec_len list.old + 1) }
{
    match list.push(item) {
        Ok(()) => Ok(()),
        Err(_) => Err(NoMemory),
    }
}

// The bell of this listener, or, past the last, of the last.
fn bell_at<L: Listener>(listeners: &[L], k: usize) -> Result<L::B, NoMemory>
    requires { 0 < length listeners.now }
{
    if k < listeners.len() {
        listeners[k].bell()
    } else {
        listeners[listeners.len() - 1].bell()
    }
}

/// A bell for each of the eight nodes: that of its listener, or, where there is no such node, of the last one's.
pub fn bells_of<L: Listener>(alloc: Global, listeners: &[L]) -> Result<Vec<L::B>, NoMemory>
    requires { 0 < length listeners.now }
    ensures { IfOk result (λ bells. vec_len bells ≡ 8) }
{
    let mut bells = Vec::new(alloc);
    for k in 0..8 {
        let bell = bell_at(listeners, k)?;
        add(&mut bells, bell)?;
    }
    Ok(bells)
}
