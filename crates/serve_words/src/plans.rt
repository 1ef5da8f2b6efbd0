//! Which nodes there are to be.
ghost use Rattle.std.specs.Prelude.{◌≡◌, ◌+◌, ◌<◌, ◌≤◌, ℕ, true, IfSome, IsNone};
ghost use Rattle.serve_words.specs.Plans.{IsPlan, are_apart};

use std::marker::Model;

/// How many nodes of each kind there are to be, and on which ports they listen. Contracts see these four numbers.
#[derive(Clone, Copy, Debug)]
pub struct ServePlan {
    connections: u8,
    endpoints: u8,
    connection_port: u16,
    endpoint_port: u16,
}

impl Model for ServePlan {
    ghost use Rattle.serve_words.specs.Plans.{IsPlan, PlanValue};

    ghost Value = { PlanValue };

    ghost view = { λ p. record { connections = p.connections; endpoints = p.endpoints; connection_port = p.connection_port; endpoint_port = p.endpoint_port } };

    ghost invariant = { λ p. IsPlan (record { connections = p.connections; endpoints = p.endpoints; connection_port = p.connection_port; endpoint_port = p.endpoint_port }) };

    ghost inverse = { λ p. record { connections = p.connections; endpoints = p.endpoints; connection_port = p.connection_port; endpoint_port = p.endpoint_port } };
}

// Whether so many nodes, and so many ports from that one on, are in range.
fn is_kind(nodes: u16, port: u16) -> bool
    ensures yes { result ≡ true → (1 ≤ nodes) × (nodes ≤ 8) × (1 ≤ port) × (port + nodes ≤ 65536) }
    ensures no { (1 ≤ nodes) × (nodes ≤ 8) × (1 ≤ port) × (port + nodes ≤ 65536) → result ≡ true }
{
    nodes >= 1 && nodes <= 8 && port >= 1 && u32::from(port) + u32::from(nodes) <= 65_536
}

// Whether the ports of one kind all stand before those of the other.
fn are_apart(connections: u16, endpoints: u16, connection_port: u16, endpoint_port: u16) -> bool
    ensures { result ≡ are_apart (record { connections = connections; endpoints = endpoints; connection_port = connection_port; endpoint_port = endpoint_port }) }
{
    u32::from(connection_port) + u32::from(connections) <= u32::from(endpoint_port)
        || u32::from(endpoint_port) + u32::from(endpoints) <= u32::from(connection_port)
}

impl ServePlan {
    /// The plan of these numbers, or `None` exactly where they make none.
    pub fn new(
        connections: u16,
        endpoints: u16,
        connection_port: u16,
        endpoint_port: u16,
    ) -> Option<ServePlan>
        ensures some { IfSome result (λ plan. plan ≡ record { connections = connections; endpoints = endpoints; connection_port = connection_port; endpoint_port = endpoint_port }) }
        ensures none { IsNone result → ¬ IsPlan (record { connections = connections; endpoints = endpoints; connection_port = connection_port; endpoint_port = endpoint_port }) }
    {
        if !is_kind(connections, connection_port) || !is_kind(endpoints, endpoint_port) {
            return None;
        }
        if !are_apart(connections, endpoints, connection_port, endpoint_port) {
            return None;
        }
        Some(ServePlan {
            connections: connections as u8,
            endpoints: endpoints as u8,
            connection_port,
            endpoint_port,
        })
    }

    /// How many connection nodes there are to be, from 1 to 8.
    pub fn connections(&self) -> u8
        ensures value { result ≡ self.now.connections }
        ensures low { 1 ≤ result }
        ensures high { result ≤ 8 }
    {
        self.connections
    }

    /// How many endpoint nodes there are to be, from 1 to 8.
    pub fn endpoints(&self) -> u8
        ensures value { result ≡ self.now.endpoints }
        ensures low { 1 ≤ result }
        ensures high { result ≤ 8 }
    {
        self.endpoints
    }

    /// The port of the first connection node. Each further node has the next port, up to 65,535.
    pub fn connection_port(&self) -> u16
        ensures value { result ≡ self.now.connection_port }
        ensures low { 1 ≤ result }
        ensures high { result + self.now.connections ≤ 65536 }
    {
        self.connection_port
    }

    /// The port of the first endpoint node. Each further node has the next port, up to 65,535.
    pub fn endpoint_port(&self) -> u16
        ensures value { result ≡ self.now.endpoint_port }
        ensures low { 1 ≤ result }
        ensures high { result + self.now.endpoints ≤ 65536 }
    {
        self.endpoint_port
    }

    /// Does nothing. It tells what always holds of the four numbers.
    pub fn is_plan(&self)
        ensures { IsPlan self.now }
    {
        let _ = &self.connections;
    }
}
