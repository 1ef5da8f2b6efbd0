//! Reading the words.
ghost use Rattle.std.specs.Prelude.{◌≡◌, IfSome, IsNone, decimal, map, string_bytes};
ghost use Rattle.serve_words.specs.Plans.{IsPlan, PlanValue, serve_words};

use crate::numbers::number_of;
use crate::plans::ServePlan;

// The plan of four words.
fn plan_of(
    connections: &str,
    endpoints: &str,
    connection_port: &str,
    endpoint_port: &str,
) -> Option<ServePlan>
    ensures some { IfSome result (λ p. (connections.now ≡ decimal p.connections) × (endpoints.now ≡ decimal p.endpoints) × (connection_port.now ≡ decimal p.connection_port) × (endpoint_port.now ≡ decimal p.endpoint_port)) }
    ensures none { IsNone result → (p : PlanValue) → IsPlan p → (connections.now ≡ decimal p.connections) × (endpoints.now ≡ decimal p.endpoints) × (connection_port.now ≡ decimal p.connection_port) × (endpoint_port.now ≡ decimal p.endpoint_port) → ⊥ }
{
    let connections = number_of(connections)?;
    let endpoints = number_of(endpoints)?;
    let connection_port = number_of(connection_port)?;
    let endpoint_port = number_of(endpoint_port)?;
    ServePlan::new(connections, endpoints, connection_port, endpoint_port)
}

/// The plan that the words spell: `serve CN EN CP EP`, with from 1 to 8 connection nodes, from 1 to 8 endpoint nodes, the port of the
/// first of each kind, and the next ports for the further ones; all ports are from 1 to 65,535, and no two are equal. Numbers are
/// decimal, without zeros in front. `None` comes exactly where the words spell no such plan. It takes no memory.
pub fn read_serve(words: &[String]) -> Option<ServePlan>
    ensures some { IfSome result (λ p. map string_bytes words.now ≡ serve_words p) }
    ensures none { IsNone result → (p : PlanValue) → IsPlan p → map string_bytes words.now ≡ serve_words p → ⊥ }
{
    match words {
        [name, connections, endpoints, connection_port, endpoint_port] => {
            if name.as_str() != "serve" {
                return None;
            }
            plan_of(
                connections.as_str(),
                endpoints.as_str(),
                connection_port.as_str(),
                endpoint_port.as_str(),
            )
        }
        _ => None,
    }
}
