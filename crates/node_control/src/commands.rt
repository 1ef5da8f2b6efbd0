//! What a line asks for.
ghost use Rattle.std.specs.Prelude.{◌≡◌};
ghost use Rattle.node_control.specs.Commands.{command_of, node_behind, node_of};

use push_model::NodeId;

/// What a line asks for.
#[derive(Clone, Copy, Debug)]
pub enum Command {
    /// The node is to go down.
    Kill(NodeId),
    /// The node isn't to be down.
    Up(NodeId),
    /// What is there is to be told.
    Report,
    /// No further line is to be read.
    Stop,
    /// Nothing that is known.
    Unknown,
}

fn node_of(digit: u8) -> Option<NodeId>
    ensures { result ≡ node_of digit }
{
    if digit < b'0' {
        return None;
    }
    NodeId::new(digit - b'0')
}

// The node that stands behind that name, and ends the line.
fn node_behind(name: &[u8], line: &[u8]) -> Option<NodeId>
    ensures { result ≡ node_behind name.now line.now }
{
    match line.strip_prefix(name) {
        Some([digit]) => node_of(*digit),
        _ => None,
    }
}

/// What the line asks for.
pub fn command_of(line: &[u8]) -> Command
    ensures { result ≡ command_of line.now }
{
    if line == b"stop".as_slice() {
        return Command::Stop;
    }
    if line == b"report".as_slice() {
        return Command::Report;
    }
    if let Some(node) = node_behind(b"kill ", line) {
        return Command::Kill(node);
    }
    match node_behind(b"up ", line) {
        Some(node) => Command::Up(node),
        None => Command::Unknown,
    }
}
