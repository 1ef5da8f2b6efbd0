//! A service in this process, and those who visit it.

use crate::operator::Operator;
use autopush_serve::{Ending, serve_here};
use push_outside::{Reading, SureSink};
use std::alloc::Global;
use std::net::{Ipv4Addr, Net, TcpListener, TcpStream};
use std::sync::Wait;
use std::test::Fail;
use std::thread::Threads;

/// What a service came to, and what it wrote.
#[derive(Drop)]
pub struct Told {
    pub ending: Ending,
    pub output: SureSink,
    pub message: SureSink,
}

/// Two ports in a row that were free a moment ago, and the two behind them.
#[derive(Clone, Copy)]
pub struct Doors {
    pub connection: u16,
    pub endpoint: u16,
}

/// How many places are tried for four free ports.
const PLACES: usize = 64;

// Whether one can listen at that port.
fn is_free<R: Net<Listener = TcpListener, Stream = TcpStream>>(rt: &R, port: u16) -> bool {
    TcpListener::bind(rt, (Ipv4Addr::LOCALHOST, port)).is_ok()
}

impl Doors {
    /// Four ports in a row that were free a moment ago: two for connection nodes, two for endpoint nodes.
    pub fn free<R: Net<Listener = TcpListener, Stream = TcpStream>>(rt: &R) -> Result<Doors, Fail> {
        for _ in 0..PLACES {
            let listener = TcpListener::bind(rt, (Ipv4Addr::LOCALHOST, 0))?;
            let port = listener.local_addr()?.port();
            drop(listener);
            if port < 65_000 && (0..4).all(|step| is_free(rt, port + step)) {
                return Ok(Doors {
                    connection: port,
                    endpoint: port + 2,
                });
            }
        }
        Err(Fail::from("four free ports"))
    }

    /// The words of a service with so many connection nodes and one endpoint node at these ports.
    pub fn words(&self, alloc: Global, connections: u8) -> Result<Vec<String>, Fail> {
        let Doors {
            connection,
            endpoint,
        } = *self;
        let mut words = Vec::new(alloc);
        words.push(String::from_str(alloc, "serve")?)?;
        words.push(format!(in alloc; "{connections}")?)?;
        words.push(String::from_str(alloc, "1")?)?;
        words.push(format!(in alloc; "{connection}")?)?;
        words.push(format!(in alloc; "{endpoint}")?)?;
        Ok(words)
    }
}

/// Serves until the operator's lines end.
pub fn serves<R: Threads + Wait + Copy + Send + Sync + 'static>(
    rt: R,
    machine: HostRuntime,
    alloc: Global,
    words: &[String],
    lines: TcpStream,
) -> Told {
    let mut input = Reading::new(lines);
    let mut output = SureSink::new(alloc);
    let mut message = SureSink::new(alloc);
    let ending = serve_here(
        rt,
        machine,
        alloc,
        words,
        &mut input,
        &mut output,
        &mut message,
    );
    Told {
        ending,
        output,
        message,
    }
}
