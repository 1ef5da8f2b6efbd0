//! The wires of a listener in memory, served by the loop of an endpoint.

use node_loops::{Each, Gate, GateNote, ListGate, Share, StopGate, endpoint_loop};
use push_outside::{Got, ListWire, Wire};
use push_ports::{ListPorts, Ports};
use std::alloc::{AllocError, Global};
use std::test::Fail;

// Reads the first byte of each wire.
#[derive(Drop)]
struct FirstBytes {
    served: u64,
    bytes: Vec<u8>,
}

impl Each<ListWire> for FirstBytes {
    ghost served = { λ each. each.served };

    ghost goes_on = { λ one other. Unit {0} };

    fn serve(&mut self, wire: ListWire) {
        let mut wire = wire;
        let mut room = [0u8; 1];
        if let Got::Bytes(_) = wire.read(&mut room) {
            let _ = self.bytes.push(room[0]);
        }
        self.served = self.served.saturating_add(1);
    }

    ghost none_served = { λ one. tt };

    ghost more_served = { λ one two three before after. tt };
}

// A wire for each of the bytes.
fn wires_of(alloc: Global, bytes: &[u8]) -> Result<Vec<ListWire>, AllocError> {
    let mut wires = Vec::new(alloc);
    for byte in bytes {
        let text = vec![in alloc; *byte]?;
        wires.push(ListWire::new(alloc, text, Vec::new(alloc), Vec::new(alloc)))?;
    }
    Ok(wires)
}

// Ports whose one listener gives a wire for each of the bytes.
fn ports_of(alloc: Global, bytes: &[u8]) -> Result<ListPorts<ListWire>, AllocError> {
    let mut lots = Vec::new(alloc);
    lots.push(wires_of(alloc, bytes)?)?;
    Ok(ListPorts::new(alloc, lots, Vec::new(alloc)))
}

#[test]
fn all_wires_are_served_in_order(rt: HostRuntime) -> Result<(), Fail> {
    let alloc = rt.alloc();
    let mut ports = ports_of(alloc, b"abc")?;
    let mut listener = ports.listen(9101).ok_or("a listener")?;
    let gate = ListGate::new(alloc, 5, 20).ok().ok_or("memory")?;
    let each = FirstBytes {
        served: 0,
        bytes: Vec::new(alloc),
    };
    let (each, gate) = endpoint_loop(&rt, &mut listener, each, gate);
    assert_eq!(rt; each.bytes.as_slice(), b"abc".as_slice());
    assert_eq!(rt; each.served, 3);
    let wanted = [
        GateNote::Stop,
        GateNote::Turn(1),
        GateNote::Stop,
        GateNote::Turn(2),
        GateNote::Stop,
        GateNote::Turn(3),
        GateNote::Stop,
        GateNote::Stop,
    ];
    assert_eq!(rt; gate.notes(), wanted.as_slice());
    Ok(())
}

// The second share of a listener without a twin gives the wires that the first one left.
#[test]
fn shares_give_the_wires_of_one_listener(rt: HostRuntime) -> Result<(), Fail> {
    let alloc = rt.alloc();
    let mut ports = ports_of(alloc, b"abc")?;
    let listener = ports.listen(9101).ok_or("a listener")?;
    let (mut one, mut two) = Share::pair(rt, alloc, listener).ok().ok_or("memory")?;
    let each = FirstBytes {
        served: 0,
        bytes: Vec::new(alloc),
    };
    let gate = ListGate::new(alloc, 2, 0).ok().ok_or("memory")?;
    let (each, _) = endpoint_loop(&rt, &mut one, each, gate);
    assert_eq!(rt; each.bytes.as_slice(), b"a".as_slice());
    let gate = ListGate::new(alloc, 4, 0).ok().ok_or("memory")?;
    let (each, _) = endpoint_loop(&rt, &mut two, each, gate);
    assert_eq!(rt; each.bytes.as_slice(), b"abc".as_slice());
    assert_eq!(rt; each.served, 3);
    Ok(())
}

#[test]
fn a_gate_that_is_set_stops_those_that_share_it(rt: HostRuntime) -> Result<(), Fail> {
    let alloc = rt.alloc();
    let mut gate = StopGate::new(alloc).ok().ok_or("memory")?;
    let mut other = gate.share().ok().ok_or("memory")?;
    assert!(rt; !gate.stop());
    assert!(rt; !other.stop());
    other.set();
    assert!(rt; gate.stop());
    assert!(rt; other.stop());
    Ok(())
}
