//! Text on its way to a wire.
ghost use Rattle.std.specs.Prelude.{◌≡◌, ◌+◌, ◌≤◌, ◌++◌, ℕ, List, [], length, Option, None, Some, is_some, MatchResult};
ghost use Rattle.std.specs.Io.KnownBytes.{Keeps};
ghost use Rattle.http_bytes.specs.Causes.{CausedByWrites};
ghost use Rattle.http_bytes.specs.Puts.{IsBlamed, IsPut, WritesAll};

use crate::fault::WireFault;
use crate::write::write_all;
use push_outside::Wire;
use std::marker::Model;

// The bytes of one write, but for longer pieces.
const SIZE: usize = 512;

/// Text that waits to be written, up to 512 bytes of it, and the fault of the first write that broke off; after that nothing more
/// is written. It takes no memory.
#[derive(Debug, Drop)]
pub struct Outbox {
    held: [u8; SIZE],
    used: usize,
    fault: Option<WireFault>,
}

impl Model for Outbox {
    ghost use Rattle.std.specs.Prelude.{take, ◌≤◌};
    ghost use Rattle.http_bytes.specs.OutboxValue.{OutboxValue};

    ghost Value = { OutboxValue };

    ghost view = { λ o. record { text = take o.used o.held; fault = o.fault } };

    ghost invariant = { λ o. o.used ≤ 512 };
}

impl Outbox {
    /// Nothing waits, and nothing has failed.
    pub fn new() -> Outbox
        ensures value { result ≡ record { text = []; fault = None } }
        ensures fresh { (start : Option (List ℕ)) → IsPut start start [] result }
        ensures sound { (faults lulls : ℕ) → IsBlamed faults faults lulls result }
    {
        Outbox {
            held: [0; SIZE],
            used: 0,
            fault: None,
        }
    }

    fn len(&self) -> usize
        ensures value { result ≡ length self.now.text }
        ensures short { result ≤ 512 }
    {
        self.used
    }

    fn hold(&mut self, piece: &[u8])
        requires { length self.old.text + length piece.now ≤ 512 }
        ensures { self.new ≡ record self.old { text = self.old.text ++ piece.now } }
    {
        self.held[self.used..self.used + piece.len()].copy_from_slice(piece);
        self.used += piece.len();
    }

    fn forget(&mut self)
        ensures { self.new ≡ record self.old { text = [] } }
    {
        self.used = 0;
    }

    // Empties it, which was written, or was not.
    fn settle(&mut self, written: Result<(), WireFault>)
        ensures { MatchResult written (λ _. self.new ≡ record self.old { text = [] }) (λ fault. self.new ≡ record { text = []; fault = Some fault }) }
    {
        self.used = 0;
        if let Err(fault) = written {
            self.fault = Some(fault);
        }
    }

    fn has_failed(&self) -> bool
        ensures { result ≡ is_some self.now.fault }
    {
        self.fault.is_some()
    }

    fn text(&self) -> &[u8]
        ensures { result.now ≡ self.now.text }
    {
        &self.held[..self.used]
    }

    // Writes all that waits, or a front of it where writing breaks off.
    fn flush<W: Wire>(&mut self, wire: &mut W)
        ensures text { (start : Option (List ℕ)) (text : List ℕ) → IsPut start (W.written wire.old) text self.old → IsPut start (W.written wire.new) text self.new }
        ensures cause { (before : ℕ) → IsBlamed before (W.faults wire.old) (W.lulls wire.old) self.old → IsBlamed before (W.faults wire.new) (W.lulls wire.new) self.new }
        ensures empty { self.new.text ≡ [] }
        ensures kept { Keeps (W.left wire.old) (W.left wire.new) }
    {
        if self.has_failed() {
            self.forget();
            return;
        }
        let written = write_all(wire, self.text());
        self.settle(written);
    }

    /// Adds a piece behind all that came before it. A piece for which there is no room is written at once, and what waits before
    /// it.
    pub fn put<W: Wire>(&mut self, wire: &mut W, piece: &[u8])
        ensures text { (start : Option (List ℕ)) (text : List ℕ) → IsPut start (W.written wire.old) text self.old → IsPut start (W.written wire.new) (text ++ piece.now) self.new }
        ensures cause { (before : ℕ) → IsBlamed before (W.faults wire.old) (W.lulls wire.old) self.old → IsBlamed before (W.faults wire.new) (W.lulls wire.new) self.new }
        ensures kept { Keeps (W.left wire.old) (W.left wire.new) }
    {
        if piece.len() <= SIZE - self.len() {
            self.hold(piece);
            return;
        }
        self.put_long(wire, piece);
    }

    fn put_long<W: Wire>(&mut self, wire: &mut W, piece: &[u8])
        ensures text { (start : Option (List ℕ)) (text : List ℕ) → IsPut start (W.written wire.old) text self.old → IsPut start (W.written wire.new) (text ++ piece.now) self.new }
        ensures cause { (before : ℕ) → IsBlamed before (W.faults wire.old) (W.lulls wire.old) self.old → IsBlamed before (W.faults wire.new) (W.lulls wire.new) self.new }
        ensures kept { Keeps (W.left wire.old) (W.left wire.new) }
    {
        self.flush(wire);
        if self.has_failed() {
            return;
        }
        let written = write_all(wire, piece);
        self.settle(written);
    }

    /// Writes all that waits, and says whether all was written, or a front of it.
    ///
    /// - `Idle`: 1,000 writes in a row answered `NotYet`;
    /// - `WriteFault`: the wire's count of faults rose;
    /// - `NoMemory`: the wire wanted memory.
    pub fn finish<W: Wire>(self, wire: &mut W) -> Result<(), WireFault>
        ensures text { (start : Option (List ℕ)) (text : List ℕ) → IsPut start (W.written wire.old) text self → WritesAll result text start (W.written wire.new) }
        ensures cause { (before : ℕ) → IsBlamed before (W.faults wire.old) (W.lulls wire.old) self → CausedByWrites result before (W.faults wire.new) (W.lulls wire.new) }
        ensures kept { Keeps (W.left wire.old) (W.left wire.new) }
    {
        let mut out = self;
        out.flush(wire);
        match out.fault {
            None => Ok(()),
            Some(fault) => Err(fault),
        }
    }
}
