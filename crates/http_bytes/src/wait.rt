//! Reading until the front of the bytes has a form.
ghost use Rattle.std.specs.Prelude.{◌≡◌, ℕ, List, length};
ghost use Rattle.std.specs.Io.KnownBytes.{Keeps};
ghost use Rattle.http_bytes.specs.Waits.{EndsSo, Looks, SettlesSo, StoppedBy, Waits};

use crate::rest::{Filled, Rest};
use push_outside::Wire;

/// What the front of some bytes is.
#[derive(Clone, Copy, Debug)]
pub enum Look<T> {
    /// It has the form, with what was found there.
    Whole(T),
    /// It has no form yet; bytes that follow may give it.
    Part,
    /// It never has the form, whatever follows.
    Bad,
}

/// A form that the front of the input may have, as a head or a chunk's size line.
///
/// `sought` is a number that says which form it is, and that a look doesn't change. `is_found` says that the bytes have the form
/// in front, and that this was found there; `is_open` that they don't have it yet, and may come to have it; `is_bad` that they
/// never have it.
pub trait Form {
    type Found;

    ghost sought: { Self → ℕ };

    ghost is_found: { Self → Self.Found → List ℕ → Type 0 };

    ghost is_open: { Self → List ℕ → Type 0 };

    ghost is_bad: { Self → List ℕ → Type 0 };

    /// Looks at the bytes so far.
    fn look(&mut self, bytes: &[u8]) -> Look<Self::Found>
        ensures looks { Looks result (λ found. is_found self.new found bytes.now) (is_open self.new bytes.now) (is_bad self.new bytes.now) }
        ensures same { sought self.new ≡ sought self.old };

    /// Whether the form may end in these bytes, which are the last that came, and up to four before them. A hint, so nothing is
    /// promised of it: a look that is not taken here is taken before the next wait, and each time the bytes have doubled.
    fn may_end(&self, bytes: &[u8]) -> bool;
}

/// Why the form was not found.
#[derive(Clone, Copy, Debug)]
pub enum Stop {
    /// The input ended before.
    End,
    /// 65,536 bytes don't have it.
    Full,
    /// It never comes.
    Bad,
    /// 1,000 reads in a row had nothing.
    Idle,
    /// The wire failed.
    Failed,
    /// There was no memory for more bytes.
    NoMemory,
}

// So many reads in a row with nothing are the end.
const LULLS: u32 = 1000;

// An end of a form shows in the new bytes and so many before them.
const OVERLAP: usize = 4;

// Looks at the bytes after a read, where it is due or nothing more comes now, and says how the wait ends, if it does.
fn settle<F: Form>(
    rest: &Rest,
    form: &mut F,
    filled: Filled,
    lulls: u32,
    due: bool,
) -> Option<Result<F::Found, Stop>>
    ensures same { F.sought form.new ≡ F.sought form.old }
    ensures settles { SettlesSo result filled lulls (λ found. F.is_found form.new found rest.now) (F.is_open form.new rest.now) (F.is_bad form.new rest.now) (length rest.now) }
{
    if matches!(filled, Filled::More) && lulls < LULLS && !due && !rest.is_full() {
        return None;
    }
    match form.look(rest.bytes()) {
        Look::Whole(found) => return Some(Ok(found)),
        Look::Bad => return Some(Err(Stop::Bad)),
        Look::Part => {}
    }
    if rest.is_full() {
        return Some(Err(Stop::Full));
    }
    match filled {
        Filled::End => return Some(Err(Stop::End)),
        Filled::Failed => return Some(Err(Stop::Failed)),
        Filled::NoMemory => return Some(Err(Stop::NoMemory)),
        Filled::More | Filled::NotYet => {}
    }
    if lulls >= LULLS {
        return Some(Err(Stop::Idle));
    }
    None
}

/// Reads until the bytes have the form in front, which stays there. The bytes are looked at once where the form came in one read,
/// and where it comes byte by byte, each time that they have doubled, and where the form may end.
///
/// - `Stop::End`: the input ended, and the form may still have come;
/// - `Stop::Full`: 65,536 bytes don't have it yet;
/// - `Stop::Bad`: whatever follows, it never comes;
/// - `Stop::Idle`: 1,000 reads in a row answered `NotYet`;
/// - `Stop::Failed`: a read failed, and the wire's count of faults rose;
/// - `Stop::NoMemory`: there was no memory for more bytes.
///
/// At each of them what was read is kept.
pub fn wait_for<W: Wire, F: Form>(
    wire: &mut W,
    rest: &mut Rest,
    form: &mut F,
) -> Result<F::Found, Stop>
    ensures bytes { Waits result (W.left wire.old) (W.left wire.new) rest.old rest.new }
    ensures ends { EndsSo result (λ found. F.is_found form.new found rest.new) (F.is_open form.new rest.new) (F.is_bad form.new rest.new) (length rest.new) }
    ensures same { F.sought form.new ≡ F.sought form.old }
    ensures kept { Keeps (W.written wire.old) (W.written wire.new) }
    ensures cause { StoppedBy result (W.faults wire.old) (W.faults wire.new) (W.lulls wire.new) }
{
    let mut filled = Filled::More;
    let mut lulls = 0;
    let mut looked = 0;
    let mut scanned: usize = 0;
    'waiting: loop {
        let size = rest.bytes().len();
        let due = size / 2 >= looked || form.may_end(&rest.bytes()[scanned.min(size)..]);
        if due {
            looked = size;
        }
        scanned = size.saturating_sub(OVERLAP);
        if let Some(end) = settle(rest, form, filled, lulls, due) {
            return end;
        }
        filled = rest.fill(wire);
        lulls = match filled {
            Filled::NotYet => lulls + 1,
            _ => 0,
        };
    }
}
