//! Which sessions a round is to pump.
ghost use Rattle.std.specs.Prelude.{◌≡◌, ◌<◌, length, IfSome};

use crate::seats::{Seat, Sessions};
use std::alloc::Global;
use std::collections::VecDeque;

/// The numbers of the wires whose sessions the next round is to pump, each once, in the order in which they came to be wanted.
/// Where there was no memory for one, the next round pumps all.
#[derive(Drop)]
pub struct Wanted {
    numbers: VecDeque<u64>,
    lacks_some: bool,
}

impl Wanted {
    /// None.
    pub fn new(alloc: Global) -> Wanted {
        Wanted {
            numbers: VecDeque::new(alloc),
            lacks_some: false,
        }
    }

    /// How many are noted.
    pub fn len(&self) -> usize {
        self.numbers.len()
    }

    /// Whether one is wanted that isn't noted.
    pub fn lacks_some(&self) -> bool {
        self.lacks_some
    }

    /// Notes one that isn't noted yet.
    pub fn add(&mut self, number: u64) {
        if self.numbers.push_back(number).is_err() {
            self.lacks_some = true;
        }
    }

    // Takes the first out.
    fn pop(&mut self) -> Option<u64> {
        self.numbers.pop_front()
    }

    /// Forgets all.
    pub fn clear(&mut self) {
        self.numbers.clear();
        self.lacks_some = false;
    }
}

/// The next round is to pump the session of that seat. It is noted once.
pub fn want<W>(seat: &mut Seat<W>, wanted: &mut Wanted)
    ensures { seat.new ≡ seat.old }
{
    if !seat.is_wanted {
        seat.is_wanted = true;
        wanted.add(seat.number);
    }
}

impl<W> Sessions<W> {
    // Where the session of the wire of that number is, if it is here.
    fn place_of(&self, number: u64) -> Option<usize>
        ensures { IfSome result (λ i. i < length self.now) }
    {
        self.seats
            .as_slice()
            .binary_search_by_key(&number, |seat| seat.number)
            .ok()
    }

    /// The next round is to pump the session of the wire of that number, if it is here.
    pub fn want(&mut self, number: u64)
        ensures { self.new ≡ self.old }
    {
        if let Some(i) = self.place_of(number) {
            want(&mut self.seats[i], &mut self.wanted);
        }
    }

    /// Where the first session stands that is noted to be pumped, which is noted no more; none where that session is over.
    pub fn next_wanted(&mut self) -> Option<usize>
        ensures place { IfSome result (λ i. i < length self.new) }
        ensures same { self.new ≡ self.old }
    {
        let number = self.wanted.pop()?;
        self.place_of(number)
    }

    /// Notes that the next round is to pump the session at that place, which isn't noted.
    pub fn want_again(&mut self, i: usize)
        ensures { self.new ≡ self.old }
    {
        if let Some(seat) = self.seats.get(i) {
            self.wanted.add(seat.number);
        }
    }
}
