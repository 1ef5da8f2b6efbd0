//! A source that has nothing for long: just so many answers in a row are a fault.

ghost use Rattle.std.specs.Prelude.{◌≡◌, ◌<◌, None, length};
ghost use Rattle.push_outside.specs.Reads.{Reads, ReadFails, lulls_after_read};

use crate::support::replay_words;
use autopush_main::autopush_replay;
use push_outside::{Got, Source, SureSink};
use std::test::Fail;

// Has the line `report` at one read, whose number counts from 1, and nothing at any other. It tells no bytes.
#[derive(Drop)]
struct Rare {
    reads: u64,
    line_at: u64,
    lulls: u64,
}

const LINE: &[u8] = b"report\n";

impl Source for Rare {
    ghost left = { λ _. None };

    ghost faults = { λ _. 0 };

    ghost lulls = { λ s. s.lulls };

    fn read(&mut self, room: &mut [u8]) -> Got
        requires { 0 < length room.old }
        ensures bytes { Reads result room.new None None }
        ensures cause { ReadFails result 0 0 }
        ensures lulls { self.new.lulls ≡ lulls_after_read result self.old.lulls }
    {
        self.reads = self.reads.saturating_add(1);
        if self.reads != self.line_at || room.len() < LINE.len() {
            self.lulls = self.lulls.saturating_add(1);
            return Got::NotYet;
        }
        self.lulls = 0;
        room[..LINE.len()].copy_from_slice(LINE);
        Got::Bytes(LINE.len())
    }
}

// Two reads have nothing, the third gives the line, and then none gives anything: the replay bears 1,000,000,000 more.
#[test]
fn a_source_has_nothing(rt: HostRuntime) -> Result<(), Fail> {
    let alloc = rt.alloc();
    let words = replay_words(alloc)?;
    let mut output = SureSink::new(alloc);
    let mut input = Rare {
        reads: 0,
        line_at: 3,
        lulls: 0,
    };
    assert_eq!(rt; autopush_replay(alloc, &words, &mut input, &mut output), 5);
    assert_eq!(rt; input.reads, 1_000_000_003);
    assert_eq!(rt;
        output.bytes(),
        b"report users 0 stored 0 held 0 flights 0 unsent 0 orphans 0 waiting 0\n".as_slice()
    );
    Ok(())
}
