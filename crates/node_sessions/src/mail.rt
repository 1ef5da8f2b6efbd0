//! The mail of a node, by which its sessions become due.
ghost use Rattle.std.specs.Prelude.{◌≡◌, ◌<◌, map};
ghost use Rattle.session_drive.specs.Shards.{shard_of};
ghost use Rattle.node_sessions.specs.Seats.{has_bit, is_named, told};
ghost use Rattle.node_sessions.specs.Mail.{MailRead, ShardRead};

use crate::seats::{Seat, Sessions};
use crate::wanted::{Wanted, want};
use push_model::{Desks, Mail, NodeId, SessionId, Uaid};

fn has_bit(bits: u64, bit: u32) -> bool
    requires { bit < 64 }
    ensures { result ≡ has_bit bits bit }
{
    (bits >> bit) % 2 == 1
}

// The shard of a user, which the first four bits of the uaid name, among so many.
fn shard_of(uaid: Uaid, count: u8) -> u8
    requires { 0 < count }
    ensures { result ≡ shard_of uaid count }
{
    (uaid.0 >> 120) as u8 / 16 % count
}

// Whether bits that were taken for that shard, of so many, name the user of the session.
fn is_named(s: Option<SessionId>, count: u8, shard: u8, bits: u64) -> bool
    requires { 0 < count }
    ensures { result ≡ is_named count shard bits s }
{
    match s {
        None => false,
        Some(s) => shard_of(s.uaid, count) == shard && has_bit(bits, (s.uaid.0 % 64) as u32),
    }
}

impl<W> Seat<W> {
    // Makes the session due where its user is named.
    fn hear(&mut self, wanted: &mut Wanted, count: u8, shard: u8, bits: u64)
        requires { 0 < count }
        ensures { self.new ≡ told count shard bits self.old }
    {
        if is_named(self.live.s, count, shard, bits) {
            self.live.due = true;
            want(self, wanted);
        }
    }
}

fn hear_all<W>(seats: &mut [Seat<W>], wanted: &mut Wanted, count: u8, shard: u8, bits: u64)
    requires { 0 < count }
    ensures { seats.new ≡ map (told count shard bits) seats.old }
{
    for seat in seats.iter_mut() {
        seat.hear(wanted, count, shard, bits);
    }
}

impl<W> Sessions<W> {
    // Makes the sessions due whose users are named.
    fn hear(&mut self, count: u8, shard: u8, bits: u64)
        requires { 0 < count }
        ensures { self.new ≡ map (told count shard bits) self.old }
    {
        let seats = self.seats.as_mut_slice();
        hear_all(seats, &mut self.wanted, count, shard, bits);
    }
}

// Takes the mail of that shard.
fn read_shard<D: Desks, W>(desks: &mut D, node: NodeId, shard: u8, sessions: &mut Sessions<W>)
    requires { shard < (D.view desks.old).size }
    ensures { ShardRead node shard (D.view desks.old) (D.view desks.new) sessions.old sessions.new }
{
    match desks.take_mail(shard, node) {
        Mail::Quiet => {}
        Mail::Bits(bits) => sessions.hear(desks.count(), shard, bits),
    }
}

/// Takes the mail of each shard for that node, in order. The sessions whose users it names are due by now.
pub fn read_all<D: Desks, W>(desks: &mut D, node: NodeId, sessions: &mut Sessions<W>)
    ensures { MailRead node (D.view desks.old).size (D.view desks.old) (D.view desks.new) sessions.old sessions.new }
{
    for shard in 0..desks.count() {
        read_shard(desks, node, shard, sessions);
    }
}
