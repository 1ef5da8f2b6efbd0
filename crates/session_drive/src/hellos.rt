//! How a session begins.
ghost use Rattle.std.specs.Prelude.{◌≡◌, ◌<◌, ◌^◌, ◌∷◌, [], ℕ, List, length, true, Some, IfOk, OnOk};
ghost use Rattle.push_model.specs.Steps.{proper};
ghost use Rattle.push_model.specs.Caring.{is_cared};
ghost use Rattle.push_model.specs.Replies.{is_attach_reply, is_claim_reply, is_create_reply, replies_to};
ghost use Rattle.push_model.specs.DeskViews.{Calls, Mails, made, world_at};
ghost use Rattle.push_model.specs.declared.reply.Reply.{Reply};
ghost use Rattle.push_model.specs.declared.step.Step.TheVariants.{Attach, Create, Claim};
ghost use Rattle.push_outside.specs.Draws.{GivesMore};
ghost use Rattle.push_outside.specs.Moments.{IsMomentOf};
ghost use Rattle.session_drive.specs.Shards.{shard_of};
ghost use Rattle.session_drive.specs.Asked.{asked};
ghost use Rattle.session_drive.specs.Runs.{EndsBy, Steps};
ghost use Rattle.session_drive.specs.Hellos.{HelloMade, attach_next, attaching, creating, claiming, hello_next, tick_to, uaid_of};
ghost use Rattle.session_drive.specs.Begins.{Begins, ClaimSays, Claims, CreateSays, Creates, IsWant, Ticks, Tries, ok_of};

use crate::ends::SessionEnd;
use crate::shards::shard_on;
use push_model::{Desks, Moment, NodeId, Reply, SessionId, Step, Uaid};
use push_outside::{Clock, Draw, fill};
use std::alloc::Global;

/// How many users a hello draws at most.
const TRIES: usize = 4;

// ---- steps

// Ticks the shard to that moment in milliseconds.
fn tick<D: Desks>(alloc: Global, desks: &mut D, shard: u8, at: u64)
    requires within { shard < (D.view desks.old).size }
    requires moment { at < 2 ^ 63 }
    ensures calls { (t : Reply) × Calls (D.view desks.old) (D.view desks.new) (made shard (tick_to at) t ∷ []) }
    ensures mail { Mails (D.view desks.old) (D.view desks.new) [] }
{
    let moment = Moment::new(at / 1000).unwrap();
    match desks.call(alloc, shard, Step::Tick(moment)) {
        Ok(_) => {}
        Err(_) => unreachable!(),
    }
}

// Makes the step.
fn ask<D: Desks>(alloc: Global, desks: &mut D, shard: u8, step: Step) -> Result<Reply, SessionEnd>
    requires within { shard < (D.view desks.old).size }
    requires allowed { proper ((D.view desks.old).number shard) step ≡ true }
    ensures calls { Calls (D.view desks.old) (D.view desks.new) (asked shard step (ok_of result)) }
    ensures mail { Mails (D.view desks.old) (D.view desks.new) [] }
    ensures fits { IfOk result (λ r. replies_to step r ≡ true) }
    ensures want { IsWant result }
    ensures cared { is_cared (world_at (D.view desks.new) shard) ≡ true }
{
    match desks.call(alloc, shard, step) {
        Ok(reply) => Ok(reply),
        Err(_) => Err(SessionEnd::NoMemory),
    }
}

// Ticks the shard, and makes the step.
fn tick_and_ask<D: Desks>(
    alloc: Global,
    desks: &mut D,
    shard: u8,
    at: u64,
    step: Step,
) -> Result<Reply, SessionEnd>
    requires within { shard < (D.view desks.old).size }
    requires moment { at < 2 ^ 63 }
    requires allowed { (n : ℕ) → proper n step ≡ true }
    ensures ticks { Ticks shard at step (ok_of result) (D.view desks.old) (D.view desks.new) }
    ensures fits { IfOk result (λ r. replies_to step r ≡ true) }
    ensures want { IsWant result }
{
    tick(alloc, desks, shard, at);
    ask(alloc, desks, shard, step)
}

// ---- a user that is given

fn claimed_by(reply: &Reply) -> Result<bool, SessionEnd>
    requires { is_claim_reply reply.now ≡ true }
    ensures { ClaimSays result (Some reply.now) }
{
    match reply {
        Reply::Claimed(_) => Ok(true),
        Reply::NoUser => Ok(false),
        Reply::Stale(at) => Err(SessionEnd::Stale(*at)),
        _ => unreachable!(),
    }
}

// Claims the session, if there is such a user.
fn claim<D: Desks>(
    alloc: Global,
    desks: &mut D,
    shard: u8,
    s: SessionId,
) -> Result<bool, SessionEnd>
    requires { shard < (D.view desks.old).size }
    ensures { Claims result shard s (D.view desks.old) (D.view desks.new) }
{
    match tick_and_ask(alloc, desks, shard, s.at, Step::Claim(s)) {
        Ok(reply) => claimed_by(&reply),
        Err(_) => Err(SessionEnd::NoMemory),
    }
}

// ---- users that are drawn

fn created_by(reply: &Reply) -> bool
    requires { is_create_reply reply.now ≡ true }
    ensures { CreateSays (Ok result) (Some reply.now) }
{
    match reply {
        Reply::Made => true,
        Reply::Taken => false,
        _ => unreachable!(),
    }
}

// Makes the session's user, if there is none.
fn create<D: Desks>(
    alloc: Global,
    desks: &mut D,
    shard: u8,
    s: SessionId,
) -> Result<bool, SessionEnd>
    requires { shard < (D.view desks.old).size }
    ensures { Creates result shard s (D.view desks.old) (D.view desks.new) }
{
    match tick_and_ask(alloc, desks, shard, s.at, Step::Create(s)) {
        Ok(reply) => Ok(created_by(&reply)),
        Err(_) => Err(SessionEnd::NoMemory),
    }
}

fn draw_uaid<G: Draw>(draw: &mut G) -> Uaid
    ensures { (bytes : List ℕ) × (length bytes ≡ 16) × (result ≡ uaid_of bytes) × GivesMore (G.given draw.old) (G.given draw.new) bytes }
{
    let mut bytes = [0; 16];
    fill(draw, &mut bytes);
    Uaid(u128::from_be_bytes(bytes))
}

// Draws a user, and makes a session of it, if there is no such user.
fn try_create<D: Desks, G: Draw>(
    alloc: Global,
    desks: &mut D,
    draw: &mut G,
    node: NodeId,
    at: u64,
) -> Result<Option<SessionId>, SessionEnd>
    requires { at < 2 ^ 63 }
    ensures { Tries result node at (D.view desks.old) (D.view desks.new) (G.given draw.old) (G.given draw.new) }
{
    let uaid = draw_uaid(draw);
    let s = SessionId { uaid, node, at };
    let shard = shard_on(desks, uaid);
    match create(alloc, desks, shard, s) {
        Ok(true) => Ok(Some(s)),
        Ok(false) => Ok(None),
        Err(end) => Err(end),
    }
}

// Makes a session of a user that is drawn.
fn create_drawn<D: Desks, G: Draw>(
    alloc: Global,
    desks: &mut D,
    draw: &mut G,
    node: NodeId,
    at: u64,
) -> Result<SessionId, SessionEnd>
    requires { at < 2 ^ 63 }
    ensures { Begins (creating (D.view desks.old).size node at 0) result (D.view desks.old) (D.view desks.new) (G.given draw.old) (G.given draw.new) }
{
    for tries in 0..TRIES {
        match try_create(alloc, desks, draw, node, at) {
            Ok(Some(s)) => return Ok(s),
            Ok(None) => {}
            Err(end) => return Err(end),
        }
    }
    Err(SessionEnd::UaidSpent)
}

// ---- the whole of it

// Claims a session of that user, or makes one of a user that is drawn, where there is no such user.
fn claim_or_create<D: Desks, G: Draw>(
    alloc: Global,
    desks: &mut D,
    draw: &mut G,
    node: NodeId,
    at: u64,
    uaid: Uaid,
) -> Result<SessionId, SessionEnd>
    requires { at < 2 ^ 63 }
    ensures { Begins (claiming (D.view desks.old).size node at uaid) result (D.view desks.old) (D.view desks.new) (G.given draw.old) (G.given draw.new) }
{
    let s = SessionId { uaid, node, at };
    let shard = shard_on(desks, uaid);
    match claim(alloc, desks, shard, s) {
        Ok(true) => Ok(s),
        Ok(false) => create_drawn(alloc, desks, draw, node, at),
        Err(end) => Err(end),
    }
}

fn begin<D: Desks, G: Draw>(
    alloc: Global,
    desks: &mut D,
    draw: &mut G,
    node: NodeId,
    at: u64,
    uaid: Option<Uaid>,
) -> Result<SessionId, SessionEnd>
    requires { at < 2 ^ 63 }
    ensures { Begins (hello_next (D.view desks.old).size node at uaid) result (D.view desks.old) (D.view desks.new) (G.given draw.old) (G.given draw.new) }
{
    match uaid {
        Some(uaid) => claim_or_create(alloc, desks, draw, node, at, uaid),
        None => create_drawn(alloc, desks, draw, node, at),
    }
}

fn attached_by(s: SessionId, reply: &Reply) -> Result<SessionId, SessionEnd>
    requires { is_attach_reply reply.now ≡ true }
    ensures { EndsBy (attach_next s reply.now) result }
{
    match reply {
        Reply::Attached(_) => Ok(s),
        Reply::Outrun(at) => Err(SessionEnd::Outrun(*at)),
        Reply::NodeDown | Reply::NotClaimed => Err(SessionEnd::Down),
        _ => unreachable!(),
    }
}

// Attaches the session on that shard.
fn attach_on<D: Desks>(
    alloc: Global,
    desks: &mut D,
    shard: u8,
    s: SessionId,
) -> Result<SessionId, SessionEnd>
    requires { shard < (D.view desks.old).size }
    ensures steps { Steps (attaching shard s) result (D.view desks.old) (D.view desks.new) }
    ensures cared { is_cared (world_at (D.view desks.new) shard) ≡ true }
{
    match ask(alloc, desks, shard, Step::Attach(s)) {
        Ok(reply) => attached_by(s, &reply),
        Err(_) => Err(SessionEnd::NoMemory),
    }
}

// Attaches the session on its shard.
fn attach<D: Desks>(alloc: Global, desks: &mut D, s: SessionId) -> Result<SessionId, SessionEnd>
    ensures steps { Steps (attaching (shard_of s.uaid (D.view desks.old).size) s) result (D.view desks.old) (D.view desks.new) }
    ensures cared { is_cared (world_at (D.view desks.new) (shard_of s.uaid (D.view desks.old).size)) ≡ true }
{
    let shard = shard_on(desks, s.uaid);
    attach_on(alloc, desks, shard, s)
}

/// Begins a session at that node, whose moment is the clock's: claims one of the given user, or makes one of a user that
/// is drawn, where none is given or there is no such user, and attaches it.
///
/// A step on a user is made behind a Tick to the clock's moment, in seconds. A drawn user is the number of sixteen bytes
/// of the draw, the topmost first; another is drawn while there is such a user already. `Stale` and `Outrun` come exactly
/// where the claim and the attach replied so, with the moment that they name, `Down` exactly where the attach replied
/// NodeDown or NotClaimed, and `UaidSpent` exactly where four drawn users were there already. Want of memory ends it at
/// that place, and then nothing else is made; there a claim may stay open. Mail stays. At `Ok` each stored row of the
/// user's shard that a routed session wasn't sent is covered.
pub fn hello<D: Desks, C: Clock, G: Draw>(
    alloc: Global,
    desks: &mut D,
    clock: &C,
    draw: &mut G,
    node: NodeId,
    uaid: Option<Uaid>,
) -> Result<SessionId, SessionEnd>
    ensures made { (at : ℕ) × IsMomentOf (C.moment clock.now) at × HelloMade result node at uaid (D.view desks.old) (D.view desks.new) (G.given draw.old) (G.given draw.new) }
    ensures cared { IfOk result (λ s. is_cared (world_at (D.view desks.new) (shard_of s.uaid (D.view desks.old).size)) ≡ true) }
{
    let at = clock.millis();
    match begin(alloc, desks, draw, node, at, uaid) {
        Ok(s) => attach(alloc, desks, s),
        Err(end) => Err(end),
    }
}
