//! What a shard keeps, and each step on it.
ghost use Rattle.std.specs.Prelude.{◌≡◌, ◌<◌, ◌≤◌, ◌+◌, ◌^◌, ◌&&◌, true, None, find, IfOk, OnErr};
ghost use Rattle.std.specs.Map.{lookup};
ghost use Rattle.std.specs.Ordering.{nat_cmp};
ghost use Rattle.std.specs.BTreeMap.{is_at};
ghost use Rattle.std.specs.Option.{option_map, option_copied};
ghost use Rattle.push_model.specs.declared.ids.Uaid.{Uaid as UaidValue};
ghost use Rattle.push_model.specs.declared.step.Step.TheVariants.{Attach, Register, Begin};
ghost use Rattle.push_model.specs.Kinds.{takes_memory, costs_memory};
ghost use Rattle.push_model.specs.Cells.{Cell, empty_cell};
ghost use Rattle.push_model.specs.SessionSteps.{lacks};
ghost use Rattle.push_model.specs.FlightSteps.{begin};
ghost use Rattle.push_model.specs.Worlds.{start, is_down, cell_at, on_cell, is_token_known, has_token_in, has_flight_in};
ghost use Rattle.push_model.specs.ShardSteps.{counts, tick, kill, up, list_orphans, list_idle};
ghost use Rattle.push_model.specs.Steps.{action, made, step, IsOnCell};
ghost use Rattle.push_model.specs.Reached.{IsReached};
ghost use Rattle.shard_core.specs.Shards.{IsNoBegin, HasUser};
ghost use Rattle.shard_core.specs.Owners.{BringsFree};
ghost use Rattle.shard_core.specs.Made.{DoesAt, CostsAt, DoesOnFlight, CostsOnFlight};

use crate::cells::{count_cells, held_on, idle_users, kill_cells, orphaned_on, orphaned_users};
use crate::dues::{NEVER, earlier, later, soonest_at, soonest_of, tick_cells};
use crate::flight_owners::{FlightOwners, flight_cell, forget_ended};
use crate::places::begin_owned;
use crate::token_owners::{TokenOwners, token_cell};
use crate::token_steps::{lacks, step_owned};
use push_model::{
    Actor, Ask, ChannelId, Counts, Message, Moment, MsgId, NoMemory, NodeId, Op, Reply, SessionId,
    Step, Tally, Token, Uaid,
};
use std::alloc::Global;
use std::collections::BTreeMap;
use std::marker::Model;
use user_cell::UserCell;

/// The parts of a shard. Contracts see the world that they are.
#[derive(Drop)]
pub(crate) struct State {
    number: u8,
    clock: Moment,
    next: u64,
    down: [bool; 8],
    cells: BTreeMap<u128, UserCell>,
    // at no moment in seconds below it is a row due
    soonest: u64,
    // names the user of each flight, and no others
    flights: FlightOwners,
    // names the user of each token
    tokens: TokenOwners,
    tally: Tally,
}

impl Model for State {
    ghost use Rattle.std.specs.Prelude.{◌≤◌, ◌^◌};
    ghost use Rattle.push_model.specs.Worlds.{World};
    ghost use Rattle.shard_core.specs.Dues.{NoneDueIn};
    ghost use Rattle.shard_core.specs.Owners.{has_flight, flight_owner, holds, token_owner, IsComplete, IsSound};

    ghost Value = { World };

    ghost view = { λ s. record { shard = s.number; clock = s.clock; next = s.next; down = s.down; cells = s.cells.entries; tally = s.tally } };

    ghost invariant = { λ s. (s.next ≤ 2 ^ 63) × NoneDueIn s.soonest s.cells.entries × IsComplete has_flight (flight_owner s.flights.entries) s.cells.entries × IsComplete holds (token_owner s.tokens.entries) s.cells.entries × IsSound has_flight (flight_owner s.flights.entries) s.cells.entries };
}

/// Past the last message number.
const SPENT: u64 = 1 << 63;

impl State {
    /// No users, the clock at 0, all nodes up and that message number as the next.
    pub(crate) fn start(alloc: Global, number: u8, next: u64) -> State
        requires { next ≤ 2 ^ 63 }
        ensures { result ≡ start number next }
    {
        State {
            number,
            clock: Moment::zero(),
            next,
            down: [false; 8],
            cells: BTreeMap::new(alloc),
            soonest: NEVER,
            flights: BTreeMap::new(alloc),
            tokens: BTreeMap::new(alloc),
            tally: Tally::new(),
        }
    }

    /// The sums over all the steps made so far.
    pub(crate) fn tally(&self) -> Tally
        ensures { result ≡ self.now.tally }
    {
        self.tally
    }

    /// Makes the step and counts it.
    pub(crate) fn step(&mut self, alloc: Global, asked: Step) -> Result<Reply, NoMemory>
        requires { IsReached self.old }
        ensures ok { IfOk result (λ reply. step self.old asked ≡ (self.new, reply)) }
        ensures err { OnErr result ((self.new ≡ self.old) × (takes_memory asked ≡ true) × (costs_memory (step self.old asked).1 ≡ true)) }
    {
        let of_flight = asked.is_of_flight();
        let unkept = asked.begins_unkept();
        let reply = self.make(alloc, asked)?;
        self.tally.count(of_flight, unkept, &reply);
        Ok(reply)
    }

    fn make(&mut self, alloc: Global, asked: Step) -> Result<Reply, NoMemory>
        requires { IsReached self.old }
        ensures ok { IfOk result (λ reply. made self.old asked ≡ (self.new, reply)) }
        ensures err { OnErr result ((self.new ≡ self.old) × (takes_memory asked ≡ true) × (costs_memory (made self.old asked).1 ≡ true)) }
    {
        match asked {
            Step::Begin(op, token, ask) => self.begin(alloc, op, token, ask),
            other => self.make_other(alloc, &other),
        }
    }

    fn make_other(&mut self, alloc: Global, asked: &Step) -> Result<Reply, NoMemory>
        requires reached { IsReached self.old }
        requires kind { IsNoBegin asked.now }
        ensures ok { IfOk result (λ reply. made self.old asked.now ≡ (self.new, reply)) }
        ensures err { OnErr result ((self.new ≡ self.old) × (takes_memory asked.now ≡ true) × (costs_memory (made self.old asked.now).1 ≡ true)) }
    {
        match asked {
            Step::Attach(s) => self.attach(alloc, s),
            Step::Register(s, chid, token) => self.register(alloc, s, *chid, token),
            Step::Create(s)
            | Step::TakeCheck(s)
            | Step::FetchTopic(s)
            | Step::FetchPlain(s)
            | Step::TakeDirect(s)
            | Step::Ack(s, _, _)
            | Step::Claim(s)
            | Step::Unregister(s, _)
            | Step::Renew(s)
            | Step::Close(s)
            | Step::Release(s)
            | Step::SaveOne(s)
            | Step::Reread(Actor::Saver(s))
            | Step::Nudge(Actor::Saver(s))
            | Step::Heard(Actor::Saver(s))
            | Step::Lost(Actor::Saver(s))
            | Step::Clear(Actor::Saver(s)) => self.on_cell(alloc, s.uaid, asked),
            Step::Notif(_, uaid) | Step::Expire(uaid) | Step::DropUser(uaid) => {
                self.on_cell(alloc, *uaid, asked)
            }
            Step::Direct(op)
            | Step::Store(op)
            | Step::GiveUp(op)
            | Step::Reread(Actor::Flight(op))
            | Step::Nudge(Actor::Flight(op))
            | Step::Heard(Actor::Flight(op))
            | Step::Lost(Actor::Flight(op))
            | Step::Clear(Actor::Flight(op)) => self.on_flight(alloc, *op, asked),
            Step::Tick(moment) => Ok(self.tick(*moment)),
            Step::Kill(node) => Ok(self.kill(*node)),
            Step::Up(node) => Ok(self.up(*node)),
            Step::ListOrphans => self.list_orphans(alloc),
            Step::ListIdle => self.list_idle(alloc),
            Step::Report => Ok(Reply::Counts(self.counts())),
            Step::Begin(_, _, _) => unreachable!(),
        }
    }

    // makes a step on the cell of that user; a flight that ends with it leaves the index
    fn on_cell(&mut self, alloc: Global, uaid: Uaid, asked: &Step) -> Result<Reply, NoMemory>
        requires kind { IsOnCell (action self.old.clock asked.now) }
        requires free { BringsFree asked.now uaid self.old.cells }
        ensures ok { IfOk result (λ reply. DoesAt (action self.old.clock asked.now) uaid self.old self.new reply) }
        ensures err { OnErr result ((self.new ≡ self.old) × (takes_memory asked.now ≡ true) × CostsAt (action self.old.clock asked.now) uaid self.old) }
    {
        let tokens = &mut self.tokens;
        let reply = step_owned(&mut self.cells, tokens, alloc, self.clock, uaid, asked)?;
        self.soonest = earlier(self.soonest, soonest_at(&self.cells, uaid));
        forget_ended(&self.cells, &mut self.flights, asked, &reply);
        Ok(reply)
    }

    fn is_down(&self, node: NodeId) -> bool
        ensures { result ≡ is_down node self.now }
    {
        self.down[usize::from(node.get()) - 1]
    }

    fn attach(&mut self, alloc: Global, s: &SessionId) -> Result<Reply, NoMemory>
        ensures ok { IfOk result (λ reply. made self.old (Attach s.now) ≡ (self.new, reply)) }
        ensures err { OnErr result ((self.new ≡ self.old) × (costs_memory (made self.old (Attach s.now)).1 ≡ true)) }
    {
        if self.is_down(s.node) {
            return Ok(Reply::NodeDown);
        }
        self.on_cell(alloc, s.uaid, &Step::Attach(*s))
    }

    fn lacks(&self, s: &SessionId, chid: ChannelId) -> bool
        ensures { result ≡ lacks s.now chid (cell_at self.now.cells s.now.uaid) }
    {
        lacks(&self.cells, s.uaid, s, chid)
    }

    fn knows_token(&self, token: &Token) -> bool
        requires { IsReached self.now }
        ensures { result ≡ is_token_known token.now self.now }
    {
        self.token_cell(token).is_some()
    }

    // whether another channel has the token of the channel that the session's user lacks
    fn is_taken(&self, s: &SessionId, chid: ChannelId, token: &Token) -> bool
        requires { IsReached self.now }
        ensures { result ≡ (lacks s.now chid (cell_at self.now.cells s.now.uaid) && is_token_known token.now self.now) }
    {
        self.lacks(s, chid) && self.knows_token(token)
    }

    fn register(
        &mut self,
        alloc: Global,
        s: &SessionId,
        chid: ChannelId,
        token: &Token,
    ) -> Result<Reply, NoMemory>
        requires { IsReached self.old }
        ensures ok { IfOk result (λ reply. made self.old (Register s.now chid token.now) ≡ (self.new, reply)) }
        ensures err { OnErr result ((self.new ≡ self.old) × (costs_memory (made self.old (Register s.now chid token.now)).1 ≡ true)) }
    {
        if self.is_taken(s, chid, token) {
            return Ok(Reply::TokenTaken);
        }
        self.on_cell(alloc, s.uaid, &Step::Register(*s, chid, *token))
    }

    fn flight_cell(&self, op: Op) -> Option<&UserCell>
        requires { IsReached self.now }
        ensures { option_copied result ≡ option_map (λ e. e.1) (find (has_flight_in op) self.now.cells) }
    {
        flight_cell(&self.cells, &self.flights, op)
    }

    fn token_cell(&self, token: &Token) -> Option<&UserCell>
        requires { IsReached self.now }
        ensures { option_copied result ≡ option_map (λ e. e.1) (find (has_token_in token.now) self.now.cells) }
    {
        token_cell(&self.cells, &self.tokens, token)
    }

    // makes a step on the cell that has the flight
    fn on_flight(&mut self, alloc: Global, op: Op, asked: &Step) -> Result<Reply, NoMemory>
        requires reached { IsReached self.old }
        requires kind { IsOnCell (action self.old.clock asked.now) }
        requires free { (u : UaidValue) → BringsFree asked.now u self.old.cells }
        ensures ok { IfOk result (λ reply. DoesOnFlight (action self.old.clock asked.now) op self.old self.new reply) }
        ensures err { OnErr result ((self.new ≡ self.old) × (takes_memory asked.now ≡ true) × CostsOnFlight (action self.old.clock asked.now) op self.old) }
    {
        let Some(cell) = self.flight_cell(op) else {
            return Ok(Reply::NoFlight);
        };
        let uaid = cell.uaid();
        self.on_cell(alloc, uaid, asked)
    }

    fn begin(&mut self, alloc: Global, op: Op, token: Token, ask: Ask) -> Result<Reply, NoMemory>
        requires { IsReached self.old }
        ensures ok { IfOk result (λ reply. made self.old (Begin op token ask) ≡ (self.new, reply)) }
        ensures err { OnErr result ((self.new ≡ self.old) × (costs_memory (made self.old (Begin op token ask)).1 ≡ true)) }
    {
        if let Some(cell) = self.flight_cell(op) {
            return Ok(cell.stage_reply(op));
        }
        let Some(cell) = self.token_cell(&token) else {
            return Ok(Reply::NoToken);
        };
        let uaid = cell.uaid();
        let Some(chid) = cell.token_channel(&token) else {
            return Ok(Reply::NoToken);
        };
        if self.next == SPENT {
            return Ok(Reply::IdsSpent);
        }
        self.begin_numbered(alloc, uaid, chid, op, token, ask)
    }

    // takes the message by the next number, and begins its flight in the user's cell, which is there
    fn begin_numbered(
        &mut self,
        alloc: Global,
        uaid: Uaid,
        chid: ChannelId,
        op: Op,
        token: Token,
        ask: Ask,
    ) -> Result<Reply, NoMemory>
        requires number { self.old.next < 2 ^ 63 }
        requires there { HasUser (lookup (is_at (nat_cmp uaid.0)) self.old.cells) }
        requires free { find (has_flight_in op) self.old.cells ≡ None }
        ensures ok { IfOk result (λ reply. on_cell (record self.old { next = self.old.next + 1 }) uaid (begin op token (record { id = record { shard = self.old.shard; number = self.old.next }; uaid = uaid; chid = chid; ask = ask; accepted = self.old.clock })) ≡ (self.new, reply)) }
        ensures err { OnErr result ((self.new ≡ self.old) × (costs_memory (on_cell (record self.old { next = self.old.next + 1 }) uaid (begin op token (record { id = record { shard = self.old.shard; number = self.old.next }; uaid = uaid; chid = chid; ask = ask; accepted = self.old.clock }))).1 ≡ true)) }
    {
        let message = Message {
            id: MsgId {
                shard: self.number,
                number: self.next,
            },
            uaid,
            chid,
            ask,
            accepted: self.clock,
        };
        let flights = &mut self.flights;
        let reply = begin_owned(&mut self.cells, flights, alloc, uaid, op, token, message)?;
        self.next += 1;
        Ok(reply)
    }

    // the clock never goes back; rows that are due go, and where none is, no cell is looked at
    fn tick(&mut self, moment: Moment) -> Reply
        requires { IsReached self.old }
        ensures { tick moment self.old ≡ (self.new, result) }
    {
        let now = later(self.clock, moment);
        self.clock = now;
        if now.seconds() < self.soonest {
            return Reply::Done;
        }
        tick_cells(&mut self.cells, now);
        self.soonest = soonest_of(&self.cells);
        Reply::Done
    }

    // what is on the node goes, and nobody can attach there
    fn kill(&mut self, node: NodeId) -> Reply
        ensures { kill node self.old ≡ (self.new, result) }
    {
        let held = held_on(&self.cells, node);
        let orphaned = orphaned_on(&self.cells, node);
        self.down[usize::from(node.get()) - 1] = true;
        kill_cells(&mut self.cells, node);
        Reply::Killed(held, orphaned)
    }

    fn up(&mut self, node: NodeId) -> Reply
        ensures { up node self.old ≡ (self.new, result) }
    {
        self.down[usize::from(node.get()) - 1] = false;
        Reply::Done
    }

    fn list_orphans(&self, alloc: Global) -> Result<Reply, NoMemory>
        ensures { IfOk result (λ reply. list_orphans self.now ≡ (self.now, reply)) }
    {
        Ok(Reply::Users(orphaned_users(alloc, &self.cells)?))
    }

    fn list_idle(&self, alloc: Global) -> Result<Reply, NoMemory>
        ensures { IfOk result (λ reply. list_idle self.now ≡ (self.now, reply)) }
    {
        Ok(Reply::Users(idle_users(alloc, &self.cells, self.clock)?))
    }

    /// The numbers of a report.
    pub(crate) fn counts(&self) -> Counts
        ensures { result ≡ counts self.now }
    {
        count_cells(&self.cells)
    }
}
