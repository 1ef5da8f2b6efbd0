//! The cell of one user.
ghost use Rattle.std.specs.Prelude.{◌≡◌, IfOk, OnErr, is_some, option_map, find, true};
ghost use Rattle.std.specs.List.{list_any};
ghost use Rattle.push_model.specs.Cells.{empty_cell, is_there, is_token, channels_of, rows_of, routed_place};
ghost use Rattle.push_model.specs.Kinds.{takes_memory};
ghost use Rattle.push_model.specs.Steps.{action, IsOnCell, Does, Costs};

use channel_rows::Channels;
use flight_rows::Flights;
use message_rows::Rows;
use node_registry::Registry;
use push_model::{
    Actor, Channel, ChannelId, Claim, Moment, NoMemory, NodeId, Reply, Row, Step, Token, Uaid,
};
use router_rows::RouterRow;
use shutdown_save::SaverRows;
use std::alloc::Global;
use std::marker::Model;

/// What a shard keeps of one user: the user, if there is one, and the user's open claims, sessions, closed sessions
/// and flights. Contracts see the record of these. It has room for what a handover will need: a row for each message
/// that a session or a saver holds, and a saver for each session.
#[derive(Drop)]
pub struct UserCell {
    pub(crate) uaid: Uaid,
    /// The route row; there is a user exactly where there is one.
    pub(crate) route: Option<RouterRow>,
    pub(crate) channels: Channels,
    pub(crate) rows: Rows,
    pub(crate) claims: Vec<Claim>,
    pub(crate) sessions: Registry,
    pub(crate) savers: SaverRows,
    pub(crate) flights: Flights,
}

impl Model for UserCell {
    ghost use Rattle.push_model.specs.Cells.{Cell};
    ghost use Rattle.user_cell.specs.Parts.{user_of, IsBare, HasRoom};

    ghost Value = { Cell };

    ghost view = { λ c. record { uaid = c.uaid; user = user_of c.route c.channels c.rows.rows; claims = c.claims.items; sessions = c.sessions.sessions.items; savers = c.savers.savers; flights = c.flights } };

    ghost invariant = { λ c. IsBare c.route c.channels c.rows.rows × HasRoom (record { uaid = c.uaid; user = user_of c.route c.channels c.rows.rows; claims = c.claims.items; sessions = c.sessions.sessions.items; savers = c.savers.savers; flights = c.flights }) c.rows.spare c.savers.spare };
}

impl UserCell {
    /// The cell of a uaid without a user. It takes no memory.
    pub fn new(alloc: Global, uaid: Uaid) -> UserCell
        ensures { result ≡ empty_cell uaid }
    {
        UserCell {
            uaid,
            route: None,
            channels: Channels::new(alloc),
            rows: Rows::new(alloc),
            claims: Vec::new(alloc),
            sessions: Registry::new(alloc),
            savers: SaverRows::new(alloc),
            flights: Flights::new(alloc),
        }
    }

    /// Whose cell it is.
    pub fn uaid(&self) -> Uaid
        ensures { result ≡ self.now.uaid }
    {
        self.uaid
    }

    /// Whether the user was made.
    pub fn has_user(&self) -> bool
        ensures { result ≡ is_some self.now.user }
    {
        self.route.is_some()
    }

    /// Whether it stands in the world: it has a user or a flight.
    pub fn is_there(&self) -> bool
        ensures { result ≡ is_there self.now }
    {
        self.route.is_some() || !self.flights.is_empty()
    }

    /// Whether some channel of the user has that token.
    pub fn has_token(&self, token: &Token) -> bool
        ensures { result ≡ list_any (is_token token.now) (channels_of self.now.user) }
    {
        self.channels.knows(token)
    }

    /// The user's channel that has that token.
    pub fn token_channel(&self, token: &Token) -> Option<ChannelId>
        ensures { result ≡ option_map (λ x. x.chid) (find (is_token token.now) (channels_of self.now.user)) }
    {
        self.channels.channel_of(token)
    }

    /// The user's channels, none where there is no user.
    pub fn user_channels(&self) -> &[Channel]
        ensures { result.now ≡ channels_of self.now.user }
    {
        self.channels.as_slice()
    }

    /// The user's stored rows, none where there is no user.
    pub(crate) fn user_rows(&self) -> &[Row]
        ensures { result.now ≡ rows_of self.now.user }
    {
        self.rows.rows()
    }

    /// The node and the moment that the route row names.
    pub(crate) fn routed_place(&self) -> Option<(NodeId, u64)>
        ensures { result ≡ routed_place self.now.user }
    {
        match &self.route {
            Some(route) => route.place(),
            None => None,
        }
    }

    /// Makes a step on this user, or on a flight of this user, at that moment, and gives its reply. `NoMemory` comes only
    /// in the place of a reply that costs memory, and then the cell stays as it was.
    pub fn step(&mut self, alloc: Global, moment: Moment, step: &Step) -> Result<Reply, NoMemory>
        requires { IsOnCell (action moment step.now) }
        ensures ok { IfOk result (λ r. Does (action moment step.now) self.old (record { cell = self.new; reply = r })) }
        ensures err { OnErr result ((self.new ≡ self.old) × (takes_memory step.now ≡ true) × Costs (action moment step.now) self.old) }
    {
        match step {
            Step::Create(s) => self.create(moment, *s),
            Step::Attach(s) => self.attach(alloc, *s),
            Step::Register(s, chid, token) => self.register(*s, *chid, *token),
            Step::Direct(op) => self.direct(moment, *op),
            Step::Store(op) => self.store(moment, *op),
            Step::GiveUp(op) => Ok(self.give_up(*op)),
            Step::Reread(Actor::Flight(op)) => Ok(self.reread(*op)),
            Step::Reread(Actor::Saver(s)) => Ok(self.saver_reread(*s)),
            Step::Nudge(Actor::Flight(op)) => Ok(self.nudge(*op)),
            Step::Nudge(Actor::Saver(s)) => Ok(self.saver_nudge(*s)),
            Step::Heard(Actor::Flight(op)) => Ok(self.heard(*op)),
            Step::Heard(Actor::Saver(s)) => Ok(self.saver_heard(*s)),
            Step::Lost(Actor::Flight(op)) => Ok(self.lost(*op)),
            Step::Lost(Actor::Saver(s)) => Ok(self.saver_lost(*s)),
            Step::TakeCheck(s) => Ok(self.take_check(*s)),
            Step::FetchTopic(s) => self.fetch_topic(alloc, *s),
            Step::FetchPlain(s) => self.fetch_plain(alloc, *s),
            Step::TakeDirect(s) => self.take_direct(alloc, moment, *s),
            Step::Ack(s, chid, id) => Ok(self.ack(*s, *chid, *id)),
            Step::Claim(s) => self.claim(moment, *s),
            Step::Unregister(s, chid) => Ok(self.unregister(*s, *chid)),
            Step::Renew(s) => Ok(self.renew(moment, *s)),
            Step::Close(s) => Ok(self.close(moment, *s)),
            Step::Release(s) => Ok(self.release(*s)),
            Step::SaveOne(s) => Ok(self.save(moment, *s)),
            Step::Clear(Actor::Flight(op)) => Ok(self.clear(*op)),
            Step::Clear(Actor::Saver(s)) => Ok(self.saver_clear(*s)),
            Step::Notif(node, _) => Ok(self.notif(*node)),
            Step::Expire(_) => Ok(self.expire(alloc, moment)),
            Step::DropUser(_) => Ok(self.drop_user(alloc)),
            Step::Begin(_, _, _)
            | Step::Tick(_)
            | Step::Kill(_)
            | Step::Up(_)
            | Step::ListOrphans
            | Step::ListIdle
            | Step::Report => unreachable!(),
        }
    }
}
