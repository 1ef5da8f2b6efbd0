//! A step on the cell of one user, among the cells of a shard and beside the index of whose the tokens are.
ghost use Rattle.std.specs.Prelude.{◌≡◌, true, Some, None, IfOk, OnErr};
ghost use Rattle.std.specs.List.{find};
ghost use Rattle.push_model.specs.Kinds.{takes_memory};
ghost use Rattle.push_model.specs.SessionSteps.{lacks};
ghost use Rattle.push_model.specs.UserSteps.{is_idle_user};
ghost use Rattle.push_model.specs.Worlds.{cell_at, has_token_in};
ghost use Rattle.push_model.specs.Steps.{action, IsOnCell, Costs};
ghost use Rattle.shard_core.specs.Made.{StepsTo};
ghost use Rattle.shard_core.specs.Owners.{holds, token_owner, brought, drops, BringsFree, IsComplete};

use crate::places::step_at;
use crate::token_owners::{TokenOwners, forget_token, forget_user};
use push_model::{ChannelId, Moment, NoMemory, Reply, SessionId, Step, Token, Uaid};
use std::alloc::Global;
use std::collections::BTreeMap;
use user_cell::UserCell;

/// Makes the step on the cell of that user at that moment, where no cell has the token that it brings. The index learns
/// whose that token is, and loses the tokens that the step takes away.
pub(crate) fn step_owned(
    cells: &mut BTreeMap<u128, UserCell>,
    owners: &mut TokenOwners,
    alloc: Global,
    moment: Moment,
    uaid: Uaid,
    asked: &Step,
) -> Result<Reply, NoMemory>
    requires kind { IsOnCell (action moment asked.now) }
    requires free { BringsFree asked.now uaid cells.old.entries }
    requires complete { IsComplete holds (token_owner owners.old.entries) cells.old.entries }
    ensures ok { IfOk result (λ reply. StepsTo (action moment asked.now) uaid cells.old.entries cells.new.entries reply) }
    ensures err { OnErr result ((cells.new.entries ≡ cells.old.entries) × (takes_memory asked.now ≡ true) × Costs (action moment asked.now) (cell_at cells.old.entries uaid)) }
    ensures complete { IsComplete holds (token_owner owners.new.entries) cells.new.entries }
{
    if let Some(token) = brought(cells, uaid, asked) {
        return step_bringing(cells, owners, alloc, moment, uaid, asked, &token);
    }
    if drops(cells, moment, uaid, asked) {
        return step_dropping(cells, owners, alloc, moment, uaid, asked);
    }
    step_leaving(cells, owners, alloc, moment, uaid, asked)
}

// a step that brings the token
fn step_bringing(
    cells: &mut BTreeMap<u128, UserCell>,
    owners: &mut TokenOwners,
    alloc: Global,
    moment: Moment,
    uaid: Uaid,
    asked: &Step,
    token: &Token,
) -> Result<Reply, NoMemory>
    requires kind { IsOnCell (action moment asked.now) }
    requires brings { brought asked.now (cell_at cells.old.entries uaid) ≡ Some token.now }
    requires free { find (has_token_in token.now) cells.old.entries ≡ None }
    requires complete { IsComplete holds (token_owner owners.old.entries) cells.old.entries }
    ensures ok { IfOk result (λ reply. StepsTo (action moment asked.now) uaid cells.old.entries cells.new.entries reply) }
    ensures err { OnErr result ((cells.new.entries ≡ cells.old.entries) × (takes_memory asked.now ≡ true) × Costs (action moment asked.now) (cell_at cells.old.entries uaid)) }
    ensures complete { IsComplete holds (token_owner owners.new.entries) cells.new.entries }
{
    if owners.insert(token.0, uaid.0).is_err() {
        return Err(NoMemory);
    }
    let reply = step_at(cells, alloc, moment, uaid, asked);
    forget_token(cells, owners, token);
    reply
}

// a step that drops the user
fn step_dropping(
    cells: &mut BTreeMap<u128, UserCell>,
    owners: &mut TokenOwners,
    alloc: Global,
    moment: Moment,
    uaid: Uaid,
    asked: &Step,
) -> Result<Reply, NoMemory>
    requires kind { IsOnCell (action moment asked.now) }
    requires drops { drops moment asked.now (cell_at cells.old.entries uaid) ≡ true }
    requires complete { IsComplete holds (token_owner owners.old.entries) cells.old.entries }
    ensures ok { IfOk result (λ reply. StepsTo (action moment asked.now) uaid cells.old.entries cells.new.entries reply) }
    ensures err { OnErr result ((cells.new.entries ≡ cells.old.entries) × (takes_memory asked.now ≡ true) × Costs (action moment asked.now) (cell_at cells.old.entries uaid)) }
    ensures complete { IsComplete holds (token_owner owners.new.entries) cells.new.entries }
{
    forget_user(cells, owners, uaid);
    step_at(cells, alloc, moment, uaid, asked)
}

// a step that brings no token and drops no user
fn step_leaving(
    cells: &mut BTreeMap<u128, UserCell>,
    owners: &mut TokenOwners,
    alloc: Global,
    moment: Moment,
    uaid: Uaid,
    asked: &Step,
) -> Result<Reply, NoMemory>
    requires kind { IsOnCell (action moment asked.now) }
    requires none { brought asked.now (cell_at cells.old.entries uaid) ≡ None }
    requires complete { IsComplete holds (token_owner owners.old.entries) cells.old.entries }
    ensures ok { IfOk result (λ reply. StepsTo (action moment asked.now) uaid cells.old.entries cells.new.entries reply) }
    ensures err { OnErr result ((cells.new.entries ≡ cells.old.entries) × (takes_memory asked.now ≡ true) × Costs (action moment asked.now) (cell_at cells.old.entries uaid)) }
    ensures complete { IsComplete holds (token_owner owners.new.entries) cells.new.entries }
{
    let token = named(cells, uaid, asked);
    let reply = step_at(cells, alloc, moment, uaid, asked);
    if let Some(token) = token {
        forget_token(cells, owners, &token);
    }
    reply
}

/// Whether that session is attached, and its user, in that cell, lacks the channel.
pub(crate) fn lacks(
    cells: &BTreeMap<u128, UserCell>,
    uaid: Uaid,
    s: &SessionId,
    chid: ChannelId,
) -> bool
    ensures { result ≡ lacks s.now chid (cell_at cells.now.entries uaid) }
{
    match cells.get(&uaid.0) {
        Some(cell) => cell.lacks(*s, chid),
        None => false,
    }
}

// the token that the step brings the user
fn brought(cells: &BTreeMap<u128, UserCell>, uaid: Uaid, asked: &Step) -> Option<Token>
    ensures { result ≡ brought asked.now (cell_at cells.now.entries uaid) }
{
    match asked {
        Step::Register(s, chid, token) if lacks(cells, uaid, s, *chid) => Some(*token),
        _ => None,
    }
}

// whether the step drops the user, or there is none
fn drops(cells: &BTreeMap<u128, UserCell>, moment: Moment, uaid: Uaid, asked: &Step) -> bool
    ensures { result ≡ drops moment asked.now (cell_at cells.now.entries uaid) }
{
    match asked {
        Step::Expire(_) => is_idle(cells, moment, uaid),
        Step::DropUser(_) => true,
        _ => false,
    }
}

fn is_idle(cells: &BTreeMap<u128, UserCell>, moment: Moment, uaid: Uaid) -> bool
    ensures { result ≡ is_idle_user moment (cell_at cells.now.entries uaid).user (cell_at cells.now.entries uaid).sessions }
{
    match cells.get(&uaid.0) {
        Some(cell) => cell.is_idle(moment),
        None => false,
    }
}

// the token of the channel that the step takes away
fn named(cells: &BTreeMap<u128, UserCell>, uaid: Uaid, asked: &Step) -> Option<Token> {
    let Step::Unregister(_, chid) = asked else {
        return None;
    };
    let channels = cells.get(&uaid.0)?.user_channels();
    channels
        .iter()
        .find(|channel| channel.chid == *chid)
        .map(|channel| channel.token)
}
