//! Whose each token is: an index that is asked in place of all the cells.
ghost use Rattle.std.specs.Prelude.{◌≡◌, None, if◌then◌else◌};
ghost use Rattle.std.specs.List.{list_any};
ghost use Rattle.std.specs.Option.{option_copied};
ghost use Rattle.push_model.specs.declared.ids.Token.{Token as TokenValue};
ghost use Rattle.push_model.specs.Cells.{is_token};
ghost use Rattle.push_model.specs.Worlds.{cell_at};
ghost use Rattle.shard_core.specs.Owners.{holds, token_owner, owned, IsComplete};

use push_model::{Channel, Token, Uaid};
use std::collections::BTreeMap;
use user_cell::UserCell;

/// For each token, the number of the user who has its channel; it may name one for a token that is no channel's any more.
pub(crate) type TokenOwners = BTreeMap<[u8; 24], u128>;

/// The cell whose user has a channel with that token, if the index names it.
pub(crate) fn token_cell<'a>(
    cells: &'a BTreeMap<u128, UserCell>,
    owners: &TokenOwners,
    token: &Token,
) -> Option<&'a UserCell>
    ensures { option_copied result ≡ owned (holds token.now) (token_owner owners.now.entries token.now) cells.now.entries }
{
    let owner = owners.get(&token.0)?;
    let cell = cells.get(owner)?;
    if cell.has_token(token) {
        Some(cell)
    } else {
        None
    }
}

/// Takes the token out of the index, unless the cell that it names has it. It takes no memory.
pub(crate) fn forget_token(
    cells: &BTreeMap<u128, UserCell>,
    owners: &mut TokenOwners,
    token: &Token,
)
    requires { IsComplete holds (token_owner owners.old.entries) cells.now.entries }
    ensures complete { IsComplete holds (token_owner owners.new.entries) cells.now.entries }
    ensures ended { owned (holds token.now) (token_owner owners.new.entries token.now) cells.now.entries ≡ None → token_owner owners.new.entries token.now ≡ None }
{
    if token_cell(cells, owners, token).is_none() {
        owners.remove(&token.0);
    }
}

// Takes the tokens of these channels out of the index.
fn forget_channels(owners: &mut TokenOwners, channels: &[Channel])
    ensures { (t : TokenValue) → token_owner owners.new.entries t ≡ (if list_any (is_token t) channels.now then None else token_owner owners.old.entries t) }
{
    for channel in channels {
        owners.remove(&channel.token.0);
    }
}

/// Takes the tokens of that user's channels out of the index. It takes no memory.
pub(crate) fn forget_user(cells: &BTreeMap<u128, UserCell>, owners: &mut TokenOwners, uaid: Uaid)
    ensures { (t : TokenValue) → token_owner owners.new.entries t ≡ (if holds t (cell_at cells.now.entries uaid) then None else token_owner owners.old.entries t) }
{
    if let Some(cell) = cells.get(&uaid.0) {
        forget_channels(owners, cell.user_channels());
    }
}
