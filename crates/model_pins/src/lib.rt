//! Small laws of what the steps of a shard do to a user, each a worked history for a reader to check at a glance. No crate
//! stands on them: they hold the definitions of `push_model` fast, together with its own `pins`.
#![tactic(auto)]

mod deliveries;
mod routes;
mod users;

pub use deliveries::{
    acknowledged_messages_are_unknown, known_rows_stay, messages_are_given_where_they_can_be,
    messages_are_stored_where_they_can_be,
};
pub use routes::{
    lost_sessions_leave_the_route, routed_sessions_take_orphans, routes_are_renewed_by_their_own,
};
pub use users::{closed_sessions_are_gone, dropped_users_are_gone};
