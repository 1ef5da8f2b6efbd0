//! What holds of every shard, whatever its steps were: the headline, and the facts of the worlds that are reached.
#![tactic(auto)]

mod laws;
mod pins;
mod shards;

pub use laws::{
    histories_keep_the_headline, no_row_waits, reached_worlds_are_sound, steps_make_legal_histories,
};
pub use pins::{
    headlines_refuse, unsound_actors_are_refused, unsound_rows_are_refused,
    unsound_worlds_are_refused,
};
pub use shards::waiting;
