//! What the user is like who gets the messages.
ghost use Rattle.std.specs.Prelude.{◌<◌};

/// What the user has before the first message.
#[derive(Clone, Copy, Debug)]
pub struct Scene {
    /// An attached session. Without one the messages have a topic, so that each replaces the last.
    pub has_session: bool,
    /// How many rows.
    pub rows: u64,
}

impl Scene {
    /// The scene of that name.
    pub fn of_word(word: &str) -> Option<Scene> {
        let (has_session, rows) = match word {
            "direct" => (true, 0),
            "stored" => (false, 0),
            "full" => (false, 999),
            _ => return None,
        };
        Some(Scene { has_session, rows })
    }

    /// The most messages in a row: the requests of a wire, after which the session takes what it holds.
    pub fn in_a_row(&self) -> u64
        ensures { 0 < result }
    {
        if self.has_session { 250 } else { 1000 }
    }
}
