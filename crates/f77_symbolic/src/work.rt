//! How much work walks may take.

ghost use Rattle.std.specs.Prelude.{◌≡◌, ◌<◌, true};

/// The work that is left, of which so much is kept for walks to come: only the last turn of one takes of that.
#[derive(Drop)]
pub struct Work {
    pub left: u64,
    pub kept: u64,
}

impl Work {
    /// A walk may take a turn.
    pub fn is_left(&self) -> bool
        ensures { result ≡ true → self.now.kept < self.now.left }
    {
        self.left > self.kept
    }
}
