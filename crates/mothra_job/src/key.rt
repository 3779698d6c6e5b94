//! Names of members of a job. `Key` is a type of its own, which contracts see as the bytes of the name, so that answers
//! of `read_job` can be compared as values.

ghost use Rattle.std.specs.Prelude.{◌≡◌, string_bytes};

use std::marker::Model;

/// The name of a member of a job: any text, also an empty one.
#[derive(Debug, Drop)]
pub struct Key {
    name: String,
}

impl Model for Key {
    ghost use Rattle.std.specs.Prelude.{List, ℕ, string_bytes};

    ghost Value = { List ℕ };

    ghost view = { λ k. string_bytes k.name };
}

impl Key {
    /// The key of this name. The call takes no memory.
    pub fn new(name: String) -> Key
        ensures { result ≡ string_bytes name }
    {
        Key { name }
    }

    /// The name. The call takes no memory.
    pub fn as_str(&self) -> &str
        ensures { result.now ≡ self.now }
    {
        self.name.as_str()
    }

    /// Gives the name back. The call takes no memory.
    pub fn into_string(self) -> String
        ensures { string_bytes result ≡ self }
    {
        self.name
    }
}
