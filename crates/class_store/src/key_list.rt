ghost use Rattle.std.specs.Prelude.{◌≡◌, ◌≤◌, MatchOption, Some, length, slice_get};

use link_set::Key;
use std::marker::Model;

/// A list of keys.
#[derive(Drop)]
pub struct KeyList {
    pub(crate) keys: Vec<Key>,
}

impl Model for KeyList {
    ghost use Rattle.std.specs.Prelude.{List, ℕ};

    ghost Value = { List (List ℕ) };

    ghost view = { λ l. l.keys.items };
}

impl KeyList {
    /// How many keys there are.
    pub fn len(&self) -> usize
        ensures { result ≡ length self.now }
    {
        self.keys.len()
    }

    /// The key at place `i`; none where there are not so many.
    pub fn get(&self, i: usize) -> Option<&Key>
        ensures { MatchOption result (length self.now ≤ i) (λ key. slice_get self.now i ≡ Some key.now) }
    {
        self.keys.get(i)
    }
}
