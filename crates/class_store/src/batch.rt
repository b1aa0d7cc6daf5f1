ghost use Rattle.std.specs.Prelude.{◌≡◌, ◌<◌, ◌∷◌, ◌++◌, [], length};

use arrayvec::ArrayVec;
use link_set::Key;
use std::alloc::Global;
use std::marker::Model;

/// A list of at most 16 keys of one stripe, to be offered under one lock.
#[derive(Drop)]
pub struct KeyBatch {
    pub(crate) keys: ArrayVec<Key, 16, Global>,
}

impl Model for KeyBatch {
    ghost use Rattle.std.specs.Prelude.{◌≤◌, List, ℕ, length};

    ghost Value = { List (List ℕ) };

    ghost view = { λ b. b.keys.items };

    ghost invariant = { λ b. length b.keys.items ≤ 16 };
}

impl KeyBatch {
    /// A batch without keys. It takes no memory.
    pub fn new(alloc: Global) -> KeyBatch
        ensures { result ≡ [] }
    {
        KeyBatch {
            keys: ArrayVec::new_in(alloc),
        }
    }

    /// How many keys there are.
    pub fn len(&self) -> usize
        ensures { result ≡ length self.now }
    {
        self.keys.len()
    }

    /// Adds the key last.
    pub fn push(&mut self, key: Key)
        requires { length self.old < 16 }
        ensures { self.new ≡ self.old ++ key ∷ [] }
    {
        self.keys.push(key);
    }
}
