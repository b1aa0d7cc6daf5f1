// Levels in a list.
ghost use Rattle.std.specs.Prelude.{◌≡◌, [], ◌∷◌, ◌++◌, length, slice_get, MatchOption, OnOk, OnErr};
ghost use Rattle.std.specs.Option.{option_copied};

use crate::Level;
use std::alloc::{AllocError, Global};
use std::marker::Model;

/// The levels of a request, one for each size from its rank up. Contracts see a list of levels.
#[derive(Drop)]
pub struct LevelList {
    levels: Vec<Level>,
}

impl Model for LevelList {
    ghost use Rattle.std.specs.Prelude.{List};
    ghost use Rattle.level_driver.specs.declared.level.Level.{Level};

    ghost Value = { List Level };

    ghost view = { λ s. s.levels.items };
}

impl LevelList {
    /// The list of no level. It takes no memory.
    pub fn new(alloc: Global) -> LevelList
        ensures { result ≡ [] }
    {
        LevelList {
            levels: Vec::new(alloc),
        }
    }

    /// The number of levels.
    pub fn len(&self) -> usize
        ensures { result ≡ length self.now }
    {
        self.levels.len()
    }

    /// Level `i`, counted from 0, where there are so many: that of the size that is `i` above the rank.
    pub fn get(&self, i: usize) -> Option<&Level>
        ensures { option_copied result ≡ slice_get self.now i }
    {
        self.levels.get(i)
    }

    /// Takes the first level out, where there is one.
    pub fn take_first(&mut self) -> Option<Level>
        ensures { MatchOption result ((self.old ≡ []) × (self.new ≡ [])) (λ level. self.old ≡ level ∷ self.new) }
    {
        if self.levels.is_empty() {
            return None;
        }
        Some(self.levels.remove(0))
    }

    /// Adds a level at the end.
    ///
    /// # Errors
    ///
    /// `AllocError` where there was no memory. The list is then as it was, and the level is dropped.
    pub fn push(&mut self, level: Level) -> Result<(), AllocError>
        ensures pushed { OnOk result (self.new ≡ self.old ++ level ∷ []) }
        ensures unchanged { OnErr result (self.new ≡ self.old) }
    {
        match self.levels.push(level) {
            Ok(()) => Ok(()),
            Err(_) => Err(AllocError),
        }
    }
}
