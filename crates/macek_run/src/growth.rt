// The ways in which a level is grown from the one before.
ghost use Rattle.std.specs.Prelude.{◌≡◌, ◌+◌, ℕ, IfOk, OnOk, if◌then◌else◌};
ghost use Rattle.level_driver.specs.Grown.{IsParentLevel, IsLevelOf, AreTriesOf, IsGrown, AreGrown};

use level_driver::{FormList, Level, LevelList, grow_alone};
use orderly::next_level;
use request_reader::Request;
use std::alloc::{AllocError, Global};

/// A way of growth. Both ways give the same level.
#[derive(Clone, Copy, Debug, PartialEq, Eq)]
pub enum Growth {
    /// The forms of all tries are gathered in an ordered set.
    Gathered,
    /// The tries that are their own forms are kept as they come: orderly generation, as Read and Faradzev have it.
    Orderly,
}

impl Growth {
    /// The way that the words ask for.
    pub fn asked(orderly: bool) -> Growth
        ensures { result ≡ (if orderly then Growth.Orderly else Growth.Gathered) }
    {
        if orderly {
            return Growth::Orderly;
        }
        Growth::Gathered
    }
}

/// The level after a level of a request, grown in one of the ways.
fn grow(
    alloc: Global,
    growth: Growth,
    request: &Request,
    parents: &FormList,
) -> Result<Level, AllocError>
    requires { (n : ℕ) × IsParentLevel request.now n parents.now }
    ensures forms { IfOk result (λ level. (n : ℕ) →
        IsParentLevel request.now n parents.now → IsLevelOf request.now (n + 1) level.forms) }
    ensures tried { IfOk result (λ level. (n : ℕ) →
        IsParentLevel request.now n parents.now → AreTriesOf request.now (n + 1) level.tried) }
{
    match growth {
        Growth::Gathered => grow_alone(alloc, request, parents),
        Growth::Orderly => next_level(alloc, request, parents),
    }
}

/// The level of a request after one of its levels: the first of those at hand, or else it is grown in one of the ways.
pub fn level_after(
    alloc: Global,
    growth: Growth,
    request: &Request,
    parents: &FormList,
    levels: &mut LevelList,
) -> Result<Level, AllocError>
    requires { (n : ℕ) × IsParentLevel request.now n parents.now × AreGrown request.now (n + 1) levels.old }
    ensures level { IfOk result (λ level. (n : ℕ) → IsParentLevel request.now n parents.now →
        AreGrown request.now (n + 1) levels.old → IsGrown request.now (n + 1) level) }
    ensures later { OnOk result ((n : ℕ) → AreGrown request.now n levels.old → AreGrown request.now (n + 1) levels.new) }
{
    match levels.take_first() {
        Some(level) => Ok(level),
        None => grow(alloc, growth, request, parents),
    }
}
