// Forbidden minors.
ghost use Rattle.std.specs.Prelude.{◌≡◌, ◌↔◌, IsTrue, IsFalse, IfOk};
ghost use Rattle.matroid_theory.specs.Matroid.{Agrees};
ghost use Rattle.level_driver.specs.Forbidden.{matroids_of, Avoids};

use minor_test::{Sought, Whole, find_minor, has_minor, leaves_room};
use named_matroids::MinorItem;
use product_rep::Rep;
use std::alloc::{AllocError, Global};
use std::marker::Model;

/// Forbidden matroids, made ready for many representations: what is looked up of them is made once. Contracts see the matroids.
#[derive(Drop)]
pub struct Forbidden {
    sought: Vec<Sought>,
}

impl Model for Forbidden {
    ghost use Rattle.std.specs.Prelude.{List};
    ghost use Rattle.matroid_theory.specs.Minor.{Matroid};

    ghost Value = { List Matroid };

    ghost view = { λ s. s.sought.items };
}

impl Forbidden {
    /// These matroids, made ready.
    ///
    /// # Errors
    ///
    /// `AllocError` where there was no memory for them.
    pub fn of(alloc: Global, items: &[MinorItem]) -> Result<Forbidden, AllocError>
        ensures { IfOk result (λ forbidden. forbidden ≡ matroids_of items.now) }
    {
        let mut sought = Vec::with_capacity(alloc, items.len())?;
        for item in items {
            sought.push(Sought::of(item.minor()))?;
        }
        Ok(Forbidden { sought })
    }

    /// Whether the representation has none of them as a minor. It takes no memory.
    pub fn are_avoided_by(&self, rep: &Rep) -> bool
        requires { Agrees rep.now }
        ensures { IsTrue result ↔ Avoids self.now rep.now }
    {
        let sought = self.as_slice();
        if !some_has_room(sought, rep) {
            return true;
        }
        none_found(sought, &Whole::of(rep))
    }

    /// The matroids.
    fn as_slice(&self) -> &[Sought]
        ensures { result.now ≡ self.now }
    {
        &self.sought
    }
}

/// Whether one of the matroids leaves room for itself. Where none does, none is a minor.
fn some_has_room(sought: &[Sought], rep: &Rep) -> bool
    ensures { IsFalse result → Avoids sought.now rep.now }
{
    for one in sought {
        if leaves_room(rep, one.minor()) {
            return true;
        }
    }
    false
}

/// Whether none of the matroids is a minor.
fn none_found(sought: &[Sought], whole: &Whole) -> bool
    ensures { IsTrue result ↔ Avoids sought.now whole.now }
{
    for one in sought {
        if find_minor(whole, one).is_some() {
            return false;
        }
    }
    true
}

/// Whether the representation has none of the matroids as a minor. For many representations [`Forbidden`] is faster.
pub fn avoids(rep: &Rep, forbidden: &[MinorItem]) -> bool
    requires { Agrees rep.now }
    ensures { IsTrue result ↔ Avoids (matroids_of forbidden.now) rep.now }
{
    for item in forbidden {
        if has_minor(rep, item.minor()).is_some() {
            return false;
        }
    }
    true
}
