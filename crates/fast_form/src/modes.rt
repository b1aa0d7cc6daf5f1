// Forms of each mode: the powers of the factors, one factor after another.
ghost use Rattle.std.specs.Prelude.{◌≤◌};
ghost use Rattle.matroid_theory.specs.Rep.{count};
ghost use Rattle.matroid_theory.specs.Matroid.{Agrees};
ghost use Rattle.matroid_theory.specs.Move.{AreEquivalent};
ghost use Rattle.matroid_theory.specs.Order.{IsForm};
ghost use Rattle.matroid_theory.specs.Powers.{IsLeastFrom};

use crate::linear::least_linear;
use matroid_theory::Mode;
use product_rep::{Rep, compare, raised};
use std::cmp::Ordering;

/// The form of the class of a representation whose factors agree: of the standard representations that are equivalent to it by
/// moves of the mode, the one that is not above any other.
pub fn least_form_fast(rep: &Rep, mode: Mode) -> Rep
    requires { Agrees rep.now }
    ensures form { IsForm mode result }
    ensures equivalent { AreEquivalent mode rep.now result }
{
    rep.laws();
    match mode {
        Mode::Linear => least_linear(rep),
        Mode::Semilinear => least_from(rep, 0),
    }
}

/// The least of the standard representations that a representation is taken to by moves whose powers in the factors before this
/// one are 0.
fn least_from(rep: &Rep, factor: usize) -> Rep
    requires agrees { Agrees rep.now }
    requires factor { factor ≤ count rep.now }
    ensures { IsLeastFrom factor rep.now result }
{
    rep.laws();
    let factors = rep.factors();
    if factor == factors.count() {
        return least_linear(rep);
    }
    let field = factors.field(factor);
    field.laws();
    let mut best = least_from(rep, factor + 1);
    for power in 1..field.degree() {
        let other = least_from(&raised(rep, factor, power), factor + 1);
        if compare(&other, &best) == Ordering::Less {
            best = other;
        }
    }
    best
}
