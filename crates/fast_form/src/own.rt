// Which representations are forms of a mode: the powers of the factors, one factor after another, up to the first lower one.
ghost use Rattle.std.specs.Prelude.{◌≡◌, ◌≢◌, ◌≤◌, ◌↔◌, IsTrue, true};
ghost use Rattle.std.specs.declared.cmp.Ordering.TheVariants.{Greater};
ghost use Rattle.matroid_theory.specs.Rep.{shape, count, IsStandard};
ghost use Rattle.matroid_theory.specs.Matroid.{Agrees};
ghost use Rattle.matroid_theory.specs.Order.{IsForm};
ghost use Rattle.fast_form.specs.NotAbove.{IsNotAboveClass, IsNotAboveFrom};

use crate::form::least_of_standard;
use crate::linear::{is_least, is_standard};
use matroid_theory::Mode;
use product_rep::{Rep, compare, raised};
use std::cmp::Ordering;

/// Whether a representation whose factors agree is the form of its class by moves of the mode. It ends as soon as it meets
/// anything lower.
pub fn is_form_fast(rep: &Rep, mode: Mode) -> bool
    requires { Agrees rep.now }
    ensures { IsTrue result ↔ IsForm mode rep.now }
{
    rep.laws();
    if !is_standard(rep) {
        return false;
    }
    match mode {
        Mode::Linear => is_least(rep),
        Mode::Semilinear => is_least_from(rep, rep, 0),
    }
}

/// Whether a representation is not above any standard one that another is taken to by moves whose powers in the factors before
/// this one are 0.
fn is_least_from(least: &Rep, rep: &Rep, factor: usize) -> bool
    requires agrees { Agrees rep.now }
    requires standard { IsStandard rep.now }
    requires shape { shape least.now ≡ shape rep.now }
    requires factor { factor ≤ count rep.now }
    ensures { (result ≡ true) ↔ IsNotAboveFrom factor least.now rep.now }
{
    rep.laws();
    let factors = rep.factors();
    if factor == factors.count() {
        return is_least_of(least, rep);
    }
    let field = factors.field(factor);
    field.laws();
    for power in 0..field.degree() {
        if !is_least_from(least, &raised(rep, factor, power), factor + 1) {
            return false;
        }
    }
    true
}

/// Whether a representation is not above any standard one that another is taken to by linear moves. The other is one of these,
/// so most often no search is needed.
fn is_least_of(least: &Rep, rep: &Rep) -> bool
    requires agrees { Agrees rep.now }
    requires standard { IsStandard rep.now }
    requires shape { shape least.now ≡ shape rep.now }
    ensures { (result ≡ true) ↔ IsNotAboveClass least.now rep.now }
{
    rep.laws();
    match compare(least, rep) {
        Ordering::Less => is_at_most(compare(least, &least_of_standard(rep))),
        Ordering::Equal => is_least(rep),
        Ordering::Greater => false,
    }
}

/// Whether the order isn't that of a greater one.
fn is_at_most(order: Ordering) -> bool
    ensures { (result ≡ true) ↔ (order ≢ Greater) }
{
    order != Ordering::Greater
}
