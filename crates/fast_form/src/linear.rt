// Forms of representations that need not be standard, and which representations are forms, by linear moves.
ghost use Rattle.std.specs.Prelude.{◌≡◌, ◌<◌, ◌↔◌, true};
ghost use Rattle.std.specs.declared.cmp.Ordering.TheVariants.{Equal};
ghost use Rattle.matroid_theory.specs.declared.Mode.TheVariants.{Linear as linear};
ghost use Rattle.matroid_theory.specs.Rep.{IsStandard};
ghost use Rattle.matroid_theory.specs.Matroid.{Agrees};
ghost use Rattle.matroid_theory.specs.Move.{AreEquivalent};
ghost use Rattle.matroid_theory.specs.Order.{IsForm};

use crate::form::{decided, least_of_standard};
use canonical_form::some_standard;
use product_rep::{ProductColumn, Rep, compare};
use std::cmp::Ordering;

/// The form of the class of a representation whose factors agree: of the standard representations that are equivalent to it by
/// linear moves, the one that is not above any other. The search begins with a standard representation: this one, or some other
/// of its class.
pub fn least_linear(rep: &Rep) -> Rep
    requires { Agrees rep.now }
    ensures form { IsForm linear result }
    ensures equivalent { AreEquivalent linear rep.now result }
{
    if is_standard(rep) {
        least_of_standard(rep)
    } else {
        least_of_standard(&some_standard(rep))
    }
}

/// Whether a standard representation whose factors agree is the form of its class by linear moves.
pub fn is_least(rep: &Rep) -> bool
    requires agrees { Agrees rep.now }
    requires standard { IsStandard rep.now }
    ensures { (result ≡ true) ↔ IsForm linear rep.now }
{
    match decided(rep) {
        Some(verdict) => verdict,
        None => is_same(rep, &least_of_standard(rep)),
    }
}

/// Whether a representation is the form of its class.
fn is_same(rep: &Rep, form: &Rep) -> bool
    requires form { IsForm linear form.now }
    requires equivalent { AreEquivalent linear rep.now form.now }
    ensures { (result ≡ true) ↔ IsForm linear rep.now }
{
    is_equal(compare(rep, form))
}

/// Whether the order is that of equals.
fn is_equal(order: Ordering) -> bool
    ensures { (result ≡ true) ↔ (order ≡ Equal) }
{
    order == Ordering::Equal
}

/// Whether the representation is standard: it begins with the unit columns.
pub fn is_standard(rep: &Rep) -> bool
    ensures { (result ≡ true) ↔ IsStandard rep.now }
{
    rep.laws();
    let unit = Rep::unit(rep.factors(), rep.rank() as u8);
    unit.laws();
    if rep.size() < unit.size() {
        return false;
    }
    for j in 0..unit.size() {
        if !same_columns(&rep.column(j), &unit.column(j)) {
            return false;
        }
    }
    true
}

/// Whether the columns have the same codes.
fn same_columns(a: &ProductColumn, b: &ProductColumn) -> bool
    ensures { (result ≡ true) ↔ (a.now.items ≡ b.now.items) }
{
    a.as_slice() == b.as_slice()
}
