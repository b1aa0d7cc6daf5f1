// Which forms have the matroid of an earlier one.
ghost use Rattle.std.specs.Prelude.{◌<◌, ◌↔◌, length, IfOk, IsTrue};
ghost use Rattle.matroid_theory.specs.Minor.{IsMatroidOf};
ghost use Rattle.level_driver.specs.Listed.{AreMatroidsOf, AreIsomorphic, IsFirst};

use base_iso::{Counted, isomorphism_of};
use bases::BaseList;
use product_rep::Rep;
use std::alloc::{AllocError, Global};

/// The bases of each form, counted.
pub fn base_lists(alloc: Global, forms: &[Rep]) -> Result<Vec<Counted>, AllocError>
    ensures { IfOk result (λ lists. AreMatroidsOf forms.now lists.items) }
{
    let mut lists = Vec::new(alloc);
    for form in forms {
        lists.push(base_list(alloc, form)?)?;
    }
    Ok(lists)
}

/// The bases of a form, counted.
fn base_list(alloc: Global, form: &Rep) -> Result<Counted, AllocError>
    ensures { IfOk result (λ list. IsMatroidOf form.now list) }
{
    Ok(Counted::of(BaseList::of(alloc, form)?))
}

/// The bases of each form, counted, where forms are compared.
pub fn lists_where(alloc: Global, compared: bool, forms: &[Rep]) -> Result<Vec<Counted>, AllocError>
    ensures { IfOk result (λ lists. IsTrue compared → AreMatroidsOf forms.now lists.items) }
{
    if compared {
        base_lists(alloc, forms)
    } else {
        Ok(Vec::new(alloc))
    }
}

/// Whether no matroid before matroid `i` is isomorphic to it.
pub fn is_first(lists: &[Counted], i: usize) -> bool
    requires { i < length lists.now }
    ensures { IsTrue result ↔ IsFirst lists.now i }
{
    let list = &lists[i];
    for earlier in &lists[..i] {
        if are_isomorphic(earlier, list) {
            return false;
        }
    }
    true
}

/// Whether a relabelling carries the bases of the one matroid exactly to those of the other.
fn are_isomorphic(a: &Counted, b: &Counted) -> bool
    ensures { IsTrue result ↔ AreIsomorphic a.now b.now }
{
    isomorphism_of(a, b).is_some()
}
