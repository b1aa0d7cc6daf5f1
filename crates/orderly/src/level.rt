// The level after a level.
ghost use Rattle.std.specs.Prelude.{ℕ, ◌+◌, ◌≡◌, ◌↔◌, IsTrue, IfOk, OnOk};
ghost use Rattle.matroid_theory.specs.Order.{IsForm};
ghost use Rattle.matroid_theory.specs.Level.{IsCount, followed_by};
ghost use Rattle.extension.specs.Admissible.{IsAdmissible};
ghost use Rattle.level_driver.specs.Children.{IsParent, IsCandidate};
ghost use Rattle.level_driver.specs.Grown.{IsLevelOf, AreTriesOf, IsParentLevel};
ghost use Rattle.orderly.specs.Kept.{AddsKept, KeepsOwnForm};

use crate::keep::{candidate, is_kept};
use crate::refusal::Refusal;
use extension::Columns;
use level_driver::{Forbidden, FormList, Level};
use matroid_theory::Mode;
use product_rep::{ProductColumn, Rep};
use request_reader::Request;
use std::alloc::{AllocError, Global};

/// The level after a level of a request: the candidates that are their own forms, in the order in which they come, and the number
/// of all tries. It is the same level as that of `grow_alone`.
///
/// # Errors
///
/// `AllocError` where there was no memory for the forms or for what is forbidden.
pub fn next_level(alloc: Global, request: &Request, parents: &FormList) -> Result<Level, AllocError>
    requires { (n : ℕ) × IsParentLevel request.now n parents.now }
    ensures forms { IfOk result (λ level. (n : ℕ) →
        IsParentLevel request.now n parents.now → IsLevelOf request.now (n + 1) level.forms) }
    ensures tried { IfOk result (λ level. (n : ℕ) →
        IsParentLevel request.now n parents.now → AreTriesOf request.now (n + 1) level.tried) }
{
    request.laws();
    let mode = request.mode();
    let forbidden = Forbidden::of(alloc, request.forbid())?;
    let mut forms = FormList::new(alloc);
    let mut tried = 0;
    for i in 0..parents.len() {
        let Some(parent) = parents.get(i) else {
            unreachable!()
        };
        tried += u128::from(keep_children(alloc, parent, mode, &forbidden, &mut forms)?);
    }
    Ok(Level { forms, tried })
}

/// Adds at the end each representation that the parent and one more column make, has none of these minors and is its own form.
/// The result is the number of those without these minors.
fn keep_children(
    alloc: Global,
    parent: &Rep,
    mode: Mode,
    forbidden: &Forbidden,
    forms: &mut FormList,
) -> Result<u64, AllocError>
    requires { IsParent parent.now }
    ensures count { IfOk result (λ tried. IsCount (IsCandidate forbidden.now parent.now) tried) }
    ensures forms { OnOk result (AddsKept mode forbidden.now parent.now forms.old forms.new) }
{
    parent.laws();
    let mut refusal = Refusal::of(parent, mode);
    let mut tried = 0;
    for column in Columns::of(parent) {
        if let Some(child) = candidate(parent, forbidden, &column) {
            keep(alloc, child, &column, &mut refusal, forms)?;
            tried += 1;
        }
    }
    Ok(tried)
}

/// Adds the child that the parent and the column make at the end, where it is its own form.
fn keep(
    alloc: Global,
    child: Rep,
    column: &ProductColumn,
    refusal: &mut Refusal,
    forms: &mut FormList,
) -> Result<(), AllocError>
    requires parent { IsParent refusal.old.parent }
    requires column { IsAdmissible refusal.old.parent column.now.items }
    requires child { child ≡ followed_by refusal.old.parent column.now.items }
    ensures refusal { refusal.new ≡ refusal.old }
    ensures forms { OnOk result (KeepsOwnForm refusal.old.mode child forms.old forms.new) }
{
    if !is_own_form(alloc, &child, column, refusal)? {
        return Ok(());
    }
    match forms.push(child) {
        Ok(()) => Ok(()),
        Err((error, _)) => Err(error),
    }
}

/// Whether the child that the parent and the column make is its own form: where that isn't refused at once, the test decides.
fn is_own_form(
    alloc: Global,
    child: &Rep,
    column: &ProductColumn,
    refusal: &mut Refusal,
) -> Result<bool, AllocError>
    requires parent { IsParent refusal.old.parent }
    requires column { IsAdmissible refusal.old.parent column.now.items }
    requires child { child.now ≡ followed_by refusal.old.parent column.now.items }
    ensures refusal { refusal.new ≡ refusal.old }
    ensures own { IfOk result (λ own. IsTrue own ↔ IsForm refusal.old.mode child.now) }
{
    if refusal.refuses(alloc, column)? {
        return Ok(false);
    }
    Ok(is_kept(child, refusal.mode()))
}
