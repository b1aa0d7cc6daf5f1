// The level after a level.
ghost use Rattle.std.specs.Prelude.{ℕ, [], ◌≡◌, ◌+◌, ◌<◌, ◌≤◌, IsSome, IsNone, IfSome, IfOk, OnOk};
ghost use Rattle.std.specs.List.{Contains};
ghost use Rattle.matroid_theory.specs.Rep.{Rep as Matrices, size, IsProductColumn};
ghost use Rattle.matroid_theory.specs.Matroid.{Agrees};
ghost use Rattle.matroid_theory.specs.Move.{AreEquivalent};
ghost use Rattle.matroid_theory.specs.Order.{IsForm};
ghost use Rattle.matroid_theory.specs.Level.{IsCount, followed_by};
ghost use Rattle.level_driver.specs.Forbidden.{Avoids};
ghost use Rattle.level_driver.specs.Children.{IsParent, IsCandidate, AddsChildren};
ghost use Rattle.level_driver.specs.Grown.{IsLevelOf, AreTriesOf, IsParentLevel};

use crate::found::Found;
use crate::{Children, Forbidden, FormList, Level};
use extension::Columns;
use fast_form::least_form_fast;
use matroid_theory::Mode;
use product_rep::{ProductColumn, Rep};
use request_reader::Request;
use std::alloc::{AllocError, Global};

/// The level after a level of a request: the forms of all its tries, and the number of these.
///
/// # Errors
///
/// `AllocError` where there was no memory for the forms.
pub fn grow_alone(alloc: Global, request: &Request, parents: &FormList) -> Result<Level, AllocError>
    requires { (n : ℕ) × IsParentLevel request.now n parents.now }
    ensures forms { IfOk result (λ level. (n : ℕ) →
        IsParentLevel request.now n parents.now → IsLevelOf request.now (n + 1) level.forms) }
    ensures tried { IfOk result (λ level. (n : ℕ) →
        IsParentLevel request.now n parents.now → AreTriesOf request.now (n + 1) level.tried) }
{
    request.laws();
    let mode = request.mode();
    let forbidden = Forbidden::of(alloc, request.forbid())?;
    let mut found = Found::new(alloc);
    let mut tried = 0;
    for parent in parents.as_slice() {
        tried += u128::from(add_children(alloc, parent, mode, &forbidden, &mut found)?);
    }
    let size = next_size(request, parents);
    let forms = found.to_list(alloc, &request.factors(), request.rank(), size)?;
    Ok(Level { forms, tried })
}

/// The size of the forms that come after the parents. Where there are no parents there are no such forms, and it is the request's.
pub fn next_size(request: &Request, parents: &FormList) -> u8
    requires { (n : ℕ) × IsParentLevel request.now n parents.now }
    ensures room { request.now.rank ≤ result }
    ensures most { result ≤ 16 }
    ensures next { (P : Matrices) → Contains parents.now P → result ≡ size P + 1 }
    ensures last { parents.now ≡ [] → result ≡ request.now.size }
{
    request.laws();
    match parents.get(0) {
        Some(parent) => parent.size() as u8 + 1,
        None => request.size(),
    }
}

/// Adds the form of the mode of each representation that the parent and one more column make and that has no forbidden minor. The result
/// is the number of the columns.
fn add_children(
    alloc: Global,
    parent: &Rep,
    mode: Mode,
    forbidden: &Forbidden,
    found: &mut Found,
) -> Result<u64, AllocError>
    requires { IsParent parent.now }
    ensures count { IfOk result (λ tried. IsCount (IsCandidate forbidden.now parent.now) tried) }
    ensures forms { OnOk result (AddsChildren mode forbidden.now parent.now found.old found.new) }
{
    parent.laws();
    let mut children = Children::of(alloc, parent, mode, forbidden)?;
    let mut tried = 0;
    for column in Columns::of(parent) {
        if let Some(child) = children.child(&column)? {
            found.insert(alloc, &child)?;
            tried += 1;
        }
    }
    Ok(tried)
}

/// The form of the mode of the class of the parent followed by the column, where that has no forbidden minor, and else none.
pub(crate) fn child(
    parent: &Rep,
    mode: Mode,
    forbidden: &Forbidden,
    column: &ProductColumn,
) -> Option<Rep>
    requires room { size parent.now < 16 }
    requires column { IsProductColumn parent.now.factors parent.now.rank column.now.items }
    requires agrees { Agrees (followed_by parent.now column.now.items) }
    ensures none { IsNone result → ¬ (Avoids forbidden.now (followed_by parent.now column.now.items)) }
    ensures avoids { IsSome result → Avoids forbidden.now (followed_by parent.now column.now.items) }
    ensures form { IfSome result (λ child. IsForm mode child) }
    ensures equivalent { IfSome result (λ child. AreEquivalent mode (followed_by parent.now column.now.items) child) }
{
    let mut candidate = parent.copy();
    candidate.push_column(column);
    if !forbidden.are_avoided_by(&candidate) {
        return None;
    }
    Some(least_form_fast(&candidate, mode))
}
