//! Both searches for a form, the plain one and the fast one, side by side on every try.
ghost use Rattle.std.specs.Prelude.{ℕ};
ghost use Rattle.matroid_theory.specs.Rep.{IsProductColumn};
ghost use Rattle.matroid_theory.specs.Matroid.{Agrees};
ghost use Rattle.matroid_theory.specs.Level.{followed_by};
ghost use Rattle.level_driver.specs.Children.{IsParent};
ghost use Rattle.level_driver.specs.Grown.{IsParentLevel};

use crate::orderly_levels::have_same_columns;
use bases::agree;
use canonical_form::least_form;
use extension::Columns;
use fast_form::least_form_fast;
use level_driver::{FormList, first_level};
use matroid_theory::Mode;
use orderly::next_level;
use product_rep::{ProductColumn, Rep};
use request_reader::{Request, read_request};
use std::alloc::Global;
use std::process::Abort;
use std::test::Fail;

#[test]
fn both_searches_on_every_try(rt: HostRuntime) -> Result<(), Fail> {
    let alloc = rt.alloc();
    compare_on_every_try(&rt, alloc, "rank 3\nfield 2 x 3\nsize 7\n")?;
    compare_on_every_try(&rt, alloc, "rank 2\nfield 7\nsize 8\n")?;
    compare_on_every_try(&rt, alloc, "rank 3\nfield 3\nsize 5\n")?;
    compare_on_every_try(&rt, alloc, "rank 2\nfield 4 x 4\nsize 5\n")?;
    compare_on_every_try(
        &rt,
        alloc,
        "rank 2\nfield 4 x 4\nsize 5\nequivalence semilinear\n",
    )
}

// Grows the levels of a request. On each try both searches find the same form, and no try is passed over; so they do of each
// parent with its columns in the other order, which most often don't begin with the unit columns.
fn compare_on_every_try(rt: &impl Abort, alloc: Global, text: &str) -> Result<(), Fail> {
    let request = read_request(text.as_bytes()).ok().ok_or("refused")?;
    let mut level = first_level(alloc, &request)?;
    for _ in request.rank()..request.size() {
        let compared = compare_after(rt, &request, &level.forms);
        level = next_level(alloc, &request, &level.forms)?;
        assert_eq!(rt; u128::from(compared), level.tried);
    }
    Ok(())
}

// Compares both forms of each of the parents reversed, and followed by each of its columns. The result is how many the latter are.
fn compare_after(rt: &impl Abort, request: &Request, parents: &FormList) -> u32
    requires { (n : ℕ) × IsParentLevel request.now n parents.now }
{
    request.laws();
    let mut compared = 0u32;
    for i in 0..parents.len() {
        if let Some(parent) = parents.get(i) {
            assert!(rt; are_alike_reversed(parent, request.mode()));
            compared = compared.wrapping_add(compare_children(rt, parent, request.mode()));
        }
    }
    compared
}

// Compares both forms of a parent followed by each of its columns. The result is how many columns these are.
fn compare_children(rt: &impl Abort, parent: &Rep, mode: Mode) -> u32
    requires { IsParent parent.now }
{
    let mut compared = 0u32;
    for column in Columns::of(parent) {
        assert!(rt; are_alike(parent, &column, mode));
        compared = compared.wrapping_add(1);
    }
    compared
}

// Whether both searches find the same form of the parent followed by the column.
fn are_alike(parent: &Rep, column: &ProductColumn, mode: Mode) -> bool
    requires parent { IsParent parent.now }
    requires column { IsProductColumn parent.now.factors parent.now.rank column.now.items }
    requires agrees { Agrees (followed_by parent.now column.now.items) }
{
    let mut child = parent.copy();
    child.push_column(column);
    have_same_columns(&least_form(&child, mode), &least_form_fast(&child, mode))
}

// Whether both searches find the same form of the columns in the other order.
fn are_alike_reversed(rep: &Rep, mode: Mode) -> bool {
    let reversed = reversed(rep);
    agree(&reversed)
        && have_same_columns(
            &least_form(&reversed, mode),
            &least_form_fast(&reversed, mode),
        )
}

// The representation with its columns in the other order.
fn reversed(rep: &Rep) -> Rep {
    rep.laws();
    let size = rep.size();
    let mut reversed = Rep::empty(rep.factors(), rep.rank() as u8);
    for j in 0..size {
        reversed.push_column(&rep.column(size - 1 - j));
    }
    reversed
}
