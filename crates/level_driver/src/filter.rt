// Whether a form of a level is listed.
ghost use Rattle.std.specs.Prelude.{ℕ, ◌<◌, ◌↔◌, length, IfOk, OnErr, IsTrue, IfSome};
ghost use Rattle.matroid_theory.specs.Matroid.{Agrees};
ghost use Rattle.matroid_theory.specs.Minor.{IsMinor};
ghost use Rattle.matroid_theory.specs.Connection.{IsConnected, Is3Connected, IsCosimple};
ghost use Rattle.level_driver.specs.Grown.{IsLevelOf, TellsPassing};
ghost use Rattle.level_driver.specs.Listed.{PassesAlone, IsFirst};
ghost use Rattle.level_driver.specs.Asked.{filters_of};

use crate::FormList;
use crate::distinct::{base_lists, is_first};
use base_iso::Counted;
use connectivity::{connected, cosimple, three_connected};
use minor_test::has_minor;
use named_matroids::Minor;
use product_rep::Rep;
use request_reader::{Filters, Request};
use std::alloc::{AllocError, Global};

/// Whether form `i` of a level is listed: whether it passes every filter of the request.
///
/// # Errors
///
/// `AllocError` where there was no memory to compare the form with the forms before it. Only a request that lists each matroid
/// once asks for that.
pub fn passes(
    alloc: Global,
    request: &Request,
    forms: &FormList,
    i: usize,
) -> Result<bool, AllocError>
    requires level { (n : ℕ) × IsLevelOf request.now n forms.now }
    requires index { i < length forms.now }
    ensures listed { IfOk result (λ listed. TellsPassing request.now forms.now i listed) }
    ensures no_memory { OnErr result (IsTrue request.now.distinct) }
{
    request.laws();
    let filters = request.filters();
    let forms = forms.as_slice();
    if !passes_alone(filters, &forms[i]) {
        return Ok(false);
    }
    if !filters.distinct {
        return Ok(true);
    }
    let lists = base_lists(alloc, &forms[..=i])?;
    Ok(is_first(&lists, i))
}

/// Whether the form passes every filter. Where forms are compared, the lists have the bases of the forms.
pub fn passes_all(filters: &Filters, lists: &[Counted], form: &Rep, i: usize) -> bool
    requires agrees { Agrees form.now }
    requires index { IsTrue filters.now.distinct → i < length lists.now }
    ensures { IsTrue result ↔ (PassesAlone (filters_of filters.now) form.now × (IsTrue filters.now.distinct → IsFirst lists.now i)) }
{
    passes_alone(filters, form) && (!filters.distinct || is_first(lists, i))
}

/// Whether the form passes the filters that look at it alone.
pub fn passes_alone(filters: &Filters, form: &Rep) -> bool
    requires { Agrees form.now }
    ensures { IsTrue result ↔ PassesAlone (filters_of filters.now) form.now }
{
    connected_where(filters.connected, form)
        && cosimple_where(filters.cosimple, form)
        && three_connected_where(filters.three, form)
        && has_wanted(filters, form)
}

/// Whether the form is connected, where that is asked.
fn connected_where(asked: bool, form: &Rep) -> bool
    requires { Agrees form.now }
    ensures { IsTrue result ↔ (IsTrue asked → IsConnected form.now) }
{
    !asked || connected(form)
}

/// Whether the form is 3-connected, where that is asked.
fn three_connected_where(asked: bool, form: &Rep) -> bool
    requires { Agrees form.now }
    ensures { IsTrue result ↔ (IsTrue asked → Is3Connected form.now) }
{
    !asked || three_connected(form)
}

/// Whether the form is cosimple, where that is asked.
fn cosimple_where(asked: bool, form: &Rep) -> bool
    requires { Agrees form.now }
    ensures { IsTrue result ↔ (IsTrue asked → IsCosimple form.now) }
{
    !asked || cosimple(form)
}

/// Whether the form has the minor that is asked for, if one is.
fn has_wanted(filters: &Filters, form: &Rep) -> bool
    requires { Agrees form.now }
    ensures { IsTrue result ↔ IfSome (filters_of filters.now).has (λ N. IsMinor N form.now) }
{
    match &filters.has {
        Some(item) => has(form, item.minor()),
        None => true,
    }
}

/// Whether the matroid is a minor of the form's.
fn has(form: &Rep, minor: &Minor) -> bool
    requires { Agrees form.now }
    ensures { IsTrue result ↔ IsMinor minor.now form.now }
{
    has_minor(form, minor).is_some()
}
