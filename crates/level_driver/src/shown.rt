// The forms of a level that are listed.
ghost use Rattle.std.specs.Prelude.{ℕ, map, IfOk};
ghost use Rattle.level_driver.specs.Grown.{IsLevelOf};
ghost use Rattle.level_driver.specs.Listed.{AreListed};

use crate::FormList;
use crate::distinct::lists_where;
use crate::filter::passes_all;
use product_rep::Rep;
use request_reader::Request;
use std::alloc::{AllocError, Global};

/// The forms of a level that pass every filter of the request, in their order.
///
/// # Errors
///
/// `AllocError` where there was no memory for the list, or to compare the forms with each other.
pub fn listed<'a>(
    alloc: Global,
    request: &Request,
    forms: &'a FormList,
) -> Result<Vec<&'a Rep>, AllocError>
    requires { (n : ℕ) × IsLevelOf request.now n forms.now }
    ensures { IfOk result (λ shown. AreListed request.now forms.now (map (λ form. form.now) shown.items)) }
{
    request.laws();
    let filters = request.filters();
    let lists = lists_where(alloc, filters.distinct, forms.as_slice())?;
    let mut shown = Vec::new(alloc);
    for (i, form) in forms.as_slice().iter().enumerate() {
        if passes_all(filters, &lists, form, i) {
            shown.push(form)?;
        }
    }
    Ok(shown)
}
