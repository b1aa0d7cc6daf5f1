// The dual form of the dual form of a form is that form, for each form of some levels.
use crate::answers::{is_answered, line_for, listing};
use std::alloc::Global;
use std::process::Abort;
use std::test::Fail;

// The dual form of the dual form of this form over the field is the form.
fn is_dual_of_dual(rt: &impl Abort, alloc: Global, field: &str, form: &str) -> Result<(), Fail> {
    let dual = line_for(rt, alloc, &format!(in alloc; "dual {field} {form}")?)?;
    let words = format!(in alloc; "dual {field} {dual}")?;
    is_answered(rt, alloc, &words, form)
}

// Whether a line of a listing is a form that has a dual form: the unit form has none, since a dual form has a row.
fn has_dual(line: &str) -> bool {
    line.starts_with('1') && !line.ends_with("0 001") && !line.ends_with("0 01")
}

// So it is for each form that the request lists.
fn are_duals_of_duals(
    rt: &impl Abort,
    alloc: Global,
    field: &str,
    request: &[u8],
) -> Result<(), Fail> {
    let held = listing(alloc, request)?;
    let text = str::from_utf8(&held).ok().ok_or("not a text")?;
    let mut is_tried = false;
    for line in text.lines() {
        if has_dual(line) {
            is_dual_of_dual(rt, alloc, field, line)?;
            is_tried = true;
        }
    }
    assert!(rt; is_tried, "at {field:?}");
    Ok(())
}

#[test]
fn dual_forms_of_dual_forms(rt: HostRuntime) -> Result<(), Fail> {
    let alloc = rt.alloc();
    are_duals_of_duals(&rt, alloc, "3", b"field 3\nrank 3\nsize 6\n")?;
    are_duals_of_duals(&rt, alloc, "4", b"field 4\nrank 2\nsize 5\n")?;
    are_duals_of_duals(&rt, alloc, "2 x 3", b"field 2 x 3\nrank 3\nsize 6\n")
}
