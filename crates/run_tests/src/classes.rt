// Which of the simple ternary matroids of rank 3, of three to seven elements, have a matrix over which field.
//
// There are 1, 2, 3, 4 and 4 of them. Those over GF(2) too are regular: none of seven elements, since the Fano matroid isn't ternary
// (Tutte). The excluded minors of the near-regular matroids, which have matrices over each field but GF(2), are known (Hall, Mayhew
// and van Zwam): of those that are ternary, of rank 3 and of at most seven elements, there is the non-Fano matroid alone. It has a
// matrix over each field of odd characteristic and none over GF(4) and GF(8).
use crate::answers::{is_answered, line_for, listing};
use std::alloc::Global;
use std::process::Abort;
use std::test::Fail;

// The matrices over the field of this order for the forms of so many columns.
fn matrices_over(
    rt: &impl Abort,
    alloc: Global,
    order: u8,
    forms: &str,
    size: usize,
) -> Result<Vec<String>, Fail> {
    let mut matrices = Vec::new(alloc);
    for form in forms.lines() {
        if form.starts_with('1') && form.split(' ').count() == size {
            let words = format!(in alloc; "over {order} form 3 {form}")?;
            let line = line_for(rt, alloc, &words)?;
            if line.as_str() != "none" {
                matrices.push(line)?;
            }
        }
    }
    Ok(matrices)
}

// For each order of a field, how many of the matroids of each size have a matrix over it.
fn numbers() -> [(u8, [usize; 5]); 9] {
    [
        (2, [1, 2, 1, 1, 0]),
        (3, [1, 2, 3, 4, 4]),
        (4, [1, 2, 3, 4, 3]),
        (5, [1, 2, 3, 4, 4]),
        (7, [1, 2, 3, 4, 4]),
        (8, [1, 2, 3, 4, 3]),
        (9, [1, 2, 3, 4, 4]),
        (11, [1, 2, 3, 4, 4]),
        (13, [1, 2, 3, 4, 4]),
    ]
}

// So many of the forms have a matrix over the field of this order.
fn has_so_many(
    rt: &impl Abort,
    alloc: Global,
    order: u8,
    forms: &str,
    numbers: [usize; 5],
) -> Result<(), Fail> {
    for (size, number) in (3..8).zip(numbers) {
        let matrices = matrices_over(rt, alloc, order, forms, size)?;
        assert_eq!(rt; matrices.len(), number, "over {order} at size {size}");
    }
    Ok(())
}

#[test]
fn ternary_matroids_over_other_fields(rt: HostRuntime) -> Result<(), Fail> {
    let alloc = rt.alloc();
    let held = listing(alloc, b"field 3\nrank 3\nsize 7\n")?;
    let forms = str::from_utf8(&held).ok().ok_or("not a text")?;
    for (order, numbers) in numbers() {
        has_so_many(&rt, alloc, order, forms, numbers)?;
    }
    Ok(())
}

// A ternary matroid has one representation over GF(3) up to row operations and scalars (Brylawski and Lucas), so the least standard
// matrix of the matroid of a form is that form.
#[test]
fn forms_over_their_own_field(rt: HostRuntime) -> Result<(), Fail> {
    let alloc = rt.alloc();
    let held = listing(alloc, b"field 3\nrank 3\nsize 7\n")?;
    let forms = str::from_utf8(&held).ok().ok_or("not a text")?;
    let mut is_tried = false;
    for form in forms.lines() {
        if form.starts_with('1') {
            let words = format!(in alloc; "over 3 form 3 {form}")?;
            is_answered(&rt, alloc, &words, form)?;
            is_tried = true;
        }
    }
    assert!(rt; is_tried);
    Ok(())
}
