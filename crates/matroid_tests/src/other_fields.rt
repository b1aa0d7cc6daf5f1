//! Representations over another field.
ghost use Rattle.std.specs.Prelude.{◌≤◌, ◌<◌, ◌-◌, ◌^◌, ◌↔◌, IsTrue};
ghost use Rattle.std.specs.List.{Contains};

use crate::build::rep_of;
use bases::agree;
use canonical_form::least_form;
use field_tables::Field;
use lister::form_text;
use named_matroids::{Minor, named};
use product_rep::{Mode, Rep};
use represent::{represent, represent_minor};
use std::process::Abort;
use std::test::Fail;

/// Whether the first elements are a base.
fn begins_with_base(minor: &Minor) -> bool
    requires { minor.now.rank ≤ 6 }
    ensures { IsTrue result ↔ Contains minor.now.bases (2 ^ minor.now.rank - 1) }
{
    minor.bases().contains(&((1 << minor.rank()) - 1))
}

/// The least matrix over the field of this order for the matroid of that name.
fn named_over(order: u8, name: &[u8]) -> Result<Option<Rep>, Fail> {
    let Ok(item) = named(name) else {
        return Err("no matroid of that name".into());
    };
    let Some(field) = Field::of(order) else {
        return Err("no field of that order".into());
    };
    let minor = item.minor();
    if minor.rank() < 1 || minor.rank() > 6 || !begins_with_base(minor) {
        return Err("no base to begin with".into());
    }
    Ok(represent_minor(minor, field))
}

/// Compares the matrix over the field of this order for the matroid of that name.
fn compare_matrix(rt: &impl Abort, order: u8, name: &[u8], line: &[u8]) -> Result<(), Fail> {
    let rep = named_over(order, name)?.ok_or("no matrix")?;
    assert_eq!(rt; form_text(&rep).as_slice(), line);
    Ok(())
}

// Lines of as many points as a field has and one more, and the Fano and the non-Fano matroid, which have matrices over the
// fields of characteristic 2 and over all others (Oxley, chapter 6).
#[test]
fn names_with_a_matrix(rt: HostRuntime) -> Result<(), Fail> {
    compare_matrix(&rt, 3, b"U2,4", b"10 01 11 12\n")?;
    compare_matrix(&rt, 4, b"F7", b"100 010 001 011 101 110 111\n")?;
    compare_matrix(&rt, 5, b"F7-", b"100 010 001 011 101 110 111\n")?;
    compare_matrix(&rt, 7, b"U2,8", b"10 01 11 12 13 14 15 16\n")
}

#[test]
fn names_without_a_matrix(rt: HostRuntime) -> Result<(), Fail> {
    assert!(rt; named_over(2, b"U2,4")?.is_none());
    assert!(rt; named_over(3, b"F7")?.is_none());
    assert!(rt; named_over(2, b"F7-")?.is_none());
    assert!(rt; named_over(5, b"U2,7")?.is_none());
    Ok(())
}

/// The least matrix over the field of this order for the matroid of the representation.
fn represented_over(order: u8, rep: &Rep) -> Result<Rep, Fail> {
    if !agree(rep) {
        return Err("no basis".into());
    }
    let form = least_form(rep, Mode::Linear);
    let field = Field::of(order).ok_or("no field")?;
    if !agree(&form) {
        return Err("no basis".into());
    }
    Ok(represent(&form, field).ok_or("no matrix")?)
}

// The cycle matroid of K4 by a matrix over GF(2), and then over GF(3).
#[test]
fn form_over_another_field(rt: HostRuntime) -> Result<(), Fail> {
    let rep = rep_of(&[2], 3, &[[0, 1, 1], [1, 0, 1], [1, 1, 0]])?;
    let ternary = represented_over(3, &rep)?;
    assert_eq!(rt;
        form_text(&ternary).as_slice(),
        b"100 010 001 011 101 120\n".as_slice()
    );
    Ok(())
}
