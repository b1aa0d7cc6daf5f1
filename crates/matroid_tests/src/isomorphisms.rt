//! Isomorphisms of lists of bases.
use crate::build::{empty_rep, push_codes, rep_of};
use base_iso::isomorphism;
use bases::BaseList;
use product_rep::{Mode, Move, Rep, act};
use std::alloc::Global;
use std::process::Abort;
use std::test::Fail;

/// The bases of the unit columns over this field and then these columns.
fn bases_with<const N: usize>(
    alloc: Global,
    order: u8,
    rank: u8,
    columns: &[[u8; N]],
) -> Result<BaseList, Fail> {
    Ok(BaseList::of(alloc, &rep_of(&[order], rank, columns)?)?)
}

#[test]
fn lines_of_four_points(rt: HostRuntime) -> Result<(), Fail> {
    let alloc = rt.alloc();
    let a = bases_with(alloc, 7, 2, &[[1, 1], [1, 2]])?;
    let b = bases_with(alloc, 7, 2, &[[1, 1], [1, 3]])?;
    assert!(rt; isomorphism(&a, &b).is_some());
    Ok(())
}

// Three points on a line and one beside it.
fn line_and_point(alloc: Global) -> Result<BaseList, Fail> {
    bases_with(alloc, 2, 3, &[[0, 1, 1]])
}

#[test]
fn no_three_points_on_a_line(rt: HostRuntime) -> Result<(), Fail> {
    let alloc = rt.alloc();
    let a = line_and_point(alloc)?;
    let b = bases_with(alloc, 2, 3, &[[1, 1, 1]])?;
    assert!(rt; isomorphism(&a, &b).is_none());
    assert!(rt; isomorphism(&b, &a).is_none());
    Ok(())
}

// The point beside the line is the last of the list.
fn line_before_point(alloc: Global) -> Result<BaseList, Fail> {
    let mut rep = empty_rep(&[2], 3)?;
    push_codes(&mut rep, &[0, 1, 1])?;
    push_codes(&mut rep, &[0, 0, 1])?;
    push_codes(&mut rep, &[0, 1, 0])?;
    push_codes(&mut rep, &[1, 0, 0])?;
    Ok(BaseList::of(alloc, &rep)?)
}

#[test]
fn points_in_another_order(rt: HostRuntime) -> Result<(), Fail> {
    let alloc = rt.alloc();
    let a = line_and_point(alloc)?;
    let b = line_before_point(alloc)?;
    let labels = isomorphism(&a, &b).ok_or("no isomorphism")?;
    assert_eq!(rt; labels.as_slice().first(), Some(&3));
    Ok(())
}

// The Fano matroid has 28 bases and the other 29.
#[test]
fn seven_points_over_two_fields(rt: HostRuntime) -> Result<(), Fail> {
    let alloc = rt.alloc();
    let a = bases_with(alloc, 2, 3, &[[1, 1, 0], [1, 0, 1], [0, 1, 1], [1, 1, 1]])?;
    let b = bases_with(alloc, 3, 3, &[[1, 1, 0], [1, 0, 1], [0, 1, 1], [1, 1, 1]])?;
    assert!(rt; isomorphism(&a, &a).is_some());
    assert!(rt; isomorphism(&a, &b).is_none());
    Ok(())
}

// The five columns in another order: column `j` of the image is column `(a * j + s) % 5`.
fn relabelled(rep: &Rep, a: usize, s: usize) -> Option<Rep> {
    if rep.size() != 5 || a > 4 || s > 4 {
        return None;
    }
    let mut step = Move::identity(rep);
    step.set_label(0, s % 5);
    step.set_label(1, (a + s) % 5);
    step.set_label(2, (a * 2 + s) % 5);
    step.set_label(3, (a * 3 + s) % 5);
    step.set_label(4, (a * 4 + s) % 5);
    if step.valid(rep, Mode::Semilinear) {
        Some(act(rep, &step))
    } else {
        None
    }
}

/// Finds an isomorphism to the list of the columns in this other order.
fn find_relabelled(
    rt: &impl Abort,
    alloc: Global,
    rep: &Rep,
    a: usize,
    s: usize,
) -> Result<(), Fail> {
    let list = BaseList::of(alloc, rep)?;
    let image = relabelled(rep, a, s).ok_or("no move")?;
    let other = BaseList::of(alloc, &image)?;
    let labels = isomorphism(&list, &other).ok_or("no isomorphism")?;
    assert_eq!(rt; labels.len(), 5);
    Ok(())
}

#[test]
fn relabelled_twenty_times(rt: HostRuntime) -> Result<(), Fail> {
    let rep = rep_of(&[2], 3, &[[0, 1, 1], [1, 0, 1]])?;
    for a in 1..5 {
        for s in 0..5 {
            find_relabelled(&rt, rt.alloc(), &rep, a, s)?;
        }
    }
    Ok(())
}
