//! Bases, agreement and simple representations.
use crate::build::{empty_rep, rep_of, unit_rep};
use bases::{BaseList, agree, is_basis, is_simple};
use field_tables::Mask;
use product_rep::Rep;
use std::alloc::Global;
use std::process::Abort;
use std::test::Fail;

/// Compares whether the set of four columns is a basis.
fn compare_basis(rt: &impl Abort, rep: &Rep, set: Mask, want: bool) {
    assert_eq!(rt; rep.size(), 4);
    assert!(rt; set < 16);
    assert_eq!(rt; is_basis(rep, set), want, "at {set}");
}

#[test]
fn bases_of_the_first_factor(rt: HostRuntime) -> Result<(), Fail> {
    let rep = rep_of(&[2], 3, &[[0, 1, 1]])?;
    compare_basis(&rt, &rep, 7, true);
    compare_basis(&rt, &rep, 11, true);
    compare_basis(&rt, &rep, 14, false);
    compare_basis(&rt, &rep, 3, false);
    compare_basis(&rt, &rep, 0, false);
    compare_basis(&rt, &rep, 15, false);
    Ok(())
}

#[test]
fn agreement_of_factors(rt: HostRuntime) -> Result<(), Fail> {
    assert!(rt; !agree(&empty_rep(&[2, 3], 2)?));
    assert!(rt; !agree(&rep_of(&[2, 3], 2, &[[1, 1, 1, 0]])?));
    assert!(rt; agree(&rep_of(&[2, 3], 2, &[[1, 1, 1, 2]])?));
    Ok(())
}

#[test]
fn parallel_columns(rt: HostRuntime) -> Result<(), Fail> {
    assert!(rt; is_simple(&rep_of(&[3], 2, &[[1, 1]])?));
    assert!(rt; !is_simple(&rep_of(&[3], 2, &[[1, 1], [2, 2]])?));
    Ok(())
}

#[test]
fn zero_columns_and_other_factors(rt: HostRuntime) -> Result<(), Fail> {
    assert!(rt; is_simple(&unit_rep(&[3], 2)?));
    assert!(rt; !is_simple(&rep_of(&[3], 2, &[[1, 1], [0, 0]])?));
    assert!(rt; !is_simple(&rep_of(&[2, 3], 2, &[[1, 2, 1, 0]])?));
    Ok(())
}

/// Compares the rank, the first of the bases and how many there are.
fn compare_bases(
    rt: &impl Abort,
    alloc: Global,
    rep: &Rep,
    rank: u8,
    first: Mask,
    count: usize,
) -> Result<(), Fail> {
    let list = BaseList::of(alloc, rep)?;
    assert_eq!(rt; list.rank(), rank, "at {count}");
    assert_eq!(rt; usize::from(list.size()), rep.size(), "at {count}");
    assert_eq!(rt; list.bases().len(), count);
    assert_eq!(rt; list.bases().first(), Some(&first), "at {count}");
    assert!(rt; list.bases().is_sorted(), "at {count}");
    Ok(())
}

// The bases of the Fano plane are the triples of its 7 points but for its 7 lines, those of K4 the triples of its 6 edges
// but for its 4 triangles, and those of a line of four points all its pairs.
#[test]
fn lists_of_bases(rt: HostRuntime) -> Result<(), Fail> {
    let alloc = rt.alloc();
    let plane = rep_of(&[2], 3, &[[1, 1, 0], [1, 0, 1], [0, 1, 1], [1, 1, 1]])?;
    compare_bases(&rt, alloc, &plane, 3, 7, 28)?;
    let graph = rep_of(&[2], 3, &[[0, 1, 1], [1, 0, 1], [1, 1, 0]])?;
    compare_bases(&rt, alloc, &graph, 3, 7, 16)?;
    let line = rep_of(&[3], 2, &[[1, 1], [1, 2]])?;
    compare_bases(&rt, alloc, &line, 2, 3, 6)
}
