//! Minors of named matroids.
use crate::build::rep_of;
use bases::agree;
use minor_test::has_minor;
use named_matroids::named;
use product_rep::Rep;
use std::test::Fail;

// How many elements are contracted for the matroid of that name; none where it isn't a minor.
fn contracted(rep: &Rep, name: &[u8]) -> Result<Option<u32>, Fail> {
    let Ok(item) = named(name) else {
        return Err("no matroid of that name".into());
    };
    if !agree(rep) {
        return Err("no basis".into());
    }
    Ok(has_minor(rep, item.minor()).map(|found| found.contracted.count_ones()))
}

// The Fano matroid is binary, and without one point it is the cycle matroid of K4.
#[test]
fn minors_of_the_fano_matroid(rt: HostRuntime) -> Result<(), Fail> {
    let rep = rep_of(&[2], 3, &[[1, 1, 0], [1, 0, 1], [0, 1, 1], [1, 1, 1]])?;
    assert_eq!(rt; contracted(&rep, b"F7")?, Some(0));
    assert_eq!(rt; contracted(&rep, b"K4")?, Some(0));
    assert_eq!(rt; contracted(&rep, b"U2,4")?, None);
    Ok(())
}

// A line of four points over GF(3).
#[test]
fn minors_of_a_line(rt: HostRuntime) -> Result<(), Fail> {
    let rep = rep_of(&[3], 2, &[[1, 1], [1, 2]])?;
    assert_eq!(rt; contracted(&rep, b"U2,4")?, Some(0));
    assert_eq!(rt; contracted(&rep, b"U1,3")?, Some(1));
    assert_eq!(rt; contracted(&rep, b"U0,2")?, Some(2));
    assert_eq!(rt; contracted(&rep, b"U0,3")?, None);
    Ok(())
}

// The dual of the Fano matroid, which has K4 where one element is contracted.
#[test]
fn minors_of_a_dual(rt: HostRuntime) -> Result<(), Fail> {
    let rep = rep_of(&[2], 4, &[[0, 1, 1, 1], [1, 0, 1, 1], [1, 1, 0, 1]])?;
    assert_eq!(rt; contracted(&rep, b"F7*")?, Some(0));
    assert_eq!(rt; contracted(&rep, b"K4")?, Some(1));
    assert_eq!(rt; contracted(&rep, b"U0,2")?, Some(4));
    assert_eq!(rt; contracted(&rep, b"F7")?, None);
    Ok(())
}
