//! Moves of representations.
ghost use Rattle.std.specs.Prelude.{◌≡◌, ◌<◌, length, slice_index, IfSome, IsTrue};
ghost use Rattle.matroid_theory.specs.Rep.{shape, size};

use crate::build::{has_column, rep_of, unit_rep};
use crate::representations::order_of;
use product_rep::{Mode, Move, Rep, act, raised};
use std::cmp::Ordering;
use std::process::Abort;
use std::test::Fail;

/// What the move makes of the representation, if it is a move for it.
fn moved(rep: &Rep, step: &Move) -> Option<Rep> {
    if step.valid(rep, Mode::Semilinear) {
        Some(act(rep, step))
    } else {
        None
    }
}

/// The move that adds so many times the third row to the first in the second factor, scales the last column there by 2, and
/// exchanges the first two columns, for four columns of rank 3 over two fields with the code 2 in the second.
fn shear(rep: &Rep, code: u8, inverse_code: u8) -> Option<Move> {
    let factors = rep.factors();
    if factors.count() != 2 || rep.rank() != 3 || rep.size() != 4 {
        return None;
    }
    let order = factors.field(1).order();
    if order < 3 || code >= order || inverse_code >= order {
        return None;
    }
    let mut step = Move::identity(rep);
    step.set_rows(1, 0, 2, code, inverse_code);
    step.set_scalar(1, 3, 2);
    step.set_label(0, 1);
    step.set_label(1, 0);
    Some(step)
}

#[test]
fn moves_of_representations(rt: HostRuntime) -> Result<(), Fail> {
    let rep = rep_of(&[2, 3], 3, &[[1, 1, 1, 1, 1, 2]])?;
    let step = shear(&rep, 1, 2).ok_or("no such move")?;
    let image = moved(&rep, &step).ok_or("no move")?;
    assert!(rt; has_column(&image, 0, &[0, 0, 1, 1, 0, 0]));
    assert!(rt; has_column(&image, 2, &[0, 1, 0, 0, 1, 1]));
    assert!(rt; has_column(&image, 3, &[1, 0, 1, 2, 1, 1]));
    let back = shear(&image, 2, 1).ok_or("no such move")?;
    let restored = moved(&image, &back).ok_or("no move")?;
    assert_eq!(rt; order_of(&restored, &rep), Some(Ordering::Equal));
    let same = moved(&rep, &Move::identity(&rep)).ok_or("no move")?;
    assert_eq!(rt; order_of(&same, &rep), Some(Ordering::Equal));
    Ok(())
}

/// The move that has this power in the factor and changes nothing else, if there is such a power.
fn with_power(rep: &Rep, factor: usize, power: u8) -> Option<Move>
    ensures { IfSome result (λ step. step.shape ≡ shape rep.now) }
{
    let factors = rep.factors();
    if factor < factors.count() && power < factors.field(factor).degree() {
        let mut step = Move::identity(rep);
        step.set_power(factor, power);
        Some(step)
    } else {
        None
    }
}

/// The representation with the factor raised, if there is such a power.
fn raised_in(rep: &Rep, factor: usize, power: u8) -> Option<Rep> {
    let factors = rep.factors();
    if factor < factors.count() && power < factors.field(factor).degree() {
        Some(raised(rep, factor, power))
    } else {
        None
    }
}

/// The move with a power in the first factor, which alone is not linear, and with the last of three columns scaled by 2 there.
fn scaled_with_power(rt: &impl Abort, rep: &Rep) -> Option<Move> {
    let mut step = with_power(rep, 0, 1)?;
    assert!(rt; !step.valid(rep, Mode::Linear));
    if rep.size() != 3 || rep.factors().field(0).order() < 3 {
        return None;
    }
    step.set_scalar(0, 2, 2);
    Some(step)
}

/// Compares the last of three columns with the factor raised, which is restored where it is raised again.
fn compare_raised(rt: &impl Abort, rep: &Rep, factor: usize, codes: &[u8]) -> Result<(), Fail> {
    let image = raised_in(rep, factor, 1).ok_or("no power")?;
    assert!(rt; has_column(&image, 2, codes), "at {factor}");
    let restored = raised_in(&image, factor, 1).ok_or("no power")?;
    assert_eq!(rt;
        order_of(&restored, rep),
        Some(Ordering::Equal),
        "at {factor}"
    );
    Ok(())
}

// The Frobenius map of GF(4) exchanges x and x + 1, the codes 2 and 3.
#[test]
fn moves_with_a_power(rt: HostRuntime) -> Result<(), Fail> {
    let rep = rep_of(&[4, 4], 2, &[[1, 1, 2, 3]])?;
    let step = scaled_with_power(&rt, &rep).ok_or("no power")?;
    let image = moved(&rep, &step).ok_or("no move")?;
    assert!(rt; has_column(&image, 0, &[1, 1, 0, 0]));
    assert!(rt; has_column(&image, 2, &[2, 1, 1, 3]));
    compare_raised(&rt, &rep, 0, &[1, 1, 3, 3])?;
    compare_raised(&rt, &rep, 1, &[1, 1, 2, 2])
}

/// Whether three columns of rank 3 over two fields, with the code 2 in the second, are those that the moves below are for.
fn has_two_fields(rep: &Rep) -> bool
    ensures factors { IsTrue result → 1 < length rep.now.factors }
    ensures order { IsTrue result → 2 < slice_index rep.now.factors 1 }
    ensures rank { IsTrue result → rep.now.rank ≡ 3 }
    ensures size { IsTrue result → size rep.now ≡ 3 }
{
    let factors = rep.factors();
    factors.count() == 2 && factors.field(1).order() > 2 && rep.rank() == 3 && rep.size() == 3
}

/// A scalar 0 is none of a move.
fn compare_scaled(rt: &impl Abort, rep: &Rep) {
    assert!(rt; has_two_fields(rep));
    let mut scaled = Move::identity(rep);
    assert!(rt; scaled.valid(rep, Mode::Linear));
    scaled.set_scalar(1, 2, 0);
    assert!(rt; !scaled.valid(rep, Mode::Linear));
}

/// The second matrix is the inverse of the first in a move.
fn compare_sheared(rt: &impl Abort, rep: &Rep) {
    assert!(rt; has_two_fields(rep));
    let mut sheared = Move::identity(rep);
    sheared.set_rows(1, 0, 2, 1, 1);
    assert!(rt; !sheared.valid(rep, Mode::Linear));
    sheared.set_rows(1, 0, 2, 1, 2);
    assert!(rt; sheared.valid(rep, Mode::Linear));
}

/// The labels of a move are a permutation.
fn compare_relabelled(rt: &impl Abort, rep: &Rep) {
    assert!(rt; has_two_fields(rep));
    let mut relabelled = Move::identity(rep);
    relabelled.set_label(0, 1);
    assert!(rt; !relabelled.valid(rep, Mode::Linear));
    relabelled.set_label(1, 0);
    assert!(rt; relabelled.valid(rep, Mode::Linear));
}

#[test]
fn moves_that_are_none(rt: HostRuntime) -> Result<(), Fail> {
    let rep = unit_rep(&[2, 3], 3)?;
    compare_scaled(&rt, &rep);
    compare_sheared(&rt, &rep);
    compare_relabelled(&rt, &rep);
    Ok(())
}
