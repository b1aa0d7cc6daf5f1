//! Least forms.
ghost use Rattle.std.specs.Prelude.{◌≡◌, ◌<◌, length, slice_index, IsTrue};
ghost use Rattle.matroid_theory.specs.Rep.{size};

use crate::build::{has_column, rep_of, unit_rep};
use bases::agree;
use canonical_form::least_form;
use product_rep::{Mode, Move, Rep, act};
use std::process::Abort;
use std::test::Fail;

/// The form in the mode, where the factors agree.
fn form_of(rep: &Rep, mode: Mode) -> Option<Rep> {
    if agree(rep) {
        Some(least_form(rep, mode))
    } else {
        None
    }
}

/// Whether the representation is four columns of rank 2 over GF(5) alone.
fn is_line_over_five(rep: &Rep) -> bool
    ensures factors { IsTrue result → 0 < length rep.now.factors }
    ensures order { IsTrue result → slice_index rep.now.factors 0 ≡ 5 }
    ensures rank { IsTrue result → rep.now.rank ≡ 2 }
    ensures size { IsTrue result → size rep.now ≡ 4 }
{
    let factors = rep.factors();
    factors.count() == 1 && factors.field(0).order() == 5 && rep.rank() == 2 && rep.size() == 4
}

/// What a move makes of four columns of rank 2 over GF(5), where it is a move for them: it adds the scalar times the second row
/// to the first, exchanges column `from` with the last, and multiplies the last by the scalar.
fn moved_by(rep: &Rep, scalar: u8, from: usize) -> Option<Rep> {
    if !is_line_over_five(rep) || scalar < 1 || scalar > 4 || from > 3 {
        return None;
    }
    let mut step = Move::identity(rep);
    step.set_rows(0, 0, 1, scalar, 5 - scalar);
    step.set_scalar(0, 3, scalar);
    step.set_label(from, 3);
    step.set_label(3, from);
    if step.valid(rep, Mode::Semilinear) {
        Some(act(rep, &step))
    } else {
        None
    }
}

/// Compares the size of the linear form and the codes of its column `j`.
fn compare_column(rt: &impl Abort, rep: &Rep, j: usize, codes: &[u8]) -> Result<(), Fail> {
    let form = form_of(rep, Mode::Linear).ok_or("no agreement")?;
    assert_eq!(rt; form.size(), rep.size());
    assert!(rt; has_column(&form, j, codes), "at {codes:?}");
    Ok(())
}

#[test]
fn forms_of_lines(rt: HostRuntime) -> Result<(), Fail> {
    compare_column(&rt, &rep_of(&[2, 3], 2, &[[1, 1, 1, 2]])?, 2, &[1, 1, 1, 1])?;
    compare_column(&rt, &rep_of(&[4], 2, &[[1, 1], [1, 3]])?, 3, &[1, 2])?;
    compare_column(&rt, &unit_rep(&[3], 2)?, 1, &[0, 1])
}

/// The edges of the complete graph on four vertices, over both fields.
fn graph_over_two_fields() -> Result<Rep, Fail> {
    rep_of(
        &[2, 3],
        3,
        &[[0, 0, 1, 1, 1, 1], [1, 1, 0, 0, 1, 1], [1, 1, 1, 2, 0, 0]],
    )
}

#[test]
fn form_of_a_graph(rt: HostRuntime) -> Result<(), Fail> {
    let rep = graph_over_two_fields()?;
    let form = form_of(&rep, Mode::Linear).ok_or("no agreement")?;
    assert_eq!(rt; form.size(), 6);
    assert!(rt; has_column(&form, 2, &[0, 0, 0, 0, 1, 1]), "at 2");
    assert!(rt; has_column(&form, 3, &[0, 0, 1, 1, 1, 1]), "at 3");
    assert!(rt; has_column(&form, 4, &[1, 1, 0, 0, 1, 1]), "at 4");
    assert!(rt; has_column(&form, 5, &[1, 1, 1, 1, 1, 1]), "at 5");
    Ok(())
}

/// Compares the form of what the move makes of the columns with this scalar and place.
fn compare_moved(rt: &impl Abort, rep: &Rep, scalar: u8, from: usize) -> Result<(), Fail> {
    let image = moved_by(rep, scalar, from).ok_or("no move")?;
    let code = scalar.wrapping_mul(3).wrapping_add(1) % 5;
    assert!(rt; has_column(&image, from, &[code, 3]), "{scalar} at {from}");
    compare_line(rt, &image, scalar, from)
}

/// Compares the columns of the form after the unit columns.
fn compare_line(rt: &impl Abort, rep: &Rep, scalar: u8, from: usize) -> Result<(), Fail> {
    let form = form_of(rep, Mode::Linear).ok_or("no agreement")?;
    assert!(rt; has_column(&form, 2, &[1, 1]), "{scalar} at {from}");
    assert!(rt; has_column(&form, 3, &[1, 2]), "{scalar} at {from}");
    Ok(())
}

#[test]
fn form_after_a_move(rt: HostRuntime) -> Result<(), Fail> {
    let rep = rep_of(&[5], 2, &[[1, 1], [1, 3]])?;
    compare_line(&rt, &rep, 0, 0)?;
    for scalar in 1..5 {
        for from in 0..3 {
            compare_moved(&rt, &rep, scalar, from)?;
        }
    }
    Ok(())
}

/// Compares the last column of the form in this mode, after those of every mode.
fn compare_conjugate(rt: &impl Abort, rep: &Rep, mode: Mode, codes: &[u8]) -> Result<(), Fail> {
    let form = form_of(rep, mode).ok_or("no agreement")?;
    assert_eq!(rt; form.size(), 4);
    assert!(rt; has_column(&form, 0, &[1, 1, 0, 0]), "in mode {mode:?}");
    assert!(rt; has_column(&form, 1, &[0, 0, 1, 1]), "in mode {mode:?}");
    assert!(rt; has_column(&form, 2, &[1, 1, 1, 1]), "in mode {mode:?}");
    assert!(rt; has_column(&form, 3, codes), "in mode {mode:?}");
    Ok(())
}

// One factor raised alone makes the other's codes equal to its own.
#[test]
fn forms_of_conjugate_lines(rt: HostRuntime) -> Result<(), Fail> {
    let rep = rep_of(&[4, 4], 2, &[[1, 1, 1, 1], [1, 1, 2, 3]])?;
    compare_conjugate(&rt, &rep, Mode::Linear, &[1, 1, 2, 3])?;
    compare_conjugate(&rt, &rep, Mode::Semilinear, &[1, 1, 2, 2])
}
