// Moves made from the images of the unit columns.
ghost use Rattle.std.specs.Prelude.{◌≡◌, ◌<◌};
ghost use Rattle.matroid_theory.specs.Rep.{shape};

use crate::ground::{Codes, Ground, Scalars};
use crate::single::OpenMove;
use product_rep::Rep;

/// The unit columns.
pub fn unit_basis(ground: &Ground) -> [Codes; 6] {
    let mut basis = [Codes::zero(); 6];
    for i in 0..6 {
        basis[i] = ground.columns[i];
    }
    basis
}

/// The move with these images of the unit columns.
pub fn move_by(rep: &Rep, ground: &Ground, basis: &[Codes; 6]) -> OpenMove
    ensures { result.shape ≡ shape rep.now }
{
    let mut step = OpenMove::identity(rep);
    let mut back = [Codes::zero(); 6];
    for from in 0..rep.size() {
        let image = ground.image(basis, 0, &ground.columns[from]);
        let scalars = ground.leads(&image);
        let j = ground.place_of(&ground.multiple(&scalars, &image));
        if j < rep.size() {
            step.set_label(j, from);
            set_scalars(rep, &mut step, j, &scalars);
            if j < 6 {
                back[j] = ground.multiple(&scalars, &ground.columns[from]);
            }
        }
    }
    set_matrices(rep, &mut step, basis, &back);
    step
}

/// Makes the scalars of column `j` these.
fn set_scalars(rep: &Rep, step: &mut OpenMove, j: usize, scalars: &Scalars)
    requires shape { step.old.shape ≡ shape rep.now }
    requires column { j < step.old.shape.size }
    ensures { step.new.shape ≡ step.old.shape }
{
    let factors = rep.factors();
    factors.laws();
    for factor in 0..factors.count() {
        if scalars[factor] < factors.field(factor).order() {
            step.set_scalar(factor, j, scalars[factor]);
        }
    }
}

/// Makes the columns of the matrices and of their inverses these.
fn set_matrices(rep: &Rep, step: &mut OpenMove, basis: &[Codes; 6], back: &[Codes; 6])
    requires { step.old.shape ≡ shape rep.now }
    ensures { step.new.shape ≡ step.old.shape }
{
    rep.laws();
    for j in 0..rep.rank() {
        set_column(rep, step, j, &basis[j], &back[j]);
    }
}

/// Makes column `j` of the matrices, and of their inverses, these.
fn set_column(rep: &Rep, step: &mut OpenMove, j: usize, column: &Codes, back: &Codes)
    requires shape { step.old.shape ≡ shape rep.now }
    requires column { j < step.old.shape.rank }
    ensures { step.new.shape ≡ step.old.shape }
{
    rep.laws();
    for i in 0..rep.rank() {
        set_entries(rep, step, i, j, column, back);
    }
}

/// Makes the entries at row `i` of column `j` of the matrices, and of their inverses, those of these columns.
fn set_entries(rep: &Rep, step: &mut OpenMove, i: usize, j: usize, column: &Codes, back: &Codes)
    requires shape { step.old.shape ≡ shape rep.now }
    requires row { i < step.old.shape.rank }
    requires column { j < step.old.shape.rank }
    requires low { i < 6 }
    ensures { step.new.shape ≡ step.old.shape }
{
    let factors = rep.factors();
    factors.laws();
    let count = factors.count();
    for factor in 0..count {
        let order = factors.field(factor).order();
        let code = column.parts[factor][i];
        let inverse_code = back.parts[factor][i];
        if code < order && inverse_code < order {
            step.set_rows(factor, i, j, code, inverse_code);
        }
    }
}
