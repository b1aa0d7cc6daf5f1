ghost use Rattle.std.specs.Prelude.{◌≡◌, ◌<◌, ◌≤◌, ◌+◌, ◌-◌, ◌*◌, ℕ, length, slice_index};
ghost use Rattle.matroid_theory.specs.Rep.{count, size, IsStandard, KeepsLimits};
ghost use Rattle.matroid_theory.specs.Matroid.{Agrees};
ghost use Rattle.dual_theory.specs.Dual.{dual_matrix, IsDualForm, IsStandardDual};

use arrayvec::ArrayVec;
use fast_form::least_form_fast;
use matroid_theory::Mode;
use product_rep::{ProductColumn, Rep};

/// The dual form of a standard representation whose factors agree, and which has one to six columns more than rows: the form of
/// the mode that is equivalent to a representation orthogonal to this one (Oxley, chapter 2). Its bases are, up to the names of
/// the elements, the complements of the bases of this one.
pub fn dual_of(rep: &Rep, mode: Mode) -> Rep
    requires standard { IsStandard rep.now }
    requires agrees { Agrees rep.now }
    requires some { rep.now.rank < size rep.now }
    requires most { size rep.now ≤ rep.now.rank + 6 }
    ensures { IsDualForm mode rep.now result }
{
    rep.laws();
    let dual = standard_dual(rep);
    dual.laws();
    least_form_fast(&dual, mode)
}

/// For a standard representation [I | D] the one made of -D transposed, followed by the unit columns. It is orthogonal to [I | D].
pub fn standard_dual(rep: &Rep) -> Rep
    requires some { rep.now.rank < size rep.now }
    requires most { size rep.now ≤ rep.now.rank + 6 }
    ensures { IsStandardDual rep.now result }
{
    rep.laws();
    let size = rep.size();
    let mut dual = Rep::empty(rep.factors(), (size - rep.rank()) as u8);
    for j in 0..size {
        dual.push_column(&dual_column(rep, j));
    }
    dual
}

/// Column `j` of all factors of that representation.
fn dual_column(rep: &Rep, j: usize) -> ProductColumn
    requires limits { KeepsLimits rep.now }
    requires some { rep.now.rank < size rep.now }
    requires most { size rep.now ≤ rep.now.rank + 6 }
    requires column { j < size rep.now }
    ensures rows { length result.items ≡ (size rep.now - rep.now.rank) * count rep.now }
    ensures codes { (i f : ℕ) → i < size rep.now - rep.now.rank → f < count rep.now →
        slice_index result.items (i * count rep.now + f) ≡ dual_matrix rep.now f i j }
{
    let count = rep.factors().count();
    let mut column = ArrayVec::new();
    for place in 0..(rep.size() - rep.rank()) * count {
        column.push(dual_code(rep, place % count, place / count, j));
    }
    column
}

/// The code at row `i` of column `j` of the factor.
fn dual_code(rep: &Rep, factor: usize, i: usize, j: usize) -> u8
    requires limits { KeepsLimits rep.now }
    requires factor { factor < count rep.now }
    requires row { i < size rep.now - rep.now.rank }
    requires column { j < size rep.now }
    ensures { result ≡ dual_matrix rep.now factor i j }
{
    let rank = rep.rank();
    if j >= rank {
        return u8::from(rank + i == j);
    }
    let entry = rep.factor_column(factor, rank + i)[j];
    rep.factors().field(factor).neg(entry)
}
