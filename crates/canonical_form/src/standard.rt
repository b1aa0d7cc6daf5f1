// Some standard representation of a class.
ghost use Rattle.std.specs.Prelude.{◌≤◌, IfSome, IsNone, length};
ghost use Rattle.matroid_theory.specs.declared.Mode.TheVariants.{Linear as linear};
ghost use Rattle.matroid_theory.specs.Rep.{IsStandard};
ghost use Rattle.matroid_theory.specs.Matroid.{Agrees};
ghost use Rattle.matroid_theory.specs.Move.{AreEquivalent};
ghost use Rattle.canonical_form.specs.Search.{AreIndependentColumns, IsOrderedBasis, NoneBegins};

use crate::columns::ColumnNumbers;
use crate::coordinates::{are_independent, other_coordinates};
use crate::form::standard;
use product_rep::Rep;
use small_lists::followed_by;

/// Some standard representation that is equivalent by linear moves to a representation whose factors agree: its columns in the
/// first ordered basis that is met (Oxley, chapter 2), those of the basis before the others. It is found without a search
/// through the bases, and most often it isn't the form.
pub fn some_standard(rep: &Rep) -> Rep
    requires { Agrees rep.now }
    ensures standard { IsStandard result }
    ensures equivalent { AreEquivalent linear rep.now result }
{
    rep.laws();
    match first_basis(rep, ColumnNumbers::new()) {
        Some(basis) => standard(rep, &other_coordinates(rep, basis.as_slice())),
        None => unreachable!(),
    }
}

/// The first ordered basis that begins with these columns, if there is one. Where the factors agree there is one for all
/// independent columns, so no column is taken back.
fn first_basis(rep: &Rep, columns: ColumnNumbers) -> Option<ColumnNumbers>
    requires independent { AreIndependentColumns rep.now columns.items }
    requires few { length columns.items ≤ rep.now.rank }
    ensures sound { IfSome result (λ basis. IsOrderedBasis rep.now basis.items) }
    ensures none { IsNone result → NoneBegins rep.now columns.items }
{
    if columns.len() == rep.rank() {
        return Some(columns);
    }
    for j in 0..rep.size() {
        let longer = followed_by(columns.as_slice(), j as u8);
        if are_independent(rep, longer.as_slice()) {
            if let Some(basis) = first_basis(rep, longer) {
                return Some(basis);
            }
        }
    }
    None
}
