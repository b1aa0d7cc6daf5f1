// The search through the ordered bases.
ghost use Rattle.std.specs.Prelude.{◌≤◌, ℕ, List, IfSome, length};
ghost use Rattle.canonical_form.specs.Search.{AreIndependentColumns, AreOfClass, IsOrderedBasis};
ghost use Rattle.canonical_form.specs.Found.{IsAtMost, CoversBases};

use crate::columns::{ColumnList, ColumnNumbers};
use crate::coordinates::{are_independent, other_coordinates};
use crate::scalars::{Frame, try_scalars};
use product_rep::{ProductColumn, Rep};
use small_lists::followed_by;

/// Keeps the least of what is found with the ordered bases that begin with these columns.
pub fn try_bases(rep: &Rep, columns: ColumnNumbers, best: &mut Option<ColumnList>)
    requires independent { AreIndependentColumns rep.now columns.items }
    requires few { length columns.items ≤ rep.now.rank }
    requires sound { IfSome best.old (AreOfClass rep.now) }
    ensures sound { IfSome best.new (AreOfClass rep.now) }
    ensures lower { (others : List (List ℕ)) → IsAtMost best.old others → IsAtMost best.new others }
    ensures covers { CoversBases rep.now columns.items best.new }
{
    if columns.len() == rep.rank() {
        try_basis(rep, columns, best);
        return;
    }
    for j in 0..rep.size() {
        let longer = followed_by(columns.as_slice(), j as u8);
        if are_independent(rep, longer.as_slice()) {
            try_bases(rep, longer, best);
        }
    }
}

/// Keeps the least of what is found with this ordered basis.
fn try_basis(rep: &Rep, basis: ColumnNumbers, best: &mut Option<ColumnList>)
    requires basis { IsOrderedBasis rep.now basis.items }
    requires sound { IfSome best.old (AreOfClass rep.now) }
    ensures sound { IfSome best.new (AreOfClass rep.now) }
    ensures lower { (others : List (List ℕ)) → IsAtMost best.old others → IsAtMost best.new others }
    ensures covers { CoversBases rep.now basis.items best.new }
{
    let coordinates = other_coordinates(rep, basis.as_slice());
    let frame = Frame { basis, coordinates };
    try_scalars(rep, &frame, &ProductColumn::new(), best);
}
