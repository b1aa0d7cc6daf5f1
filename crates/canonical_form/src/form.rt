ghost use Rattle.std.specs.Prelude.{◌≡◌};
ghost use Rattle.matroid_theory.specs.declared.Mode.TheVariants.{Linear as linear};
ghost use Rattle.matroid_theory.specs.Rep.{shape, IsShaped, IsStandard};
ghost use Rattle.matroid_theory.specs.Matroid.{Agrees};
ghost use Rattle.matroid_theory.specs.Move.{AreEquivalent};
ghost use Rattle.matroid_theory.specs.Order.{IsForm};
ghost use Rattle.canonical_form.specs.Search.{later, AreOfClass};

use crate::columns::{ColumnList, ColumnNumbers};
use crate::powers::least_from;
use crate::search::try_bases;
use matroid_theory::Mode;
use product_rep::Rep;

/// The form of the class of a representation whose factors agree: of the standard representations that are equivalent to it by
/// moves of the mode, the one that is not above any other.
pub fn least_form(rep: &Rep, mode: Mode) -> Rep
    requires { Agrees rep.now }
    ensures form { IsForm mode result }
    ensures equivalent { AreEquivalent mode rep.now result }
{
    rep.laws();
    match mode {
        Mode::Linear => linear_form(rep),
        Mode::Semilinear => least_from(rep, 0),
    }
}

/// The form of the class by linear moves.
pub fn linear_form(rep: &Rep) -> Rep
    requires { Agrees rep.now }
    ensures form { IsForm linear result }
    ensures equivalent { AreEquivalent linear rep.now result }
{
    rep.laws();
    let mut best = None;
    try_bases(rep, ColumnNumbers::new(), &mut best);
    match best {
        Some(columns) => standard(rep, &columns),
        None => unreachable!(),
    }
}

/// The standard representation of that shape with these later columns.
pub fn standard(rep: &Rep, columns: &ColumnList) -> Rep
    requires { AreOfClass rep.now columns.now }
    ensures shape { shape result ≡ shape rep.now }
    ensures shaped { IsShaped result }
    ensures standard { IsStandard result }
    ensures later { later result ≡ columns.now }
{
    rep.laws();
    let mut form = Rep::unit(rep.factors(), rep.rank() as u8);
    for column in columns.as_slice() {
        form.push_column(column);
    }
    form.laws();
    form
}
