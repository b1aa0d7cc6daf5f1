//! The two calls.
ghost use Rattle.std.specs.Prelude.{◌≡◌, ◌≤◌, ◌<◌, ◌-◌, ◌^◌, IfSome, IsNone};
ghost use Rattle.std.specs.List.{Contains};
ghost use Rattle.matroid_theory.specs.Rep.{Rep as Matrices, IsStandard};
ghost use Rattle.matroid_theory.specs.Matroid.{Agrees};
ghost use Rattle.matroid_theory.specs.Minor.{Matroid, IsMatroidOf};
ghost use Rattle.dual_theory.specs.Represented.{Represents, IsLeastOver};
ghost use Rattle.represent.specs.Sought.{matroid_of, IsSought};

use crate::fill::fill;
use crate::matrix::filled;
use crate::table::{bases_of, table_of};
use crate::target::{Codes, Target};
use field_tables::Field;
use named_matroids::Minor;
use product_rep::Rep;

/// The least standard matrix over the field with the bases of the representation; none exactly where no matrix over the field
/// has them (Oxley, chapter 6). It takes no memory.
pub fn represent(rep: &Rep, field: Field) -> Option<Rep>
    requires standard { IsStandard rep.now }
    requires agrees { Agrees rep.now }
    ensures matroid { (N : Matroid) × IsMatroidOf rep.now N }
    ensures found { IfSome result (λ least. (N : Matroid) × IsMatroidOf rep.now N × IsLeastOver field N least) }
    ensures none { IsNone result → (N : Matroid) → IsMatroidOf rep.now N → (L : Matrices) → ¬ (Represents field N L) }
{
    rep.laws();
    least_over(&Target {
        order: field.order(),
        rank: rep.rank() as u8,
        size: rep.size() as u8,
        bases: bases_of(rep),
    })
}

/// The least standard matrix over the field with the bases of the matroid; none exactly where no matrix over the field has
/// them. The rank is 1 to 6, and the first elements are a base. It takes no memory.
pub fn represent_minor(minor: &Minor, field: Field) -> Option<Rep>
    requires low { 1 ≤ minor.now.rank }
    requires high { minor.now.rank ≤ 6 }
    requires first { Contains minor.now.bases (2 ^ minor.now.rank - 1) }
    ensures found { IfSome result (IsLeastOver field minor.now) }
    ensures none { IsNone result → (L : Matrices) → ¬ (Represents field minor.now L) }
{
    minor.laws();
    least_over(&Target {
        order: field.order(),
        rank: minor.rank() as u8,
        size: minor.size() as u8,
        bases: table_of(minor.bases()),
    })
}

/// The least standard matrix that is sought; none where there is no matrix with these bases.
fn least_over(target: &Target) -> Option<Rep>
    requires { IsSought target.now.order (matroid_of target.now) }
    ensures found { IfSome result (IsLeastOver target.now.order (matroid_of target.now)) }
    ensures none { IsNone result → (L : Matrices) → ¬ (Represents target.now.order (matroid_of target.now) L) }
{
    let codes = fill(target, Codes::new())?;
    Some(filled(target, &codes))
}
