ghost use Rattle.std.specs.Prelude.{◌≡◌, ◌<◌, ◌-◌, [], MatchOption};
ghost use Rattle.std.specs.Iterator.{at_most};
ghost use Rattle.matroid_theory.specs.Rep.{size, KeepsLimits, IsStandard};
ghost use Rattle.matroid_theory.specs.Matroid.{Agrees, IsSimple};
ghost use Rattle.extension.specs.Admissible.{IsNextColumn, IsLastColumn, GivesNext, value, above_values};
ghost use Rattle.extension.specs.Planes.{KnowsPlanes};
ghost use Rattle.extension.specs.Steps.{IsStart, KeepsColumns};

use crate::admissible::refused_rows;
use crate::normalised::following;
use crate::planes::{Planes, planes_of};
use product_rep::{ProductColumn, Rep};
use small_lists::list_of;
use std::marker::Model;

/// The columns by which a standard simple representation whose factors agree, of fewer than 16 columns, can be extended:
/// in rising order and each once, exactly the normalised columns such that the representation followed by the column is
/// simple and its factors agree. Contracts see the representation and the last column that was given.
#[derive(Drop)]
pub struct Columns {
    rep: Rep,
    planes: Option<Planes>,
    last: ProductColumn,
}

impl Model for Columns {
    ghost use Rattle.extension.specs.Admissible.{ColumnsAfter};
    ghost use Rattle.extension.specs.Planes.{KnowsPlanes};
    ghost use Rattle.extension.specs.Steps.{KeepsColumns};

    ghost Value = { ColumnsAfter };

    ghost view = { λ columns. record { parent = columns.rep; last = columns.last.items } };

    ghost invariant = { λ columns. KeepsColumns (record { parent = columns.rep; last = columns.last.items })
        × KnowsPlanes columns.rep columns.planes };
}

impl Columns {
    /// All columns by which the representation can be extended.
    pub fn of(rep: &Rep) -> Columns
        requires standard { IsStandard rep.now }
        requires simple { IsSimple rep.now }
        requires agrees { Agrees rep.now }
        requires room { size rep.now < 16 }
        ensures { result ≡ record { parent = rep.now; last = [] } }
    {
        rep.laws();
        Columns {
            rep: rep.copy(),
            planes: planes_of(rep),
            last: ProductColumn::new(),
        }
    }
}

impl Iterator for Columns {
    type Item = ProductColumn;

    ghost next_gives = { GivesNext };

    ghost remaining = { λ columns. at_most (above_values - value columns.last) };

    fn next(&mut self) -> Option<ProductColumn> {
        let column = next_column(&self.rep, &self.planes, &self.last)?;
        self.last = list_of(column.as_slice());
        Some(column)
    }
}

/// The first admissible column after the last one. After a column that is refused, those that are refused with it are
/// passed over.
fn next_column(rep: &Rep, planes: &Option<Planes>, last: &ProductColumn) -> Option<ProductColumn>
    requires keeps { KeepsColumns (record { parent = rep.now; last = last.now.items }) }
    requires planes { KnowsPlanes rep.now planes.now }
    ensures { MatchOption result (IsLastColumn (record { parent = rep.now; last = last.now.items }))
        (λ v. IsNextColumn (record { parent = rep.now; last = last.now.items }) v.items) }
{
    let factors = rep.factors();
    let rank = rep.rank();
    let mut before: ProductColumn = list_of(last.as_slice());
    let mut rows = rank;
    while let Some(column) = following(&factors, rank, rows, before.as_slice()) {
        let Some(refused) = refused_rows(rep, planes, &column) else {
            return Some(column);
        };
        rows = refused;
        before = column;
    }
    None
}
