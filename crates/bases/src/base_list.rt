//! The bases of the first factor in a list.
ghost use Rattle.std.specs.Prelude.{◌≡◌, IfOk};
ghost use Rattle.matroid_theory.specs.Rep.{size};
ghost use Rattle.matroid_theory.specs.Minor.{AreBases};
ghost use Rattle.bases.specs.BaseLists.{IsBaseList};

use crate::NoMemory;
use crate::factor::FactorColumns;
use column_sets::bases_of_columns;
use field_tables::Mask;
use product_rep::Rep;
use std::alloc::Global;
use std::marker::Model;

/// The bases of the first factor of a representation, as a rising list of masks, with its rank and size. Contracts see a
/// matroid by its bases.
#[derive(Drop)]
pub struct BaseList {
    rank: u8,
    size: u8,
    bases: Vec<Mask>,
}

impl Model for BaseList {
    ghost use Rattle.matroid_theory.specs.Minor.{Matroid};
    ghost use Rattle.bases.specs.BaseLists.{IsBaseList};

    ghost Value = { Matroid };

    ghost view = { λ s. record { rank = s.rank; size = s.size; bases = s.bases.items } };

    ghost invariant = { λ s. IsBaseList (record { rank = s.rank; size = s.size; bases = s.bases.items }) };
}

impl BaseList {
    /// The bases of the first factor.
    ///
    /// # Errors
    ///
    /// `NoMemory` where there was no memory for the list.
    pub fn of(alloc: Global, rep: &Rep) -> Result<BaseList, NoMemory>
        ensures rank { IfOk result (λ list. list.rank ≡ rep.now.rank) }
        ensures size { IfOk result (λ list. list.size ≡ size rep.now) }
        ensures bases { IfOk result (λ list. AreBases rep.now list.bases) }
    {
        let size = rep.size();
        Ok(BaseList {
            rank: rep.rank() as u8,
            size: size as u8,
            bases: bases_of(alloc, rep)?,
        })
    }

    /// What the type keeps, for the proofs of callers: rank 1 to 6, at most 16 elements, and rising masks of rank many of them.
    pub fn laws(&self)
        ensures { IsBaseList self.now }
    {
        let _bases = &self.bases;
    }

    /// The rank, from 1 to 6.
    pub fn rank(&self) -> u8
        ensures { result ≡ self.now.rank }
    {
        self.rank
    }

    /// The number of elements, at most 16.
    pub fn size(&self) -> u8
        ensures value { result ≡ self.now.size }
        ensures is_base_list { IsBaseList self.now }
    {
        self.size
    }

    /// The bases, each below 2 to the size, from the lowest mask up.
    pub fn bases(&self) -> &[Mask]
        ensures { result.now ≡ self.now.bases }
    {
        &self.bases
    }
}

/// The bases of the first factor, from the lowest mask up.
fn bases_of(alloc: Global, rep: &Rep) -> Result<Vec<Mask>, NoMemory>
    ensures { IfOk result (λ v. AreBases rep.now v.items) }
{
    rep.laws();
    let first = FactorColumns::of(rep, 0);
    bases_of_columns(alloc, first.field(), first.columns(), rep.rank())
}
