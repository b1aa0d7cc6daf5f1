// Columns that are refused before their child is searched.
ghost use Rattle.std.specs.Prelude.{◌≡◌, ◌↔◌, IsTrue, IfOk};
ghost use Rattle.std.specs.Cmp.Lexicographic.{slice_cmp};
ghost use Rattle.std.specs.Ordering.{nat_cmp};
ghost use Rattle.std.specs.declared.cmp.Ordering.TheVariants.{Less};
ghost use Rattle.matroid_theory.specs.Order.{IsForm};
ghost use Rattle.matroid_theory.specs.Level.{followed_by};
ghost use Rattle.extension.specs.Admissible.{IsAdmissible};
ghost use Rattle.level_driver.specs.Children.{IsParent};
ghost use Rattle.orderly.specs.Refused.{IsBelowLast};

use matroid_theory::Mode;
use product_rep::{ProductColumn, Rep};
use std::alloc::{AllocError, Global};
use std::cmp::Ordering;
use std::marker::Model;
use symmetry::{Symmetries, find_symmetries};

/// What tells at once of some columns that a parent followed by them is no form of the mode: the last column of the parent, and its
/// automorphisms, which are sought when they are first needed. Contracts see the parent and the mode.
#[derive(Drop)]
pub(crate) struct Refusal<'a> {
    parent: &'a Rep,
    mode: Mode,
    symmetries: Option<Symmetries>,
}

impl<'a> Model for Refusal<'a> {
    ghost use Rattle.std.specs.Prelude.{◌≡◌, IfSome};
    ghost use Rattle.orderly.specs.Refused.{RefusalOf};

    ghost Value = { RefusalOf };

    ghost view = { λ r. record { parent = r.parent.now; mode = r.mode } };

    ghost invariant = { λ r. IfSome r.symmetries (λ s. (s.parent ≡ r.parent.now) × (s.mode ≡ r.mode)) };
}

impl<'a> Refusal<'a> {
    /// What tells of the columns of this parent, with no automorphism yet.
    pub(crate) fn of(parent: &'a Rep, mode: Mode) -> Refusal<'a>
        ensures { result ≡ record { parent = parent.now; mode = mode } }
    {
        Refusal {
            parent,
            mode,
            symmetries: None,
        }
    }

    /// The mode.
    pub(crate) fn mode(&self) -> Mode
        ensures { result ≡ self.now.mode }
    {
        self.mode
    }

    /// Whether it is seen at once that the parent followed by the column is no form of the mode.
    ///
    /// # Errors
    ///
    /// `AllocError` where there was no memory for the automorphisms.
    pub(crate) fn refuses(
        &mut self,
        alloc: Global,
        column: &ProductColumn,
    ) -> Result<bool, AllocError>
        requires parent { IsParent self.old.parent }
        requires column { IsAdmissible self.old.parent column.now.items }
        ensures same { self.new ≡ self.old }
        ensures refused { IfOk result (λ refused. IsTrue refused → ¬ (IsForm self.old.mode (followed_by self.old.parent column.now.items))) }
    {
        self.parent.laws();
        if is_below_last(self.parent, column) {
            return Ok(true);
        }
        self.seek(alloc)?;
        Ok(self.is_carried_lower(column))
    }

    /// Seeks the automorphisms, if that wasn't done.
    fn seek(&mut self, alloc: Global) -> Result<(), AllocError>
        ensures { self.new ≡ self.old }
    {
        if self.symmetries.is_none() {
            self.symmetries = Some(find_symmetries(alloc, self.parent, self.mode)?);
        }
        Ok(())
    }

    /// Whether some automorphism that was found carries the column lower.
    fn is_carried_lower(&self, column: &ProductColumn) -> bool
        requires parent { IsParent self.now.parent }
        requires column { IsAdmissible self.now.parent column.now.items }
        ensures { IsTrue result → ¬ (IsForm self.now.mode (followed_by self.now.parent column.now.items)) }
    {
        match &self.symmetries {
            Some(symmetries) => symmetries.has_lower(column),
            None => false,
        }
    }
}

/// Whether the parent has columns after its unit columns, and the column is below the last one.
fn is_below_last(parent: &Rep, column: &ProductColumn) -> bool
    ensures { IsTrue result ↔ IsBelowLast parent.now column.now.items }
{
    let size = parent.size();
    if size <= parent.rank() {
        return false;
    }
    is_below(column, &parent.column(size - 1))
}

/// Whether the first column is below the second.
fn is_below(first: &ProductColumn, second: &ProductColumn) -> bool
    ensures { IsTrue result ↔ (slice_cmp nat_cmp first.now.items second.now.items ≡ Less) }
{
    match first.as_slice().cmp(second.as_slice()) {
        Ordering::Less => true,
        Ordering::Equal | Ordering::Greater => false,
    }
}
