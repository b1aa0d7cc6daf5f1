// The children of one parent.
ghost use Rattle.std.specs.Prelude.{◌≡◌, ◌<◌, IsSome, IsNone, IfSome, IfOk};
ghost use Rattle.std.specs.List.{Contains};
ghost use Rattle.matroid_theory.specs.Rep.{size, IsProductColumn};
ghost use Rattle.matroid_theory.specs.Matroid.{Agrees};
ghost use Rattle.matroid_theory.specs.Move.{AreEquivalent};
ghost use Rattle.matroid_theory.specs.Order.{IsForm};
ghost use Rattle.matroid_theory.specs.Level.{followed_by};
ghost use Rattle.level_driver.specs.Forbidden.{Avoids};
ghost use Rattle.level_driver.specs.Known.{IsAnswer};

use crate::Forbidden;
use crate::growth::child;
use matroid_theory::Mode;
use product_rep::{ProductColumn, Rep};
use small_lists::list_of;
use std::alloc::{AllocError, Global};
use std::cmp::Ordering;
use std::marker::Model;
use symmetry::{Symmetries, find_symmetries};

/// A column that was tried, and the form of the parent followed by it; none where that has a forbidden minor.
#[derive(Drop)]
struct Leader {
    column: ProductColumn,
    child: Option<Rep>,
}

/// What is known of the children of one parent: automorphisms of it, and the answers so far. Contracts see the parent, the mode
/// and the forbidden matroids.
///
/// Where an automorphism carries one column to another, the parent followed by the one and the parent followed by the other have
/// one form, so that is sought once.
#[derive(Drop)]
pub struct Children<'a> {
    parent: &'a Rep,
    mode: Mode,
    forbidden: &'a Forbidden,
    symmetries: Symmetries,
    leaders: Vec<Leader>,
}

impl<'a> Model for Children<'a> {
    ghost use Rattle.level_driver.specs.Known.{ChildrenOf, KeepsAnswers};

    ghost Value = { ChildrenOf };

    ghost view = { λ c. record { parent = c.parent.now; mode = c.mode; forbidden = c.forbidden.now } };

    ghost invariant = { λ c. KeepsAnswers (record { parent = c.parent.now; mode = c.mode; forbidden = c.forbidden.now }) c.symmetries c.leaders.items };
}

impl<'a> Children<'a> {
    /// The children of the parent, of which none is known yet.
    ///
    /// # Errors
    ///
    /// `AllocError` where there was no memory for the automorphisms.
    pub fn of(
        alloc: Global,
        parent: &'a Rep,
        mode: Mode,
        forbidden: &'a Forbidden,
    ) -> Result<Children<'a>, AllocError>
        ensures { IfOk result (λ children. children ≡ record { parent = parent.now; mode = mode; forbidden = forbidden.now }) }
    {
        let symmetries = find_symmetries(alloc, parent, mode)?;
        Ok(Children {
            parent,
            mode,
            forbidden,
            symmetries,
            leaders: Vec::new(alloc),
        })
    }

    /// The form of the mode of the class of the parent followed by the column, where that has no forbidden minor, and else none.
    /// All growth reduces by this method.
    ///
    /// # Errors
    ///
    /// `AllocError` where there was no memory to keep the answer.
    pub fn child(&mut self, column: &ProductColumn) -> Result<Option<Rep>, AllocError>
        requires room { size self.old.parent < 16 }
        requires column { IsProductColumn self.old.parent.factors self.old.parent.rank column.now.items }
        requires agrees { Agrees (followed_by self.old.parent column.now.items) }
        ensures same { self.new ≡ self.old }
        ensures none { IfOk result (λ child. IsNone child → ¬ (Avoids self.old.forbidden (followed_by self.old.parent column.now.items))) }
        ensures avoids { IfOk result (λ child. IsSome child → Avoids self.old.forbidden (followed_by self.old.parent column.now.items)) }
        ensures form { IfOk result (λ child. IfSome child (λ N. IsForm self.old.mode N)) }
        ensures equivalent { IfOk result (λ child. IfSome child (λ N. AreEquivalent self.old.mode (followed_by self.old.parent column.now.items) N)) }
    {
        let known = self.known(column);
        if let Some(child) = known {
            return Ok(child);
        }
        let child = child(self.parent, self.mode, self.forbidden, column);
        self.leaders.push(Leader {
            column: list_of(column.as_slice()),
            child: copy_of(&child),
        })?;
        Ok(child)
    }

    /// The answer to the column, where one to the column that stands for it is kept.
    fn known(&self, column: &ProductColumn) -> Option<Option<Rep>>
        requires column { IsProductColumn self.now.parent.factors self.now.parent.rank column.now.items }
        ensures { IfSome result (λ child. IsAnswer self.now column.now.items child) }
    {
        self.parent.laws();
        let least = self.symmetries.least_image(column);
        let leader = leader_of(&self.leaders, &least)?;
        Some(copy_of(&leader.child))
    }
}

/// The kept answer to the column, if there is one. The columns rise, so it is found by halving.
fn leader_of<'b>(leaders: &'b [Leader], column: &ProductColumn) -> Option<&'b Leader>
    ensures { IfSome result (λ leader. Contains leaders.now leader.now × (leader.now.column.items ≡ column.now.items)) }
{
    let mut low = 0;
    let mut high = leaders.len();
    while low < high {
        let middle = low + (high - low) / 2;
        let leader = &leaders[middle];
        match leader.column.as_slice().cmp(column.as_slice()) {
            Ordering::Equal => return Some(leader),
            Ordering::Less => low = middle + 1,
            Ordering::Greater => high = middle,
        }
    }
    None
}

/// The same form, if there is one.
fn copy_of(child: &Option<Rep>) -> Option<Rep>
    ensures { result ≡ child.now }
{
    match child {
        Some(form) => Some(form.copy()),
        None => None,
    }
}
