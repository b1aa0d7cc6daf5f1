// Automorphisms of one representation.
ghost use Rattle.std.specs.Prelude.{◌≡◌, ◌<◌, ◌↔◌, [], length, IsTrue};
ghost use Rattle.std.specs.Option.{MatchOption};
ghost use Rattle.std.specs.Cmp.Lexicographic.{slice_cmp};
ghost use Rattle.std.specs.Ordering.{nat_cmp};
ghost use Rattle.std.specs.declared.cmp.Ordering.TheVariants.{Less};
ghost use Rattle.matroid_theory.specs.Rep.{IsProductColumn};
ghost use Rattle.matroid_theory.specs.Move.{AreEquivalent};
ghost use Rattle.matroid_theory.specs.Level.{followed_by};
ghost use Rattle.symmetry.specs.Symmetric.{AreSymmetries, IsImage, IsImageUnder, IsLowerImage, HasLowerImage};

use crate::single::OpenMove;
use matroid_theory::Mode;
use product_rep::{ProductColumn, Rep};
use small_lists::list_of;
use std::alloc::{AllocError, Global};
use std::cmp::Ordering;
use std::marker::Model;

/// A representation, a mode, and moves of the mode that take the representation to itself. Contracts see these three.
#[derive(Drop)]
pub struct Symmetries {
    parent: Rep,
    mode: Mode,
    moves: Vec<OpenMove>,
}

impl Model for Symmetries {
    ghost use Rattle.symmetry.specs.Symmetric.{MovesOf, AreSymmetries};

    ghost Value = { MovesOf };

    ghost view = { λ s. record { parent = s.parent; mode = s.mode; moves = s.moves.items } };

    ghost invariant = { λ s. AreSymmetries (record { parent = s.parent; mode = s.mode; moves = s.moves.items }) };
}

/// How many moves are kept.
pub const MOST_MOVES: usize = 32;

/// How often the least image is looked for anew.
const MOST_ROUNDS: usize = 64;

impl Symmetries {
    /// No move. It takes no memory.
    pub fn none(alloc: Global, rep: &Rep, mode: Mode) -> Symmetries
        ensures { result ≡ record { parent = rep.now; mode = mode; moves = [] } }
    {
        Symmetries {
            parent: rep.copy(),
            mode,
            moves: Vec::new(alloc),
        }
    }

    /// What the type keeps, for the proofs of callers: each move is one of the mode that takes the representation to itself.
    pub fn laws(&self)
        ensures { AreSymmetries self.now }
    {
        let _moves = &self.moves;
    }

    /// The number of moves.
    pub fn len(&self) -> usize
        ensures { result ≡ length self.now.moves }
    {
        self.moves.len()
    }

    /// Adds the move, if it is one of the mode that takes the representation to itself.
    pub(crate) fn add(&mut self, step: OpenMove) -> Result<(), AllocError>
        ensures parent { self.new.parent ≡ self.old.parent }
        ensures mode { self.new.mode ≡ self.old.mode }
    {
        if step.is_symmetry(&self.parent, self.mode) {
            self.moves.push(step)?;
        }
        Ok(())
    }

    /// The column to which move `i` carries the column, scaled so that in each factor the first code that isn't 0 is 1.
    pub fn image(&self, i: usize, column: &ProductColumn) -> ProductColumn
        requires index { i < length self.now.moves }
        requires column { IsProductColumn self.now.parent.factors self.now.parent.rank column.now.items }
        ensures under { IsImageUnder self.now i column.now.items result.items }
        ensures image { IsImage self.now column.now.items result.items }
    {
        self.parent.laws();
        self.moves[i].image(&self.parent, column)
    }

    /// A column that the moves carry the column to, one after the other, and that is as low as was found: the same one wherever
    /// no image is below it.
    pub fn least_image(&self, column: &ProductColumn) -> ProductColumn
        requires { IsProductColumn self.now.parent.factors self.now.parent.rank column.now.items }
        ensures equivalent { AreEquivalent self.now.mode (followed_by self.now.parent column.now.items) (followed_by self.now.parent result.items) }
        ensures column { IsProductColumn self.now.parent.factors self.now.parent.rank result.items }
    {
        self.parent.laws();
        let mut least = list_of(column.as_slice());
        for _ in 0..MOST_ROUNDS {
            let Some(lower) = self.lower(&least) else {
                return least;
            };
            least = lower;
        }
        least
    }

    /// Whether some move carries the column lower: whether the image of the column under one of the moves is below the column.
    pub fn has_lower(&self, column: &ProductColumn) -> bool
        requires { IsProductColumn self.now.parent.factors self.now.parent.rank column.now.items }
        ensures { IsTrue result ↔ HasLowerImage self.now column.now.items }
    {
        self.lower(column).is_some()
    }

    /// The first image of the column that is below it.
    fn lower(&self, column: &ProductColumn) -> Option<ProductColumn>
        requires { IsProductColumn self.now.parent.factors self.now.parent.rank column.now.items }
        ensures { MatchOption result (¬ (HasLowerImage self.now column.now.items))
            (λ lower. IsLowerImage self.now column.now.items lower.items) }
    {
        self.parent.laws();
        for i in 0..self.len() {
            let image = self.image(i, column);
            if is_below(&image, column) {
                return Some(image);
            }
        }
        None
    }
}

/// Whether the first column is below the second.
fn is_below(first: &ProductColumn, second: &ProductColumn) -> bool
    ensures { IsTrue result ↔ (slice_cmp nat_cmp first.now.items second.now.items ≡ Less) }
{
    match first.as_slice().cmp(second.as_slice()) {
        Ordering::Less => true,
        Ordering::Equal | Ordering::Greater => false,
    }
}
