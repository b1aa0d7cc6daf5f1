// The search through the row scalars for one ordered basis.
ghost use Rattle.std.specs.Prelude.{◌≡◌, ◌≢◌, ◌⊎◌, ◌<◌, ◌+◌, ◌*◌, ℕ, List, IfSome, slice_index};
ghost use Rattle.matroid_theory.specs.Field.{times};
ghost use Rattle.matroid_theory.specs.Rep.{count, order, IsProductColumn};
ghost use Rattle.canonical_form.specs.Search.{AreOfClass, AreOtherCoordinates, AreScalars, IsCandidate, IsOrderedBasis, IsScaled};
ghost use Rattle.canonical_form.specs.Found.{IsAtMost, CoversScalars, AreFirstScalars};

use crate::columns::{ColumnList, ColumnNumbers};
use arrayvec::ArrayVec;
use product_rep::{ProductColumn, Rep};
use small_lists::followed_by;
use std::cmp::Ordering;

/// An ordered basis, with the coordinates of the other columns.
#[derive(Drop)]
pub struct Frame {
    pub basis: ColumnNumbers,
    pub coordinates: ColumnList,
}

/// Keeps the least of what is found with this ordered basis, and with row scalars that begin with these.
pub fn try_scalars(rep: &Rep, frame: &Frame, scalars: &ProductColumn, best: &mut Option<ColumnList>)
    requires basis { IsOrderedBasis rep.now frame.now.basis.items }
    requires coordinates { AreOtherCoordinates rep.now frame.now.basis.items frame.now.coordinates }
    requires scalars { AreFirstScalars rep.now scalars.now.items }
    requires sound { IfSome best.old (AreOfClass rep.now) }
    ensures sound { IfSome best.new (AreOfClass rep.now) }
    ensures lower { (others : List (List ℕ)) → IsAtMost best.old others → IsAtMost best.new others }
    ensures covers { CoversScalars rep.now frame.now.basis.items scalars.now.items best.new }
{
    rep.laws();
    let factors = rep.factors();
    let count = factors.count();
    let place = scalars.len();
    if place == rep.rank() * count {
        keep_less(best, candidate(rep, frame, scalars));
        return;
    }
    // Row 0 keeps the scalars 1: the scalars of the columns make up for any other choice.
    let end = if place < count {
        2
    } else {
        factors.field(place % count).order()
    };
    for code in 1..end {
        try_scalars(rep, frame, &followed_by(scalars.as_slice(), code), best);
    }
}

/// Keeps the less of what was found and these columns.
fn keep_less(best: &mut Option<ColumnList>, columns: ColumnList)
    ensures either { (best.new ≡ best.old) ⊎ (best.new ≡ Some columns) }
    ensures at_most { IsAtMost best.new columns }
    ensures lower { (others : List (List ℕ)) → IsAtMost best.old others → IsAtMost best.new others }
{
    if let Some(least) = best {
        if least.compare(&columns) != Ordering::Greater {
            return;
        }
    }
    *best = Some(columns);
}

/// The columns with the frame's coordinates, scaled, in rising order.
fn candidate(rep: &Rep, frame: &Frame, scalars: &ProductColumn) -> ColumnList
    requires coordinates { AreOtherCoordinates rep.now frame.now.basis.items frame.now.coordinates }
    requires scalars { AreScalars rep.now scalars.now.items }
    ensures { IsCandidate rep.now frame.now.basis.items scalars.now.items result }
{
    let mut columns = ColumnList::new();
    for column in frame.coordinates.as_slice() {
        columns.push(scaled(rep, scalars, column));
    }
    columns.sort();
    columns
}

/// The column with its rows multiplied by the scalars, and then each factor scaled so that its first code that isn't 0 is 1.
fn scaled(rep: &Rep, scalars: &ProductColumn, column: &ProductColumn) -> ProductColumn
    requires scalars { AreScalars rep.now scalars.now.items }
    requires column { IsProductColumn rep.now.factors rep.now.rank column.now.items }
    ensures { IsScaled rep.now scalars.now.items column.now.items result.items }
{
    let factors = rep.factors();
    let count = factors.count();
    let products = products(rep, scalars, column);
    let mut scales: ArrayVec<u8, 3> = ArrayVec::new();
    for factor in 0..count {
        scales.push(scale(rep, &products, factor));
    }
    let mut codes = ArrayVec::new();
    for place in 0..products.len() {
        let factor = place % count;
        codes.push(factors.field(factor).mul(scales[factor], products[place]));
    }
    codes
}

/// The column with its rows multiplied by the scalars.
fn products(rep: &Rep, scalars: &ProductColumn, column: &ProductColumn) -> ProductColumn
    requires scalars { IsProductColumn rep.now.factors rep.now.rank scalars.now.items }
    requires column { IsProductColumn rep.now.factors rep.now.rank column.now.items }
    ensures column { IsProductColumn rep.now.factors rep.now.rank result.items }
    ensures products { (i f : ℕ) → i < rep.now.rank → f < count rep.now → slice_index result.items (i * count rep.now + f) ≡
        times (order rep.now f) (slice_index scalars.now.items (i * count rep.now + f)) (slice_index column.now.items (i * count rep.now + f)) }
{
    let factors = rep.factors();
    let count = factors.count();
    let mut codes = ArrayVec::new();
    for place in 0..column.len() {
        codes.push(
            factors
                .field(place % count)
                .mul(scalars[place], column[place]),
        );
    }
    codes
}

/// What makes 1 of the first code of the factor that isn't 0; 1 where there is none.
fn scale(rep: &Rep, column: &ProductColumn, factor: usize) -> u8
    requires column { IsProductColumn rep.now.factors rep.now.rank column.now.items }
    requires factor { factor < count rep.now }
    ensures code { result < order rep.now factor }
    ensures nonzero { result ≢ 0 }
    ensures leads { (i : ℕ) → i < rep.now.rank →
        ((k : ℕ) → k < i → slice_index column.now.items (k * count rep.now + factor) ≡ 0) →
        slice_index column.now.items (i * count rep.now + factor) ≢ 0 →
        times (order rep.now factor) result (slice_index column.now.items (i * count rep.now + factor)) ≡ 1 }
{
    let factors = rep.factors();
    let field = factors.field(factor);
    for i in 0..rep.rank() {
        let code = column[i * factors.count() + factor];
        if code != 0 {
            return field.inv(code);
        }
    }
    1
}
