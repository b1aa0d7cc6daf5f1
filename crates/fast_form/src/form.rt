// The form of a standard representation.
ghost use Rattle.std.specs.Prelude.{is_some, ◌⊎◌, ◌≢◌, true, false, ◌↔◌, ◌≡◌, ◌<◌, ◌≤◌, ◌+◌, ◌-◌, ◌*◌, ◌/◌, ◌%◌, ◌^◌, ◌∷◌, [], ℕ, IfSome, length, slice_index, slice_index_or};
ghost use Rattle.matroid_theory.specs.declared.Mode.TheVariants.{Linear as linear};
ghost use Rattle.matroid_theory.specs.Rep.{shape, size, count, matrix, IsShaped, IsStandard};
ghost use Rattle.matroid_theory.specs.Matroid.{Agrees};
ghost use Rattle.std.specs.Cmp.Lexicographic.{slice_cmp};
ghost use Rattle.std.specs.Ordering.{nat_cmp};
ghost use Rattle.std.specs.declared.cmp.Ordering.TheVariants.{Greater};
ghost use Rattle.matroid_theory.specs.Rep.{Rep as Matrices};
ghost use Rattle.matroid_theory.specs.Move.{Move, AreEquivalent};
ghost use Rattle.form_trails.specs.Trail.{ReachesForm};
ghost use Rattle.matroid_theory.specs.Order.{IsForm};
ghost use Rattle.form_search.specs.Search.{AreOfClass, Stands, numbers_of};
ghost use Rattle.form_search.specs.Start.{CoversAll, IsStarted, IsZeroTest, zero_test};
ghost use Rattle.form_states.specs.Codes.{code};
ghost use Rattle.form_states.specs.States.{IsShapeOf, AreColumns, AreGroups};

use crate::search::rows;
use crate::start::{columns_of, nonzero_marks, shape_of};
use arrayvec::ArrayVec;
use form_states::codes::are_binary;
use form_states::groups::Groups;
use form_states::lists::{Columns, Marks, normalised_columns};
use form_states::numbers::Numbers;
use form_states::states::{Frame, Shape};
use form_states::weights::number;
use product_rep::{ProductColumn, Rep};

/// What a search found, and whether that took the place of what it began with.
#[derive(Drop)]
struct Outcome {
    best: Option<Numbers>,
    better: bool,
}

/// The form of the class of a standard representation whose factors agree.
pub fn least_of_standard(rep: &Rep) -> Rep
    requires agrees { Agrees rep.now }
    requires standard { IsStandard rep.now }
    ensures form { IsForm linear result }
    ensures equivalent { AreEquivalent linear rep.now result }
{
    rep.laws();
    let shape = shape_of(rep, false);
    match least_found(rep, &shape) {
        Some(numbers) => with_numbers(rep, &shape, &numbers),
        None => unreachable!(),
    }
}

/// Whether a standard representation whose factors agree is the form of its class, by a search that begins with its own columns
/// and ends with the first better ones; none where it has zero columns, so that the search begins with nothing.
pub fn decided(rep: &Rep) -> Option<bool>
    requires agrees { Agrees rep.now }
    requires standard { IsStandard rep.now }
    ensures { IfSome result (λ verdict. (verdict ≡ true) ↔ IsForm linear rep.now) }
{
    let shape = shape_of(rep, true);
    let found = found(rep, &shape);
    match &found.best {
        Some(least) => verdict(rep, &shape, least, found.better),
        None => None,
    }
}

/// The verdict on a representation by what was found, if this is its own list of numbers or below it.
fn verdict(rep: &Rep, shape: &Shape, least: &Numbers, better: bool) -> Option<bool>
    requires shape { IsShapeOf rep.now shape.now.fields shape.now.count shape.now.rank shape.now.size }
    requires class { AreOfClass rep.now least.now }
    requires own { better ≡ false → least.now ≡ numbers_of rep.now rep.now }
    requires covers { better ≡ false → (m : Move) (N : Matrices) → ReachesForm rep.now m N → slice_cmp nat_cmp least.now (numbers_of rep.now N) ≢ Greater }
    ensures { IfSome result (λ verdict. (verdict ≡ true) ↔ IsForm linear rep.now) }
{
    if !better {
        return Some(true);
    }
    let own = own_numbers(rep, shape, &columns_of(rep, shape));
    if least.is_below(&own) {
        return Some(false);
    }
    None
}

/// The numbers of the form's later columns.
fn least_found(rep: &Rep, shape: &Shape) -> Option<Numbers>
    requires shape { IsShapeOf rep.now shape.now.fields shape.now.count shape.now.rank shape.now.size }
    requires whole { shape.now.first ≡ false }
    ensures class { IfSome result (AreOfClass rep.now) }
    ensures covers { CoversAll rep.now result }
{
    found(rep, shape).best
}

/// What a search finds.
fn found(rep: &Rep, shape: &Shape) -> Outcome
    requires { IsShapeOf rep.now shape.now.fields shape.now.count shape.now.rank shape.now.size }
    ensures class { IfSome result.best (AreOfClass rep.now) }
    ensures own { result.better ≡ false → IfSome result.best (λ least. least ≡ numbers_of rep.now rep.now) }
    ensures covers { (shape.now.first ≡ true → result.better ≡ false) → CoversAll rep.now result.best }
{
    let columns = columns_of(rep, shape);
    let marks = nonzero_marks(&columns, shape.rank, shape.size);
    let groups = first_groups(shape);
    let settled = zero_numbers(rep, shape, &marks, &groups);
    let after = normalised_columns(shape, &columns);
    let frame = Frame {
        there: marks,
        groups,
    };
    let mut best = first_best(rep, shape, &columns, &settled);
    let level = best.is_some();
    let better = rows(
        rep,
        shape,
        shape.rank - 1,
        &after,
        &frame,
        &settled,
        &mut best,
        level,
    );
    Outcome { best, better }
}

/// Each row in a group of its own; all in one over GF(2), where no factors but 1 are there.
fn first_groups(shape: &Shape) -> Groups
    ensures groups { AreGroups result }
    ensures apart { (i l : ℕ) → i < 6 → l < 6 → slice_index result i ≡ slice_index result l → (i ≡ l) ⊎ ((f : ℕ) → f < 3 → slice_index shape.now.fields f ≡ 2) }
{
    if are_binary(&shape.fields) {
        [0; 6]
    } else {
        [0, 1, 2, 3, 4, 5]
    }
}

/// What the search begins with: the numbers of the later columns; none where columns are zero, since those come first.
fn first_best(rep: &Rep, shape: &Shape, columns: &Columns, settled: &Numbers) -> Option<Numbers>
    requires shape { IsShapeOf rep.now shape.now.fields shape.now.count shape.now.rank shape.now.size }
    requires codes { AreColumns shape.now.fields columns.now }
    requires columns { (e f i : ℕ) → e < size rep.now → f < count rep.now → i < rep.now.rank → code (slice_index_or columns.now e []) f i ≡ matrix rep.now f i e }
    ensures own { IfSome result (λ least. least ≡ numbers_of rep.now rep.now) }
    ensures stands { Stands (is_some result) result settled.now }
{
    if settled.len() != 0 {
        return None;
    }
    Some(own_numbers(rep, shape, columns))
}

/// The numbers of the later columns.
fn own_numbers(rep: &Rep, shape: &Shape, columns: &Columns) -> Numbers
    requires shape { IsShapeOf rep.now shape.now.fields shape.now.count shape.now.rank shape.now.size }
    requires codes { AreColumns shape.now.fields columns.now }
    requires columns { (e f i : ℕ) → e < size rep.now → f < count rep.now → i < rep.now.rank → code (slice_index_or columns.now e []) f i ≡ matrix rep.now f i e }
    ensures { result ≡ numbers_of rep.now rep.now }
{
    let mut numbers = Numbers::new();
    for e in shape.rank..shape.size {
        numbers = numbers.followed_by(number(&columns[e], shape.count, shape.rank));
    }
    numbers
}

/// The numbers of the zero columns, which come first.
fn zero_numbers(rep: &Rep, shape: &Shape, marks: &Marks, groups: &Groups) -> Numbers
    requires shape { IsShapeOf rep.now shape.now.fields shape.now.count shape.now.rank shape.now.size }
    requires test { IsZeroTest rep.now (zero_test marks.now) }
    requires apart { (i l : ℕ) → i < 6 → l < 6 → slice_index groups.now i ≡ slice_index groups.now l → (i ≡ l) ⊎ ((f : ℕ) → f < 3 → slice_index shape.now.fields f ≡ 2) }
    ensures { IsStarted rep.now (slice_index groups.now) (zero_test marks.now) shape.now.size result }
{
    let mut settled = Numbers::new();
    for e in 0..shape.size {
        if !marks[e] {
            settled = settled.followed_by(0);
        }
    }
    settled
}

/// The standard representation of that shape with these numbers.
fn with_numbers(rep: &Rep, shape: &Shape, numbers: &Numbers) -> Rep
    requires shape { IsShapeOf rep.now shape.now.fields shape.now.count shape.now.rank shape.now.size }
    requires class { AreOfClass rep.now numbers.now }
    ensures { (class : AreOfClass rep.now numbers.now) × (result ≡ class.member) }
{
    let mut form = Rep::unit(rep.factors(), rep.rank() as u8);
    form.laws();
    for j in 0..numbers.len() {
        form.push_column(&digits_of(numbers.get(j), shape.rank * shape.count));
    }
    form
}

/// The digits in base 16 of a number, the highest first.
fn digits_of(number: u128, width: usize) -> ProductColumn
    requires { width ≤ 18 }
    ensures rows { length result.items ≡ width }
    ensures digits { (e : ℕ) → e < width → slice_index result.items e ≡ number / 16 ^ (width - 1 - e) % 16 }
{
    let mut digits = ArrayVec::new();
    for e in 0..width {
        digits.push(((number >> (4 * (width - 1 - e))) % 16) as u8);
    }
    digits
}
