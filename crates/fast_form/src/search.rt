// The search: row by row from the last, and in a row column by column.
ghost use Rattle.std.specs.Prelude.{true, false, ◌↔◌, ◌≡◌, ◌≢◌, ◌<◌, ◌≤◌, ◌+◌, ◌∷◌, [], ◌++◌, ◌||◌, ℕ, List, IfSome, length, slice_index, slice_index_or, suc};
ghost use Rattle.std.specs.Option.{MatchOption};
ghost use Rattle.matroid_theory.specs.Rep.{size};
ghost use Rattle.matroid_theory.specs.Rep.{Rep as Matrices};
ghost use Rattle.matroid_theory.specs.Move.{Move};
ghost use Rattle.form_trails.specs.Trail.{Trail, ReachesForm, Follows};
ghost use Rattle.form_search.specs.Search.{IsFrame, IsPlacing, IsThere, IsAtMost, Stands, AreOfClass, Improves, Covers, numbers_of};
ghost use Rattle.form_states.specs.States.{IsShapeOf, AreColumns, AreGroups, entries_of, layer_of, rest_of, AreLeastNumbers, IsLeastNumber, IsLeastOf};
ghost use Rattle.form_states.specs.Steps.{AreStateCodes, AreNumbered};

use form_states::above::{gives_up, leaves, next_within};
use form_states::lists::{Columns, next_columns, pivoted_columns};
use form_states::numbers::Numbers;
use form_states::states::{Frame, Row, Shape, State};
use form_states::steps::{
    chosen, least_of, next_frame, numbers_are_least, placed, placed_column, placed_scalars, row_of,
    standing,
};
use product_rep::Rep;

/// Goes through the elements for row `k`. Answers whether what was found was replaced.
#[cycle(search)]
pub fn rows(
    rep: &Rep,
    shape: &Shape,
    k: usize,
    columns: &Columns,
    frame: &Frame,
    settled: &Numbers,
    best: &mut Option<Numbers>,
    level: bool,
) -> bool
    requires shape { IsShapeOf rep.now shape.now.fields shape.now.count shape.now.rank shape.now.size }
    requires row { k < rep.now.rank }
    requires columns { AreColumns shape.now.fields columns.now }
    requires groups { AreGroups frame.now.groups }
    requires state { (d : Trail) × IsFrame rep.now (suc k) (slice_index frame.now.groups) settled.now (entries_of rep.now columns.now frame.now.there) d }
    requires sound { IfSome best.old (AreOfClass rep.now) }
    requires stands { Stands level best.old settled.now }
    ensures improves { Improves rep.now best.old best.new settled.now result }
    ensures covers { (shape.now.first ≡ true → result ≡ false) → (d : Trail) → IsFrame rep.now (suc k) (slice_index frame.now.groups) settled.now (entries_of rep.now columns.now frame.now.there) d →
        Covers rep.now d (suc k) (length settled.now) best.new }
{
    let mut abreast = level;
    let mut better = false;
    for b in 0..shape.size {
        if frame.there[b] {
            let row = row_of(rep, shape, k, columns, frame, b);
            let low = next_within(shape, k, best, settled, abreast);
            if !leaves(shape, k, columns, &row.class, b, low) {
                let layer = pivoted_columns(shape, columns, &row.class, &row.minus, row.p, k);
                let state = chosen(rep, shape, k, columns, frame, b, &row, &layer);
                let found = place(
                    rep, shape, k, columns, &row, &layer, &state, settled, best, abreast,
                );
                if stops(shape, found) {
                    return true;
                }
                abreast = either(abreast, found);
                better = either(better, found);
            }
        }
    }
    better
}

/// Places the open elements of row `k`.
#[cycle(search)]
pub fn place(
    rep: &Rep,
    shape: &Shape,
    k: usize,
    columns: &Columns,
    row: &Row,
    layer: &Columns,
    state: &State,
    settled: &Numbers,
    best: &mut Option<Numbers>,
    level: bool,
) -> bool
    requires shape { IsShapeOf rep.now shape.now.fields shape.now.count shape.now.rank shape.now.size }
    requires row { k < rep.now.rank }
    requires codes { AreStateCodes shape.now.fields shape.now.rank columns.now row.now.p row.now.minus layer.now state.now.scalars state.now.groups }
    requires numbered { AreNumbered shape.now.fields shape.now.count shape.now.rank shape.now.size layer.now state.now.scalars state.now.open state.now.groups state.now.numbers }
    requires state { (d : Trail) × IsPlacing rep.now k (slice_index state.now.groups) settled.now (layer_of rep.now layer.now state.now.scalars state.now.open) (rest_of rep.now k columns.now row.now.p row.now.minus state.now.scalars row.now.rest) d }
    requires sound { IfSome best.old (AreOfClass rep.now) }
    requires stands { Stands level best.old settled.now }
    ensures improves { Improves rep.now best.old best.new settled.now result }
    ensures covers { (shape.now.first ≡ true → result ≡ false) → (d : Trail) →
        IsPlacing rep.now k (slice_index state.now.groups) settled.now (layer_of rep.now layer.now state.now.scalars state.now.open) (rest_of rep.now k columns.now row.now.p row.now.minus state.now.scalars row.now.rest) d →
        Covers rep.now d k (length settled.now) best.new }
{
    numbers_are_least(rep, shape, k, columns, row, layer, state);
    match least_of(rep, shape, layer, state) {
        None => next_row(
            rep, shape, k, columns, row, layer, state, settled, best, level,
        ),
        Some(low) => match standing(level, best, settled, low) {
            None => false,
            Some(level) => place_each(
                rep, shape, k, columns, row, layer, state, low, settled, best, level,
            ),
        },
    }
}

/// Places each open element that has the least number.
#[cycle(search)]
fn place_each(
    rep: &Rep,
    shape: &Shape,
    k: usize,
    columns: &Columns,
    row: &Row,
    layer: &Columns,
    state: &State,
    low: u128,
    settled: &Numbers,
    best: &mut Option<Numbers>,
    level: bool,
) -> bool
    requires shape { IsShapeOf rep.now shape.now.fields shape.now.count shape.now.rank shape.now.size }
    requires row { k < rep.now.rank }
    requires codes { AreStateCodes shape.now.fields shape.now.rank columns.now row.now.p row.now.minus layer.now state.now.scalars state.now.groups }
    requires numbered { AreNumbered shape.now.fields shape.now.count shape.now.rank shape.now.size layer.now state.now.scalars state.now.open state.now.groups state.now.numbers }
    requires state { (d : Trail) × IsPlacing rep.now k (slice_index state.now.groups) settled.now (layer_of rep.now layer.now state.now.scalars state.now.open) (rest_of rep.now k columns.now row.now.p row.now.minus state.now.scalars row.now.rest) d }
    requires numbers { AreLeastNumbers rep.now (slice_index state.now.groups) (layer_of rep.now layer.now state.now.scalars state.now.open) state.now.numbers }
    requires low { IsLeastOf (layer_of rep.now layer.now state.now.scalars state.now.open) state.now.numbers low }
    requires sound { IfSome best.old (AreOfClass rep.now) }
    requires stands { (longer : List ℕ) → longer ≡ settled.now ++ low ∷ [] → Stands level best.old longer }
    ensures improves { Improves rep.now best.old best.new settled.now result }
    ensures covers { (shape.now.first ≡ true → result ≡ false) → (d : Trail) →
        IsPlacing rep.now k (slice_index state.now.groups) settled.now (layer_of rep.now layer.now state.now.scalars state.now.open) (rest_of rep.now k columns.now row.now.p row.now.minus state.now.scalars row.now.rest) d →
        Covers rep.now d k (length settled.now) best.new }
{
    let longer = settled.followed_by(low);
    let mut abreast = level;
    let mut better = false;
    for e in 0..shape.size {
        if state.open[e] && state.numbers[e] == low {
            let found = place_one(
                rep, shape, k, columns, row, layer, state, e, low, settled, &longer, best, abreast,
            );
            if stops(shape, found) {
                return true;
            }
            abreast = either(abreast, found);
            better = either(better, found);
        }
    }
    better
}

/// Places an open element that has the least number, and then the others.
#[cycle(search)]
fn place_one(
    rep: &Rep,
    shape: &Shape,
    k: usize,
    columns: &Columns,
    row: &Row,
    layer: &Columns,
    state: &State,
    e: usize,
    low: u128,
    settled: &Numbers,
    longer: &Numbers,
    best: &mut Option<Numbers>,
    level: bool,
) -> bool
    requires shape { IsShapeOf rep.now shape.now.fields shape.now.count shape.now.rank shape.now.size }
    requires row { k < rep.now.rank }
    requires codes { AreStateCodes shape.now.fields shape.now.rank columns.now row.now.p row.now.minus layer.now state.now.scalars state.now.groups }
    requires numbered { AreNumbered shape.now.fields shape.now.count shape.now.rank shape.now.size layer.now state.now.scalars state.now.open state.now.groups state.now.numbers }
    requires state { (d : Trail) × IsPlacing rep.now k (slice_index state.now.groups) settled.now (layer_of rep.now layer.now state.now.scalars state.now.open) (rest_of rep.now k columns.now row.now.p row.now.minus state.now.scalars row.now.rest) d }
    requires element { IsThere (layer_of rep.now layer.now state.now.scalars state.now.open) e }
    requires number { IsLeastNumber rep.now (slice_index state.now.groups) (λ f i. (layer_of rep.now layer.now state.now.scalars state.now.open).codes e f i) low }
    requires longer { longer.now ≡ settled.now ++ low ∷ [] }
    requires sound { IfSome best.old (AreOfClass rep.now) }
    requires stands { Stands level best.old longer.now }
    ensures improves { Improves rep.now best.old best.new longer.now result }
    ensures covers { (shape.now.first ≡ true → result ≡ false) → (d : Trail) →
        IsPlacing rep.now k (slice_index state.now.groups) settled.now (layer_of rep.now layer.now state.now.scalars state.now.open) (rest_of rep.now k columns.now row.now.p row.now.minus state.now.scalars row.now.rest) d →
        (m : Move) (N : Matrices) → ReachesForm rep.now m N → Follows rep.now d k (length settled.now) m → m.label (rep.now.rank + length settled.now) ≡ e →
        IsAtMost best.new (numbers_of rep.now N) }
{
    let column = placed_column(shape, layer, state, e);
    let scalars = placed_scalars(shape, state, &column);
    let next = placed(
        rep, shape, k, columns, row, layer, state, e, &column, &scalars,
    );
    place(
        rep, shape, k, columns, row, layer, &next, longer, best, level,
    )
}

/// Goes on to the row before row `k`, where no element is open.
#[cycle(search)]
fn next_row(
    rep: &Rep,
    shape: &Shape,
    k: usize,
    columns: &Columns,
    row: &Row,
    layer: &Columns,
    state: &State,
    settled: &Numbers,
    best: &mut Option<Numbers>,
    level: bool,
) -> bool
    requires shape { IsShapeOf rep.now shape.now.fields shape.now.count shape.now.rank shape.now.size }
    requires row { k < rep.now.rank }
    requires codes { AreStateCodes shape.now.fields shape.now.rank columns.now row.now.p row.now.minus layer.now state.now.scalars state.now.groups }
    requires state { (d : Trail) × IsPlacing rep.now k (slice_index state.now.groups) settled.now (layer_of rep.now layer.now state.now.scalars state.now.open) (rest_of rep.now k columns.now row.now.p row.now.minus state.now.scalars row.now.rest) d }
    requires none { (e : ℕ) → IsThere (layer_of rep.now layer.now state.now.scalars state.now.open) e → ⊥ }
    requires sound { IfSome best.old (AreOfClass rep.now) }
    requires stands { Stands level best.old settled.now }
    ensures improves { Improves rep.now best.old best.new settled.now result }
    ensures covers { (shape.now.first ≡ true → result ≡ false) → (d : Trail) →
        IsPlacing rep.now k (slice_index state.now.groups) settled.now (layer_of rep.now layer.now state.now.scalars state.now.open) (rest_of rep.now k columns.now row.now.p row.now.minus state.now.scalars row.now.rest) d →
        Covers rep.now d k (length settled.now) best.new }
{
    if gives_up(shape, k, best, settled, level) {
        return false;
    }
    if k == 0 {
        return keep(rep, shape, columns, row, layer, state, settled, best, level);
    }
    let after = next_columns(
        shape,
        columns,
        &row.rest,
        &row.minus,
        row.p,
        k,
        &state.scalars,
    );
    let frame = next_frame(rep, shape, k, columns, row, layer, state, &after);
    rows(rep, shape, k - 1, &after, &frame, settled, best, level)
}

/// Keeps the settled numbers, where all columns are placed, unless they are those that were found.
fn keep(
    rep: &Rep,
    shape: &Shape,
    columns: &Columns,
    row: &Row,
    layer: &Columns,
    state: &State,
    settled: &Numbers,
    best: &mut Option<Numbers>,
    level: bool,
) -> bool
    requires shape { IsShapeOf rep.now shape.now.fields shape.now.count shape.now.rank shape.now.size }
    requires state { (d : Trail) × IsPlacing rep.now 0 (slice_index state.now.groups) settled.now (layer_of rep.now layer.now state.now.scalars state.now.open) (rest_of rep.now 0 columns.now row.now.p row.now.minus state.now.scalars row.now.rest) d }
    requires none { (e : ℕ) → IsThere (layer_of rep.now layer.now state.now.scalars state.now.open) e → ⊥ }
    requires sound { IfSome best.old (AreOfClass rep.now) }
    requires stands { Stands level best.old settled.now }
    ensures improves { Improves rep.now best.old best.new settled.now result }
    ensures covers { (shape.now.first ≡ true → result ≡ false) → (d : Trail) →
        IsPlacing rep.now 0 (slice_index state.now.groups) settled.now (layer_of rep.now layer.now state.now.scalars state.now.open) (rest_of rep.now 0 columns.now row.now.p row.now.minus state.now.scalars row.now.rest) d →
        Covers rep.now d 0 (length settled.now) best.new }
{
    if level {
        return false;
    }
    *best = Some(settled.copy());
    true
}

/// Whether one of these is true.
fn either(one: bool, other: bool) -> bool
    ensures { result ≡ (one || other) }
{
    one || other
}

/// Whether the search ends here.
fn stops(shape: &Shape, found: bool) -> bool
    ensures { (result ≡ true) ↔ ((shape.now.first ≡ true) × (found ≡ true)) }
{
    shape.first && found
}
