// The steps of the search: from a frame to a state, from a state to the next, and to the next frame. The columns of each come first.
ghost use Rattle.std.specs.Prelude.{◌≡◌, ◌≢◌, ◌<◌, ◌≤◌, ◌+◌, ◌-◌, ◌*◌, ◌^◌, ◌∷◌, [], ◌++◌, ℕ, List, IfSome, IfNone, length, slice_index, slice_index_or, true, false};
ghost use Rattle.std.specs.Option.{MatchOption};
ghost use Rattle.matroid_theory.specs.Field.{times};
ghost use Rattle.form_trails.specs.Trail.{Trail};
ghost use Rattle.form_search.specs.Search.{IsPlacing, IsThere, Stands};
ghost use Rattle.form_states.specs.Codes.{AreColumnCodes, code};
ghost use Rattle.form_states.specs.States.{IsShapeOf, AreLimits, AreColumns, AreGroups, entries_of, layer_of, rest_of, AreLeastNumbers, IsLeastOf, marked};
ghost use Rattle.form_states.specs.Steps.{IsRow, ArePivoted, AreNext, AreStateCodes, AreNumbered, AreScaled, Chooses, Places, Leads};

use crate::columns::{Column, agree_before, lead, negative_column, scaled_column};
use crate::groups::{Groups, group_factors, row_factors, tied_groups};
use crate::lists::{Columns, Marks, heads, least_marked, marked_numbers, other_heads, without};
use crate::numbers::Numbers;
use crate::states::{Frame, Row, Shape, State};
use product_rep::Rep;

/// Element `b` as that of row `k`.
pub fn row_of(rep: &Rep, shape: &Shape, k: usize, columns: &Columns, frame: &Frame, b: usize) -> Row
    requires shape { IsShapeOf rep.now shape.now.fields shape.now.count shape.now.rank shape.now.size }
    requires row { k < rep.now.rank }
    requires columns { AreColumns shape.now.fields columns.now }
    requires element { b < 16 }
    requires led { (i : ℕ) × (i ≤ k) × (code (slice_index_or columns.now b []) 0 i ≢ 0) }
    ensures { IsRow shape.now.fields shape.now.count shape.now.rank shape.now.size k columns.now frame.now.there b result.p result.minus result.class result.rest }
{
    let class = heads(shape, columns, &frame.there, &columns[b], k + 1, b);
    let rest = other_heads(shape, columns, &frame.there, &columns[b], k + 1, b, &class);
    Row {
        p: lead(&columns[b], k + 1),
        minus: negative_column(shape, &columns[b]),
        class,
        rest,
    }
}

/// The state after element `b` is chosen for row `k`.
pub fn chosen(
    rep: &Rep,
    shape: &Shape,
    k: usize,
    columns: &Columns,
    frame: &Frame,
    b: usize,
    row: &Row,
    layer: &Columns,
) -> State
    requires shape { IsShapeOf rep.now shape.now.fields shape.now.count shape.now.rank shape.now.size }
    requires row { k < rep.now.rank }
    requires columns { AreColumns shape.now.fields columns.now }
    requires groups { AreGroups frame.now.groups }
    requires element { IsThere (entries_of rep.now columns.now frame.now.there) b }
    requires chosen { IsRow shape.now.fields shape.now.count shape.now.rank shape.now.size k columns.now frame.now.there b row.now.p row.now.minus row.now.class row.now.rest }
    requires layer { AreColumns shape.now.fields layer.now }
    requires pivoted { ArePivoted shape.now.fields shape.now.count shape.now.rank shape.now.size k columns.now row.now.p row.now.minus row.now.class layer.now }
    ensures codes { AreStateCodes shape.now.fields shape.now.rank columns.now row.now.p row.now.minus layer.now result.scalars result.groups }
    ensures numbered { AreNumbered shape.now.fields shape.now.count shape.now.rank shape.now.size layer.now result.scalars result.open result.groups result.numbers }
    ensures few { marked result.open ≤ 16 }
    ensures chooses { Chooses rep.now k (entries_of rep.now columns.now frame.now.there) frame.now.groups b
        (layer_of rep.now layer.now result.scalars result.open) (rest_of rep.now k columns.now row.now.p row.now.minus result.scalars row.now.rest) result.groups }
{
    let scalars = [[1; 3]; 6];
    State {
        open: row.class,
        scalars,
        groups: frame.groups,
        numbers: marked_numbers(shape, layer, &row.class, &scalars, &frame.groups),
    }
}

/// The column of element `e` with its rows multiplied.
pub fn placed_column(shape: &Shape, layer: &Columns, state: &State, e: usize) -> Column
    requires limits { AreLimits shape.now.fields shape.now.count shape.now.rank shape.now.size }
    requires layer { AreColumns shape.now.fields layer.now }
    requires scalars { AreColumnCodes shape.now.fields state.now.scalars }
    requires element { e < 16 }
    ensures codes { AreColumnCodes shape.now.fields result }
    ensures products { (f i : ℕ) → f < shape.now.count → i < shape.now.rank →
        code result f i ≡ times (slice_index shape.now.fields f) (code state.now.scalars f i) (code (slice_index_or layer.now e []) f i) }
{
    scaled_column(shape, &layer[e], &state.scalars)
}

/// The scalars after an open element with this column is placed.
pub fn placed_scalars(shape: &Shape, state: &State, column: &Column) -> Column
    requires limits { AreLimits shape.now.fields shape.now.count shape.now.rank shape.now.size }
    requires column { AreColumnCodes shape.now.fields column.now }
    requires scalars { AreColumnCodes shape.now.fields state.now.scalars }
    requires groups { AreGroups state.now.groups }
    ensures codes { AreColumnCodes shape.now.fields result }
    ensures scaled { AreScaled shape.now.fields shape.now.count (slice_index state.now.groups) shape.now.rank (code column.now) state.now.scalars result }
{
    let factors = group_factors(shape, column, &state.groups);
    scaled_column(shape, &state.scalars, &row_factors(&factors, &state.groups))
}

/// The state after open element `e` is placed.
pub fn placed(
    rep: &Rep,
    shape: &Shape,
    k: usize,
    columns: &Columns,
    row: &Row,
    layer: &Columns,
    state: &State,
    e: usize,
    column: &Column,
    scalars: &Column,
) -> State
    requires shape { IsShapeOf rep.now shape.now.fields shape.now.count shape.now.rank shape.now.size }
    requires row { k < rep.now.rank }
    requires codes { AreStateCodes shape.now.fields shape.now.rank columns.now row.now.p row.now.minus layer.now state.now.scalars state.now.groups }
    requires element { IsThere (layer_of rep.now layer.now state.now.scalars state.now.open) e }
    requires products { (f i : ℕ) → f < shape.now.count → i < shape.now.rank →
        code column.now f i ≡ times (slice_index shape.now.fields f) (code state.now.scalars f i) (code (slice_index_or layer.now e []) f i) }
    requires scalars { AreColumnCodes shape.now.fields scalars.now }
    requires scaled { AreScaled shape.now.fields shape.now.count (slice_index state.now.groups) shape.now.rank (code column.now) state.now.scalars scalars.now }
    requires numbered { AreNumbered shape.now.fields shape.now.count shape.now.rank shape.now.size layer.now state.now.scalars state.now.open state.now.groups state.now.numbers }
    ensures codes { AreStateCodes shape.now.fields shape.now.rank columns.now row.now.p row.now.minus layer.now result.scalars result.groups }
    ensures numbered { AreNumbered shape.now.fields shape.now.count shape.now.rank shape.now.size layer.now result.scalars result.open result.groups result.numbers }
    ensures fewer { marked result.open < marked state.now.open }
    ensures places { Places rep.now k state.now.groups
        (layer_of rep.now layer.now state.now.scalars state.now.open) (rest_of rep.now k columns.now row.now.p row.now.minus state.now.scalars row.now.rest) e
        (layer_of rep.now layer.now result.scalars result.open) (rest_of rep.now k columns.now row.now.p row.now.minus result.scalars row.now.rest) result.groups }
{
    let open = without(&state.open, e);
    let groups = tied_groups(column, &state.groups, shape.rank);
    State {
        open,
        scalars: *scalars,
        groups,
        numbers: next_numbers(shape, layer, state, &open, scalars, &groups),
    }
}

/// The numbers of these of the open elements, with these scalars and groups: those of the state, where it has the same ones.
fn next_numbers(
    shape: &Shape,
    layer: &Columns,
    state: &State,
    marks: &Marks,
    scalars: &Column,
    groups: &Groups,
) -> [u128; 16]
    requires limits { AreLimits shape.now.fields shape.now.count shape.now.rank shape.now.size }
    requires layer { AreColumns shape.now.fields layer.now }
    requires scalars { AreColumnCodes shape.now.fields scalars.now }
    requires groups { AreGroups groups.now }
    requires marks { (e : ℕ) → slice_index_or marks.now e false ≡ true → slice_index_or state.now.open e false ≡ true }
    requires numbered { AreNumbered shape.now.fields shape.now.count shape.now.rank shape.now.size layer.now state.now.scalars state.now.open state.now.groups state.now.numbers }
    ensures { AreNumbered shape.now.fields shape.now.count shape.now.rank shape.now.size layer.now scalars.now marks.now groups.now result }
{
    if has_same(shape, state, scalars, groups) {
        return state.numbers;
    }
    marked_numbers(shape, layer, marks, scalars, groups)
}

/// Whether these scalars and groups are those of the state.
fn has_same(shape: &Shape, state: &State, scalars: &Column, groups: &Groups) -> bool
    requires { AreLimits shape.now.fields shape.now.count shape.now.rank shape.now.size }
    ensures groups { result ≡ true → groups.now ≡ state.now.groups }
    ensures scalars { result ≡ true → (f i : ℕ) → f < shape.now.count → i < shape.now.rank → code scalars.now f i ≡ code state.now.scalars f i }
{
    *groups == state.groups && agree_before(shape.count, scalars, &state.scalars, shape.rank)
}

/// The frame of the elements outside, with these columns.
pub fn next_frame(
    rep: &Rep,
    shape: &Shape,
    k: usize,
    columns: &Columns,
    row: &Row,
    layer: &Columns,
    state: &State,
    after: &Columns,
) -> Frame
    requires shape { IsShapeOf rep.now shape.now.fields shape.now.count shape.now.rank shape.now.size }
    requires row { k < rep.now.rank }
    requires next { AreNext shape.now.fields shape.now.count shape.now.rank shape.now.size k columns.now row.now.p row.now.minus state.now.scalars row.now.rest after.now }
    ensures groups { result.groups ≡ state.now.groups }
    ensures leads { Leads rep.now k state.now.groups (layer_of rep.now layer.now state.now.scalars state.now.open)
        (rest_of rep.now k columns.now row.now.p row.now.minus state.now.scalars row.now.rest) (entries_of rep.now after.now result.there) }
{
    Frame {
        there: row.rest,
        groups: state.groups,
    }
}

/// The numbers of a state are the least that its open elements can have as the next column, for the proofs of callers.
pub fn numbers_are_least(
    rep: &Rep,
    shape: &Shape,
    k: usize,
    columns: &Columns,
    row: &Row,
    layer: &Columns,
    state: &State,
)
    requires shape { IsShapeOf rep.now shape.now.fields shape.now.count shape.now.rank shape.now.size }
    requires codes { AreStateCodes shape.now.fields shape.now.rank columns.now row.now.p row.now.minus layer.now state.now.scalars state.now.groups }
    requires numbered { AreNumbered shape.now.fields shape.now.count shape.now.rank shape.now.size layer.now state.now.scalars state.now.open state.now.groups state.now.numbers }
    ensures { (d : Trail) (settled : List ℕ) →
        IsPlacing rep.now k (slice_index state.now.groups) settled (layer_of rep.now layer.now state.now.scalars state.now.open)
        (rest_of rep.now k columns.now row.now.p row.now.minus state.now.scalars row.now.rest) d →
        AreLeastNumbers rep.now (slice_index state.now.groups) (layer_of rep.now layer.now state.now.scalars state.now.open) state.now.numbers }
{}

/// The least of the numbers of open elements; none where none is open.
pub fn least_of(rep: &Rep, shape: &Shape, layer: &Columns, state: &State) -> Option<u128>
    requires shape { IsShapeOf rep.now shape.now.fields shape.now.count shape.now.rank shape.now.size }
    ensures { MatchOption result ((e : ℕ) → IsThere (layer_of rep.now layer.now state.now.scalars state.now.open) e → ⊥)
        (λ low. IsLeastOf (layer_of rep.now layer.now state.now.scalars state.now.open) state.now.numbers low) }
{
    least_marked(&state.open, &state.numbers, shape.size)
}

/// How what is settled stands with this next number to what was found: level or not. None where it is above.
pub fn standing(level: bool, best: &Option<Numbers>, settled: &Numbers, low: u128) -> Option<bool>
    requires stands { Stands level best.now settled.now }
    requires room { IfSome best.now (λ least. length settled.now < length least) }
    ensures above { IfNone result (MatchOption best.now ⊥ (λ least. slice_index least (length settled.now) < low)) }
    ensures was_level { IfNone result (level ≡ true) }
    ensures stands { IfSome result (λ after. (longer : List ℕ) → longer ≡ settled.now ++ low ∷ [] → Stands after best.now longer) }
{
    if !level {
        return Some(false);
    }
    match best {
        None => Some(false),
        Some(least) => {
            let next = least.get(settled.len());
            if next < low { None } else { Some(next == low) }
        }
    }
}
