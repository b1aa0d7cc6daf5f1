// From a standard representation to the first frame.
ghost use Rattle.std.specs.Prelude.{◌≡◌, ◌≢◌, ◌<◌, ◌≤◌, ◌+◌, ◌*◌, ◌-◌, ◌↔◌, [], ◌∷◌, ◌++◌, ℕ, true, false, IfSome, length, slice_index, slice_index_or};
ghost use Rattle.matroid_theory.specs.Field.{IsOrder};
ghost use Rattle.matroid_theory.specs.Rep.{count, matrix, order, size, IsStandard, KeepsLimits, IsProductColumn};
ghost use Rattle.matroid_theory.specs.Matroid.{Agrees};
ghost use Rattle.form_search.specs.Search.{AreOfClass};
ghost use Rattle.form_states.specs.Codes.{AreCodes, AreColumnCodes, code};
ghost use Rattle.form_states.specs.States.{IsShapeOf, AreColumns};

use field_tables::Field;
use form_states::codes::Codes;
use form_states::columns::{Column, lead};
use form_states::lists::{Columns, Marks};
use form_states::numbers::Numbers;
use form_states::states::Shape;
use product_rep::{Factors, ProductColumn, Rep};

/// What the search knows of the representation; `first` says whether it ends where it first finds something better.
pub fn shape_of(rep: &Rep, first: bool) -> Shape
    requires agrees { Agrees rep.now }
    requires standard { IsStandard rep.now }
    ensures first { result.first ≡ first }
    ensures shape { IsShapeOf rep.now result.fields result.count result.rank result.size }
{
    let factors = rep.factors();
    Shape {
        fields: [
            field_at(&factors, 0),
            field_at(&factors, 1),
            field_at(&factors, 2),
        ],
        count: factors.count(),
        rank: rep.rank(),
        size: rep.size(),
        first,
    }
}

/// The field of factor `f`; GF(2) where there are fewer factors.
fn field_at(factors: &Factors, f: usize) -> Field
    ensures field { f < length factors.now → result ≡ slice_index factors.now f }
    ensures is_order { IsOrder result }
{
    if f < factors.count() {
        let field = factors.field(f);
        field.order();
        return field;
    }
    match Field::of(2) {
        Some(field) => {
            field.order();
            field
        }
        None => unreachable!(),
    }
}

/// The columns, those past the size zero.
pub fn columns_of(rep: &Rep, shape: &Shape) -> Columns
    requires { IsShapeOf rep.now shape.now.fields shape.now.count shape.now.rank shape.now.size }
    ensures codes { AreColumns shape.now.fields result }
    ensures columns { (e f i : ℕ) → e < size rep.now → f < count rep.now → i < rep.now.rank → code (slice_index_or result e []) f i ≡ matrix rep.now f i e }
{
    let mut columns = [[[0; 3]; 6]; 16];
    for e in 0..shape.size {
        columns[e] = column_of(rep, shape, e);
    }
    columns
}

/// Column `e`, the rows past the rank zero.
fn column_of(rep: &Rep, shape: &Shape, e: usize) -> Column
    requires shape { IsShapeOf rep.now shape.now.fields shape.now.count shape.now.rank shape.now.size }
    requires element { e < size rep.now }
    ensures codes { AreColumnCodes shape.now.fields result }
    ensures column { (f i : ℕ) → f < count rep.now → i < rep.now.rank → code result f i ≡ matrix rep.now f i e }
{
    let codes = rep.column(e);
    let mut column = [[0; 3]; 6];
    for i in 0..shape.rank {
        column[i] = row_of(&codes, shape.count, i);
    }
    column
}

/// Row `i` of a column of `count` factors; 0 in the others.
fn row_of(codes: &ProductColumn, count: usize, i: usize) -> Codes
    requires row { i < 6 }
    requires count { count ≤ 3 }
    requires room { (i + 1) * count ≤ length codes.now.items }
    ensures codes { (f : ℕ) → f < count → slice_index result f ≡ slice_index codes.now.items (i * count + f) }
    ensures zeros { (f : ℕ) → count ≤ f → f < 3 → slice_index result f ≡ 0 }
{
    [
        code_at(codes, count, i, 0),
        code_at(codes, count, i, 1),
        code_at(codes, count, i, 2),
    ]
}

/// The code of row `i` in factor `f`; 0 where there are fewer factors.
fn code_at(codes: &ProductColumn, count: usize, i: usize, f: usize) -> u8
    requires row { i < 6 }
    requires count { count ≤ 3 }
    requires room { (i + 1) * count ≤ length codes.now.items }
    ensures code { f < count → result ≡ slice_index codes.now.items (i * count + f) }
    ensures zero { count ≤ f → result ≡ 0 }
{
    if f < count { codes[i * count + f] } else { 0 }
}

/// Marks the elements below `size` whose columns aren't zero.
pub fn nonzero_marks(columns: &Columns, rank: usize, size: usize) -> Marks
    requires rank { rank ≤ 6 }
    requires size { size ≤ 16 }
    ensures zeros { (e : ℕ) → e < size → slice_index_or result e false ≡ false → (i : ℕ) → i < rank → code (slice_index_or columns.now e []) 0 i ≡ 0 }
    ensures nonzero { (e : ℕ) → e < size → slice_index_or result e false ≡ true → (i : ℕ) × (i < rank) × (code (slice_index_or columns.now e []) 0 i ≢ 0) }
{
    let mut marks = [false; 16];
    for e in 0..size {
        marks[e] = is_nonzero(&columns[e], rank);
    }
    marks
}

/// Whether the column isn't zero in the rows before `rank`.
fn is_nonzero(column: &Column, rank: usize) -> bool
    requires { rank ≤ 6 }
    ensures zeros { result ≡ false → (i : ℕ) → i < rank → code column.now 0 i ≡ 0 }
    ensures nonzero { result ≡ true → (i : ℕ) × (i < rank) × (code column.now 0 i ≢ 0) }
{
    lead(column, rank) < rank
}
