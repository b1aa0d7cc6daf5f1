// What the planes of a representation tell of a new column.
ghost use Rattle.std.specs.Prelude.{◌≡◌, ◌<◌, ◌↔◌, ℕ, IsTrue, MatchOption, length, slice_index};
ghost use Rattle.std.specs.List.{All, Contains};
ghost use Rattle.elimination.specs.Columns.{column, IsColumn};
ghost use Rattle.matroid_theory.specs.Rep.{size, count, order, column_of, KeepsLimits, IsProductColumn};
ghost use Rattle.matroid_theory.specs.Level.{followed_by};
ghost use Rattle.extension.specs.Planes.{IsPlane, IsAlikeAt, LiesOnIn};
ghost use Rattle.extension.specs.declared.planes.Plane.{Plane};

use crate::admissible::part;
use crate::planes::Plane;
use arrayvec::ArrayVec;
use field_tables::Column;
use product_rep::{Factors, ProductColumn, Rep};

/// The rows of the first of the planes on which the column lies in some factors and not in others.
pub fn refusing_rows(rep: &Rep, planes: &[Plane], new: &ProductColumn) -> Option<usize>
    requires is_rep { KeepsLimits rep.now }
    requires room { size rep.now < 16 }
    requires planes { All (IsPlane rep.now) planes.now }
    requires column { IsProductColumn rep.now.factors rep.now.rank new.now.items }
    ensures { MatchOption result (All (IsAlikeAt rep.now new.now.items) planes.now)
        (λ rows. (plane : Plane) × Contains planes.now plane × (plane.rows ≡ rows) × ¬ (IsAlikeAt rep.now new.now.items plane)) }
{
    let factors = rep.factors();
    let parts = parts(rep, new);
    for plane in planes {
        if !is_alike_at(rep, &factors, new, plane, parts.as_slice()) {
            return Some(plane.rows);
        }
    }
    None
}

/// Whether the column, which has these parts, lies on the plane in every factor or in none.
fn is_alike_at(
    rep: &Rep,
    factors: &Factors,
    new: &ProductColumn,
    plane: &Plane,
    parts: &[Column],
) -> bool
    requires is_rep { KeepsLimits rep.now }
    requires room { size rep.now < 16 }
    requires factors { factors.now ≡ rep.now.factors }
    requires plane { IsPlane rep.now plane.now }
    requires column { IsProductColumn rep.now.factors rep.now.rank new.now.items }
    requires count { length parts.now ≡ count rep.now }
    requires parts { (f : ℕ) → f < count rep.now →
        column parts.now f ≡ column_of (followed_by rep.now new.now.items) f (size rep.now) }
    ensures { IsTrue result ↔ IsAlikeAt rep.now new.now.items plane.now }
{
    let first = lies_on(rep, factors, new, plane, parts, 0);
    for factor in 1..parts.len() {
        if lies_on(rep, factors, new, plane, parts, factor) != first {
            return false;
        }
    }
    true
}

/// Whether the column, which has these parts, lies on the plane in one factor.
fn lies_on(
    rep: &Rep,
    factors: &Factors,
    new: &ProductColumn,
    plane: &Plane,
    parts: &[Column],
    factor: usize,
) -> bool
    requires is_rep { KeepsLimits rep.now }
    requires room { size rep.now < 16 }
    requires factors { factors.now ≡ rep.now.factors }
    requires plane { IsPlane rep.now plane.now }
    requires column { IsProductColumn rep.now.factors rep.now.rank new.now.items }
    requires count { length parts.now ≡ count rep.now }
    requires factor { factor < count rep.now }
    requires part { column parts.now factor ≡ column_of (followed_by rep.now new.now.items) factor (size rep.now) }
    ensures { IsTrue result ↔ LiesOnIn (followed_by rep.now new.now.items) plane.now.normals.items (size rep.now) factor }
{
    let _rep = rep;
    let _new = new;
    factors
        .field(factor)
        .sum_of_products(plane.normals[factor].as_slice(), parts[factor].as_slice())
        == 0
}

/// The column, factor by factor.
fn parts(rep: &Rep, new: &ProductColumn) -> ArrayVec<Column, 3>
    requires is_rep { KeepsLimits rep.now }
    requires column { IsProductColumn rep.now.factors rep.now.rank new.now.items }
    ensures count { length result.items ≡ count rep.now }
    ensures parts { (f : ℕ) → f < count rep.now →
        column result.items f ≡ column_of (followed_by rep.now new.now.items) f (size rep.now) }
{
    let mut parts = ArrayVec::new();
    for factor in 0..rep.factors().count() {
        parts.push(part(rep, new, factor));
    }
    parts
}
