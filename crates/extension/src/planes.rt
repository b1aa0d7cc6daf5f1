// The planes of a representation: each tells whether a new column extends a set of columns to a basis.
ghost use Rattle.std.specs.Prelude.{◌≡◌, ◌<◌, ◌≤◌, ◌+◌, ◌^◌, ◌↔◌, ℕ, IsTrue, IfSome, IsSome, true, false, length, slice_index};
ghost use Rattle.std.specs.List.{Contains};
ghost use Rattle.elimination.specs.Columns.{column, IsColumn, AreColumns};
ghost use Rattle.matroid_theory.specs.Matrix.{size_below};
ghost use Rattle.matroid_theory.specs.Rep.{size, count, order, column_of, KeepsLimits, IsStandard};
ghost use Rattle.matroid_theory.specs.Matroid.{members, IsIndependentIn, Agrees};
ghost use Rattle.bases.specs.FactorColumns.{IsFactorOf};
ghost use Rattle.extension.specs.Planes.{IsNormal, IsPlaneSet, IsWithin, IsPlane, IsCovered, ArePlanes, KnowsPlanes, LiesOn};
ghost use Rattle.extension.specs.declared.planes.Plane.{Plane};

use crate::normals::normal;
use arrayvec::ArrayVec;
use bases::FactorColumns;
use column_sets::{in_set, set_count};
use field_tables::{Column, Mask};
use product_rep::Rep;

/// A normal for each factor, the columns that lie on the plane in every factor, and a number of rows after which each normal
/// is 0: whether a column lies on the plane depends on its first rows alone.
#[derive(Default, Drop)]
pub struct Plane {
    pub normals: ArrayVec<Column, 3>,
    pub elements: Mask,
    pub rows: usize,
}

/// The planes of the sets of one column fewer than the rank whose masks are below `from`.
#[derive(Drop)]
pub struct Planes {
    pub list: ArrayVec<Plane, 512>,
    pub from: u32,
}

/// The planes of a representation of more than one factor, those of fewer rows first. One factor needs none.
pub fn planes_of(rep: &Rep) -> Option<Planes>
    requires standard { IsStandard rep.now }
    ensures { KnowsPlanes rep.now result }
{
    rep.laws();
    if rep.factors().count() == 1 {
        return None;
    }
    let mut planes = first_planes(rep);
    // Those of fewer rows come first, since one of them refuses more columns at once.
    let list = planes.list.as_mut_slice();
    list.sort_unstable_by_key(|plane| plane.rows);
    Some(planes)
}

/// The planes of a representation: of more than 512 the first are taken.
fn first_planes(rep: &Rep) -> Planes
    requires standard { IsStandard rep.now }
    ensures { ArePlanes rep.now result.list.items result.from }
{
    rep.laws();
    let first = FactorColumns::of(rep, 0);
    let mut list = ArrayVec::new();
    for set in 0..set_count(rep.size()) {
        if !is_covered(rep, &first, list.as_slice(), set as Mask) {
            let Some(plane) = plane_of(rep, set as Mask) else {
                return Planes { list, from: set };
            };
            if list.is_full() {
                return Planes { list, from: set };
            }
            list.push(plane);
        }
    }
    Planes {
        list,
        from: set_count(rep.size()),
    }
}

/// Whether the set needs no plane of its own: it hasn't one column fewer than the rank, lies on one of the planes, or is
/// dependent.
fn is_covered(rep: &Rep, first: &FactorColumns, planes: &[Plane], set: Mask) -> bool
    requires first { IsFactorOf rep.now 0 first.now.field first.now.columns.items }
    requires set { set < 2 ^ size rep.now }
    ensures yes { IsTrue result → IsPlaneSet rep.now set → IsCovered rep.now planes.now set }
    ensures no { result ≡ false → IsPlaneSet rep.now set × IsIndependentIn rep.now 0 (members set) }
{
    rep.laws();
    if set.count_ones() as usize + 1 != rep.rank() {
        return true;
    }
    is_on_one(rep, planes, set) || !first.is_independent(set)
}

/// Whether the columns in the set are elements of one of the planes.
fn is_on_one(rep: &Rep, planes: &[Plane], set: Mask) -> bool
    requires { size rep.now ≤ 16 }
    ensures { IsTrue result → ((plane : Plane) × Contains planes.now plane × IsWithin rep.now set plane) }
{
    let _rep = rep;
    for plane in planes {
        if is_subset(set, plane.elements) {
            return true;
        }
    }
    false
}

/// Whether each column in the set is in the other.
fn is_subset(set: Mask, of: Mask) -> bool
    ensures { IsTrue result → (j : ℕ) → members set j ≡ true → members of j ≡ true }
{
    set & of == set
}

/// The plane of an independent set of one column fewer than the rank, where the normals that are found are those of the set.
fn plane_of(rep: &Rep, set: Mask) -> Option<Plane>
    requires standard { IsStandard rep.now }
    requires set { IsPlaneSet rep.now set }
    requires independent { IsIndependentIn rep.now 0 (members set) }
    ensures plane { IfSome result (IsPlane rep.now) }
    ensures within { IfSome result (IsWithin rep.now set) }
{
    rep.laws();
    let mut normals: ArrayVec<Column, 3> = ArrayVec::new();
    let mut rows = 0;
    for factor in 0..rep.factors().count() {
        let normal = normal(rep, factor, set)?;
        rows = nonzero_length(normal.as_slice(), rows);
        normals.push(normal);
    }
    let elements = elements(rep, normals.as_slice());
    if is_subset(set, elements) {
        Some(Plane {
            normals,
            elements,
            rows,
        })
    } else {
        None
    }
}

/// The number of codes up to the last one that isn't 0, but no less than a given number.
fn nonzero_length(codes: &[u8], least: usize) -> usize
    requires { least ≤ length codes.now }
    ensures least { least ≤ result }
    ensures most { result ≤ length codes.now }
    ensures zeros { (i : ℕ) → result ≤ i → i < length codes.now → slice_index codes.now i ≡ 0 }
{
    for i in (least..codes.len()).rev() {
        if codes[i] != 0 {
            return i + 1;
        }
    }
    least
}

/// The columns that lie on the plane with these normals.
fn elements(rep: &Rep, normals: &[Column]) -> Mask
    requires count { length normals.now ≡ count rep.now }
    requires normals { (f : ℕ) → f < count rep.now → IsColumn (order rep.now f) rep.now.rank (column normals.now f) }
    ensures { (j : ℕ) → members result j ≡ true → (j < size rep.now) × LiesOn rep.now normals.now j }
{
    rep.laws();
    let mut elements: Mask = 0;
    for j in 0..rep.size() {
        if lies_on(rep, normals, j) {
            elements |= 1 << j;
        }
    }
    elements
}

/// Whether the column lies on the plane with these normals.
fn lies_on(rep: &Rep, normals: &[Column], j: usize) -> bool
    requires column { j < size rep.now }
    requires count { length normals.now ≡ count rep.now }
    requires normals { (f : ℕ) → f < count rep.now → IsColumn (order rep.now f) rep.now.rank (column normals.now f) }
    ensures { IsTrue result → LiesOn rep.now normals.now j }
{
    rep.laws();
    let factors = rep.factors();
    for factor in 0..factors.count() {
        let part = rep.factor_column(factor, j);
        if factors
            .field(factor)
            .sum_of_products(normals[factor].as_slice(), part.as_slice())
            != 0
        {
            return false;
        }
    }
    true
}
