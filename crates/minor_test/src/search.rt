// The search for the images of the elements, with one set contracted.
ghost use Rattle.std.specs.Prelude.{◌≡◌, ◌<◌, ◌≤◌, ◌+◌, ◌^◌, ◌↔◌, ℕ, [], ◌∷◌, ◌++◌, IsTrue, IsNone, IfSome, length, slice_index, slice_index_or, bit_or, Some, None};
ghost use Rattle.std.specs.List.{Contains};
ghost use Rattle.matroid_theory.specs.Rep.{size};
ghost use Rattle.matroid_theory.specs.Matrix.{size_below};
ghost use Rattle.matroid_theory.specs.Matroid.{members, IsBasis, IsIndependentIn};
ghost use Rattle.minor_test.specs.Twins.{AreTwinsOf, KeepsOrder};
ghost use Rattle.minor_test.specs.Searches.{AgreeBelow, AreImages, BeginsWith, CarriesNext, Embeds, IsNext};

use crate::sought::Sought;
use crate::table::{FullTable, SmallTable};
use crate::twins::Twins;
use crate::whole::Whole;
use arrayvec::ArrayVec;
use column_sets::{in_set, set_count};
use field_tables::Mask;
use small_lists::{followed_by, list_of};

/// A search for a matroid in a representation, with one set contracted.
#[derive(Drop)]
pub struct Search<'a> {
    pub whole: &'a Whole<'a>,
    pub sought: &'a Sought,
    /// For each element of the sought matroid a twin before it, if there is one.
    pub twins: &'a Twins,
    pub contracted: Mask,
}

/// The images of the first elements.
#[derive(Drop)]
pub struct Images {
    pub list: ArrayVec<u8, 10>,
    /// The images and the contracted set.
    pub used: Mask,
}

impl<'a> Search<'a> {
    /// Images of all elements that are an embedding. The sets are written over.
    pub fn find(&self, sets: &mut [Mask]) -> Option<ArrayVec<u8, 10>>
        requires rank { self.now.sought.now.rank ≤ self.now.whole.now.rank }
        requires set { self.now.contracted < 2 ^ size self.now.whole.now }
        requires twins { AreTwinsOf self.now.sought.now self.now.twins.now.items }
        requires sets { length sets.old ≡ 1024 }
        ensures found { IfSome result (λ list. Embeds self.now (slice_index list.items)) }
        ensures all { IfSome result (λ list. length list.items ≡ self.now.sought.now.size) }
        ensures none { IsNone result → (f : ℕ → ℕ) → KeepsOrder self.now.twins.now.items f → ¬ (Embeds self.now f) }
    {
        self.sought.laws();
        if !self.may_be_contracted() {
            return None;
        }
        let images = Images {
            list: ArrayVec::new(),
            used: self.contracted,
        };
        sets[0] = self.contracted;
        self.complete(&images, sets)
    }

    /// Whether the contracted set has as many elements as the rank falls by and is independent, and is a basis exactly where
    /// the sought matroid has the empty one. No other set need be contracted.
    fn may_be_contracted(&self) -> bool
        requires rank { self.now.sought.now.rank ≤ self.now.whole.now.rank }
        requires set { self.now.contracted < 2 ^ size self.now.whole.now }
        ensures { IsTrue result ↔ (
            (self.now.sought.now.rank + size_below (size self.now.whole.now) (members self.now.contracted) ≡ self.now.whole.now.rank) ×
            IsIndependentIn self.now.whole.now 0 (members self.now.contracted) ×
            (Contains self.now.sought.now.bases 0 ↔ IsBasis self.now.whole.now 0 (members self.now.contracted))) }
    {
        self.whole.laws();
        self.sought.rank() + self.contracted.count_ones() as usize == self.whole.rank()
            && self.whole.columns().is_independent(self.contracted)
            && self.sought.table().contains(0) == self.whole.table().contains(self.contracted)
    }

    /// Images of all elements that begin with these and are an embedding. Only images that keep the order of twins are gone
    /// through.
    ///
    /// For each set of the first elements, in the order of their masks, `sets` has their images and the contracted set. What
    /// comes after them is written over.
    fn complete(&self, images: &Images, sets: &mut [Mask]) -> Option<ArrayVec<u8, 10>>
        requires twins { AreTwinsOf self.now.sought.now self.now.twins.now.items }
        requires images { AreImages self.now images.now sets.old }
        requires sets { length sets.old ≡ 1024 }
        ensures found { IfSome result (λ list. Embeds self.now (slice_index list.items)) }
        ensures all { IfSome result (λ list. length list.items ≡ self.now.sought.now.size) }
        ensures none { IsNone result → (f : ℕ → ℕ) → BeginsWith images.now.list.items f → KeepsOrder self.now.twins.now.items f →
            ¬ (Embeds self.now f) }
        ensures kept { AgreeBelow (2 ^ length images.now.list.items) sets.old sets.new }
    {
        if images.list.len() == self.sought.size() {
            return Some(list_of(images.list.as_slice()));
        }
        let first = first_image(self.twins.as_slice(), images.list.as_slice());
        for image in first..self.whole.size() {
            if self.is_next(images, sets, image) {
                let longer = self.with_next(images, sets, image);
                let found = self.complete(&longer, sets);
                if found.is_some() {
                    return found;
                }
            }
        }
        None
    }

    /// Whether the next element may have this image.
    fn is_next(&self, images: &Images, sets: &[Mask], image: usize) -> bool
        requires images { AreImages self.now images.now sets.now }
        requires sets { length sets.now ≡ 1024 }
        requires room { length images.now.list.items < self.now.sought.now.size }
        requires image { image < size self.now.whole.now }
        ensures { IsTrue result ↔ IsNext self.now images.now.list.items image }
    {
        self.whole.laws();
        self.sought.laws();
        let count = reached(images);
        !in_set(images.used, image)
            && carries_next(
                self.sought.table(),
                self.whole.table(),
                &sets[..count],
                image,
            )
    }

    /// These images, and one for the next element.
    fn with_next(&self, images: &Images, sets: &mut [Mask], image: usize) -> Images
        requires images { AreImages self.now images.now sets.old }
        requires sets { length sets.old ≡ 1024 }
        requires room { length images.now.list.items < self.now.sought.now.size }
        requires image { image < size self.now.whole.now }
        requires next { IsNext self.now images.now.list.items image }
        ensures list { result.list.items ≡ images.now.list.items ++ image ∷ [] }
        ensures images { AreImages self.now result sets.new }
        ensures kept { AgreeBelow (2 ^ length images.now.list.items) sets.old sets.new }
    {
        self.whole.laws();
        self.sought.laws();
        add_next(sets, reached(images), image);
        Images {
            list: followed_by(images.list.as_slice(), image as u8),
            used: images.used | 1 << image,
        }
    }
}

/// The least image of the next element that keeps the order of twins.
fn first_image(twins: &[Option<u8>], images: &[u8]) -> usize
    requires twins { (i : ℕ) → slice_index_or twins.now (length images.now) None ≡ Some i → i < length images.now }
    ensures { (f : ℕ → ℕ) → BeginsWith images.now f → KeepsOrder twins.now f → result ≤ f (length images.now) }
{
    match twins.get(images.len()) {
        Some(Some(twin)) => usize::from(images[usize::from(*twin)]) + 1,
        _ => 0,
    }
}

/// The number of sets of the first elements.
fn reached(images: &Images) -> usize
    requires { length images.now.list.items < 10 }
    ensures value { result ≡ 2 ^ length images.now.list.items }
    ensures few { result ≤ 512 }
{
    set_count(images.list.len()) as usize
}

/// Whether each of the sets of elements with the next element is a basis exactly where its image with the contracted set is
/// one, by the tables of the bases of both.
fn carries_next(minor: &SmallTable, whole: &FullTable, sets: &[Mask], image: usize) -> bool
    requires image { image < 16 }
    requires few { length sets.now ≤ 512 }
    ensures { IsTrue result ↔ CarriesNext minor.now.words whole.now.words (length sets.now) sets.now image }
{
    let next = sets.len() as Mask;
    for (place, set) in sets.iter().enumerate() {
        if minor.contains(next + place as Mask) != whole.contains(*set | 1 << image) {
            return false;
        }
    }
    true
}

/// After the first sets writes each of them again, with this element too.
fn add_next(sets: &mut [Mask], count: usize, element: usize)
    requires element { element < 16 }
    requires few { count ≤ 512 }
    requires room { length sets.old ≡ 1024 }
    ensures kept { AgreeBelow count sets.old sets.new }
    ensures added { (X : ℕ) → X < count → slice_index sets.new (count + X) ≡ bit_or (slice_index sets.old X) (2 ^ element) }
{
    for place in 0..count {
        sets[count + place] = sets[place] | 1 << element;
    }
}
