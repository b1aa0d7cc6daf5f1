ghost use Rattle.std.specs.Prelude.{◌≡◌, ◌<◌, ◌≤◌, ◌+◌, ◌^◌, ◌↔◌, IsTrue, IsFalse, IsNone, IfSome, length, slice_index};
ghost use Rattle.matroid_theory.specs.Rep.{size};
ghost use Rattle.matroid_theory.specs.Matroid.{members, Agrees};
ghost use Rattle.matroid_theory.specs.Minor.{IsMinorBy, IsMinor};

use crate::search::Search;
use crate::sought::Sought;
use crate::whole::Whole;
use arrayvec::ArrayVec;
use column_sets::set_count;
use field_tables::Mask;
use named_matroids::Minor;
use product_rep::Rep;

/// Where a minor was found: the images of its elements, and the set that is contracted. The other elements are deleted.
#[derive(Drop)]
pub struct Embedding {
    /// The column of each element, in their order.
    pub image: ArrayVec<u8, 10>,
    /// Bit j stands for column j.
    pub contracted: Mask,
}

/// Whether the matroid is a minor of that of the first factor, and where (Oxley, chapter 3). It takes no memory.
pub fn has_minor(rep: &Rep, minor: &Minor) -> Option<Embedding>
    requires { Agrees rep.now }
    ensures found { IfSome result (λ e. IsMinorBy minor.now rep.now (slice_index e.image.items) (members e.contracted)) }
    ensures images { IfSome result (λ e. length e.image.items ≡ minor.now.size) }
    ensures contracted { IfSome result (λ e. e.contracted < 2 ^ size rep.now) }
    ensures none { IsNone result → ¬ (IsMinor minor.now rep.now) }
{
    if leaves_room(rep, minor) {
        find_minor(&Whole::of(rep), &Sought::of(minor))
    } else {
        None
    }
}

/// The same, where both are made ready.
pub fn find_minor(whole: &Whole, sought: &Sought) -> Option<Embedding>
    ensures found { IfSome result (λ e. IsMinorBy sought.now whole.now (slice_index e.image.items) (members e.contracted)) }
    ensures images { IfSome result (λ e. length e.image.items ≡ sought.now.size) }
    ensures contracted { IfSome result (λ e. e.contracted < 2 ^ size whole.now) }
    ensures none { IsNone result → ¬ (IsMinor sought.now whole.now) }
{
    whole.laws();
    if !leaves_room(whole.rep(), sought.minor()) {
        return None;
    }
    let twins = sought.twins();
    let mut sets = [0; 1024];
    for set in 0..set_count(whole.size()) {
        let contracted = set as Mask;
        let search = Search {
            // Lent again, since one lifetime stands for all that a search looks at.
            whole: &*whole,
            sought,
            twins,
            contracted,
        };
        if let Some(image) = search.find(&mut sets) {
            return Some(Embedding { image, contracted });
        }
    }
    None
}

/// Whether the rank of the matroid is at most that of the representation, and there are elements enough for the matroid and for
/// what is contracted. Where not, it is no minor.
pub fn leaves_room(rep: &Rep, minor: &Minor) -> bool
    ensures room { IsTrue result ↔ ((minor.now.rank ≤ rep.now.rank) × (minor.now.size + rep.now.rank ≤ size rep.now + minor.now.rank)) }
    ensures no_minor { IsFalse result → ¬ (IsMinor minor.now rep.now) }
{
    rep.laws();
    minor.laws();
    minor.rank() <= rep.rank() && minor.size() + rep.rank() <= rep.size() + minor.rank()
}
