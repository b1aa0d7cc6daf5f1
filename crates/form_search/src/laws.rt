//! Laws over the definitions, each the contract of a function with an empty body.
ghost use Rattle.std.specs.Prelude.{◌≡◌, ◌≢◌, ℕ, List};
ghost use Rattle.std.specs.Cmp.Lexicographic.{slice_cmp};
ghost use Rattle.std.specs.Ordering.{nat_cmp};
ghost use Rattle.std.specs.declared.cmp.Ordering.TheVariants.{Greater as greater};
ghost use Rattle.matroid_theory.specs.Rep.{Rep as Matrices, shape, IsShaped, IsStandard};
ghost use Rattle.matroid_theory.specs.Matroid.{IsRepresentation};
ghost use Rattle.matroid_theory.specs.declared.Mode.TheVariants.{Linear as linear};
ghost use Rattle.matroid_theory.specs.Move.{Move, AreEquivalent};
ghost use Rattle.matroid_theory.specs.Order.{IsForm};
ghost use Rattle.form_trails.specs.Trail.{ReachesForm};
ghost use Rattle.form_search.specs.Search.{AreOfClass, numbers_of};

/// A search for the form of a class may look at forms alone. Where what was found are the numbers of the later columns of a
/// standard member of the class, and not above those of any form that a linear move reaches, the standard representation
/// with these numbers is the form of the class.
pub fn forms_suffice()
    ensures { (M N : Matrices) (found : List ℕ) → IsRepresentation M → AreOfClass M found →
        ((m : Move) (L : Matrices) → ReachesForm M m L → slice_cmp nat_cmp found (numbers_of M L) ≢ greater) →
        IsShaped N → IsStandard N → shape N ≡ shape M → numbers_of M N ≡ found →
        IsForm linear N × AreEquivalent linear M N }
{}
