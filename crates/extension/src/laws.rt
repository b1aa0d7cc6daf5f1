//! A law over the definitions, the contract of a function with an empty body.
ghost use Rattle.std.specs.Prelude.{◌<◌, ℕ, List, [], map};
ghost use Rattle.std.specs.Iterator.{Drains};
ghost use Rattle.arrayvec.specs.ArrayVec.{ArrayVec};
ghost use Rattle.matroid_theory.specs.Rep.{Rep, count};
ghost use Rattle.extension.specs.Admissible.{GivesNext, AreAdmissible};

/// Calls of `next` up to the first `None` give exactly the columns by which the representation, of at least one factor, can
/// be extended, in rising order and each once.
pub fn whole_runs()
    ensures { (M : Rep) (given : List (ArrayVec ℕ)) → 0 < count M →
        Drains GivesNext (record { parent = M; last = [] }) given → AreAdmissible M (map (λ v. v.items) given) }
{}
