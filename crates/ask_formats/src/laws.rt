//! Laws over the definitions, each the contract of a function with an empty body.
ghost use Rattle.std.specs.Prelude.{◌≡◌, ◌↔◌, ◌++◌, ℕ, List};
ghost use Rattle.matroid_theory.specs.Rep.{Rep};
ghost use Rattle.ask_formats.specs.Question.{Question, Asks, MayAsk, CanBeSpelled, representation_words};
ghost use Rattle.ask_formats.specs.Answer.{IsAnswer};
ghost use Rattle.ask_formats.specs.Places.{IsReadAs};

/// Words ask at most one question, so they spell at most one representation.
pub fn one_question()
    ensures question { (words : List (List ℕ)) (a b : Question) → Asks words a → Asks words b → a ≡ b }
    ensures representation { (M N : Rep) → CanBeSpelled M → CanBeSpelled N → representation_words M ≡ representation_words N → M ≡ N }
{}

/// A question has at most one answer line.
pub fn one_answer()
    ensures { (question : Question) (line other : List ℕ) → MayAsk question →
        IsAnswer question line → IsAnswer question other → line ≡ other }
{}

/// What the words of a representation are, one by one.
pub fn by_places()
    ensures { (words : List (List ℕ)) (M : Rep) → CanBeSpelled M →
        (words ≡ representation_words M) ↔ IsReadAs words M }
{}
