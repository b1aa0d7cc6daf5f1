//! Laws of accepted words. Each function has an empty body, and its clause is the law.
ghost use Rattle.std.specs.Prelude.{◌≡◌, ◌↔◌, ℕ, List, [], Contains, filter_map};
ghost use Rattle.formats.specs.Words.{Piece, Orderly, IsCommand, StandsAtMacek, StandsAtAlone};
ghost use Rattle.command_words.specs.Asking.{workers_in};

/// Accepted words are read in one way.
pub fn one_reading()
    ensures at_macek { (words : List (List ℕ)) (pieces others : List Piece) →
        IsCommand StandsAtMacek words pieces → IsCommand StandsAtMacek words others → pieces ≡ others }
    ensures at_alone { (words : List (List ℕ)) (pieces others : List Piece) →
        IsCommand StandsAtAlone words pieces → IsCommand StandsAtAlone words others → pieces ≡ others }
{}

/// `macek_alone` accepts no words that name workers. But for those that ask for the orderly way it accepts the words of
/// `macek` that name none, and reads them in the same way.
pub fn alone_names_no_workers()
    ensures names_none { (words : List (List ℕ)) (pieces : List Piece) → IsCommand StandsAtAlone words pieces → filter_map workers_in pieces ≡ [] }
    ensures same { (words : List (List ℕ)) (pieces : List Piece) →
        (IsCommand StandsAtAlone words pieces × ¬ (Contains pieces Orderly))
        ↔ (IsCommand StandsAtMacek words pieces × (filter_map workers_in pieces ≡ [])) }
{}
