//! A law over the definitions, the contract of a function with an empty body.
ghost use Rattle.std.specs.Prelude.{◌≡◌, ℕ, List, Option, filter_map};
ghost use Rattle.formats.specs.Words.{Piece, IsCommand, StandsAtMacek, StandsAtAlone, AsksForKnownText, sample_in};
ghost use Rattle.macek_run.specs.Ways.{WriteOneListing};

/// Runs that are asked for one text and end well write the same bytes: those of `macek_alone` with `--orderly` and without it,
/// and those of `macek` with any number of workers. Words that name the same sample, or both none, ask for the same text,
/// whether one of them asks for the orderly way or not.
pub fn each_way_writes_one_listing()
    ensures alone { WriteOneListing StandsAtAlone StandsAtAlone }
    ensures beside_workers { WriteOneListing StandsAtAlone StandsAtMacek }
    ensures workers { WriteOneListing StandsAtMacek StandsAtMacek }
    ensures text { (words others : List (List ℕ)) (pieces more : List Piece) (left : Option (List ℕ)) (text : List ℕ) →
        IsCommand StandsAtAlone words pieces → IsCommand StandsAtAlone others more → filter_map sample_in pieces ≡ filter_map sample_in more →
        AsksForKnownText StandsAtAlone words left text → AsksForKnownText StandsAtAlone others left text }
{}
