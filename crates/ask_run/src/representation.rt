// Representations, as words spell them.
ghost use Rattle.std.specs.Prelude.{◌≡◌, ◌↔◌, true, MatchOption};
ghost use Rattle.matroid_theory.specs.Rep.{Rep as Matrices, IsStandard};
ghost use Rattle.matroid_theory.specs.Matroid.{Agrees};
ghost use Rattle.ask_formats.specs.Question.{representation_words, CanBeSpelled, MayBeNamed};
ghost use Rattle.ask_run.specs.Texts.{texts_of};

use crate::entry::matrices_in;
use crate::field::factors_in;
use crate::layout::layout_of;
use bases::agree;
use fast_form::is_standard;
use product_rep::Rep;

/// The representation that the words spell: its fields, with `x` between two, and then the columns of each factor, with `|`
/// between two factors. It has at least one column.
fn spelled_in(words: &[String]) -> Option<Rep>
    ensures { MatchOption result
        ((M : Matrices) → CanBeSpelled M → texts_of words.now ≡ representation_words M → ⊥)
        (λ rep. CanBeSpelled rep × (texts_of words.now ≡ representation_words rep)) }
{
    let factors = factors_in(words)?;
    let layout = layout_of(words, factors.count())?;
    let rep = matrices_in(words, &factors, &layout)?;
    rep.laws();
    Some(rep)
}

/// The standard representation, with factors that agree, that the words spell.
pub fn named_in(words: &[String]) -> Option<Rep>
    ensures { MatchOption result
        ((M : Matrices) → MayBeNamed M → texts_of words.now ≡ representation_words M → ⊥)
        (λ rep. MayBeNamed rep × (texts_of words.now ≡ representation_words rep)) }
{
    let rep = spelled_in(words)?;
    if !may_be_named(&rep) {
        return None;
    }
    Some(rep)
}

/// Whether the representation is standard and its factors agree.
fn may_be_named(rep: &Rep) -> bool
    ensures { (result ≡ true) ↔ (IsStandard rep.now × Agrees rep.now) }
{
    is_standard(rep) && agree(rep)
}
