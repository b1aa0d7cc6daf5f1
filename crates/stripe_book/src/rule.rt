use crate::offer::Offer;
use crate::view::View;
use atomic_table::TableRule;

/// The rule of a stripe's table, whose key is the number of callers. `specs/Rule.antt` states it.
pub struct StripeRule;

impl TableRule<Offer, View, usize> for StripeRule {
    ghost use Rattle.stripe_book.specs.Rule.{Holds, opened};

    ghost holds = { Holds };

    ghost first = { λ _. opened };
}
