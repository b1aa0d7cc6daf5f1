use crate::stripe::{Stripe, Tables};
use atomic_table::{Play, Split, TableRule};

/// The rule of the turns' table. `specs/Rule.antt` states it.
pub struct TurnRule;

impl TableRule<Option<Stripe>, Tables, Tables> for TurnRule {
    ghost use Rattle.stripe_turn.specs.Rule.{Turned};

    ghost holds = { Turned };

    ghost first = { λ key. key };
}

/// An attempt at a stripe's word.
pub(crate) struct Tries;

impl Play<Option<Stripe>, Tables> for Tries {
    ghost use Rattle.stripe_turn.specs.Rule.{tries};

    ghost then = { tries };
}

/// A stripe is given back.
pub(crate) struct Gives;

impl Play<Option<Stripe>, Tables> for Gives {
    ghost use Rattle.stripe_turn.specs.Rule.{gives_back};

    ghost then = { gives_back };
}

/// One more seat, which knows the same.
pub(crate) struct Again;

impl Split<Tables> for Again {
    ghost left = { λ v. v };

    ghost right = { λ v. v };
}
