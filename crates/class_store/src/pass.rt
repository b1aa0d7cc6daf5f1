use std::marker::Model;
use stripe_book::Caller;
use stripe_turn::Turn;

/// What one caller offers its keys by: a caller for each stripe of the level, and a turn, which holds no stripe between calls.
/// Contracts see its level, its number, and for each stripe what it has seen of the history and its own calls there.
#[derive(Drop)]
pub struct Pass {
    pub(crate) number: usize,
    pub(crate) callers: Vec<Caller>,
    pub(crate) turn: Turn,
}

impl Model for Pass {
    ghost use Rattle.class_store.specs.Seen.{PassSide, IsPass, pass_side};

    ghost Value = { PassSide };

    ghost view = { λ p. pass_side p.number p.callers.items p.turn };

    ghost invariant = { λ p. IsPass p.number p.callers.items p.turn };
}
