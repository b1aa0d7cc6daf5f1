// A level, and the first one of a request.
ghost use Rattle.std.specs.Prelude.{IfOk};
ghost use Rattle.level_driver.specs.Grown.{IsLevelOf, AreTriesOf};

use crate::{Forbidden, FormList};
use product_rep::Rep;
use request_reader::Request;
use std::alloc::{AllocError, Global};

/// A level: its forms in rising order, and the number of its tries.
#[derive(Drop)]
pub struct Level {
    /// The forms, each once, from the least up.
    pub forms: FormList,
    /// How many columns were tried: 0 at the size that equals the rank, else all ways to extend a form of the level before
    /// without a forbidden minor.
    pub tried: u128,
}

/// The level of the size that equals the rank: the unit columns alone, or nothing where these have a forbidden minor.
///
/// # Errors
///
/// `AllocError` where there was no memory for the one form or for what is forbidden.
pub fn first_level(alloc: Global, request: &Request) -> Result<Level, AllocError>
    ensures forms { IfOk result (λ level. IsLevelOf request.now request.now.rank level.forms) }
    ensures tried { IfOk result (λ level. AreTriesOf request.now request.now.rank level.tried) }
{
    request.laws();
    let unit = Rep::unit(request.factors(), request.rank());
    unit.laws();
    let mut forms = FormList::new(alloc);
    let forbidden = Forbidden::of(alloc, request.forbid())?;
    if !forbidden.are_avoided_by(&unit) {
        return Ok(Level { forms, tried: 0 });
    }
    match forms.push(unit) {
        Ok(()) => Ok(Level { forms, tried: 0 }),
        Err((error, _)) => Err(error),
    }
}
