// Whether a candidate is kept, by itself.
ghost use Rattle.std.specs.Prelude.{◌≡◌, ◌+◌, ◌<◌, ◌↔◌, IsTrue};
ghost use Rattle.std.specs.Option.{MatchOption};
ghost use Rattle.matroid_theory.specs.Rep.{size};
ghost use Rattle.matroid_theory.specs.Matroid.{Agrees};
ghost use Rattle.matroid_theory.specs.Order.{IsForm};
ghost use Rattle.matroid_theory.specs.Level.{followed_by};
ghost use Rattle.extension.specs.Admissible.{IsAdmissible};
ghost use Rattle.level_driver.specs.Forbidden.{Avoids};
ghost use Rattle.orderly.specs.Kept.{IsLevelFormOf};

use fast_form::is_form_fast;
use level_driver::{Forbidden, avoids};
use matroid_theory::Mode;
use product_rep::{ProductColumn, Rep};
use request_reader::Request;

/// Whether a form of a level of the request, of a size below the request's, followed by a column by which it can be extended is a
/// form of the next level: a form of the request's mode without the minors that the request forbids. It looks at nothing else, and
/// takes no memory.
pub fn keeps(request: &Request, parent: &Rep, column: &ProductColumn) -> bool
    requires parent { IsLevelFormOf request.now (size parent.now) parent.now }
    requires before { size parent.now < request.now.size }
    requires column { IsAdmissible parent.now column.now.items }
    ensures { IsTrue result ↔ IsLevelFormOf request.now (size parent.now + 1) (followed_by parent.now column.now.items) }
{
    request.laws();
    let child = extended(parent, column);
    if !avoids(&child, request.forbid()) {
        return false;
    }
    is_kept(&child, request.mode())
}

/// The test of a candidate, a parent followed by a column without forbidden minors: whether it is its own form. Both `keeps` and
/// `next_level` decide by it.
pub(crate) fn is_kept(candidate: &Rep, mode: Mode) -> bool
    requires { Agrees candidate.now }
    ensures { IsTrue result ↔ IsForm mode candidate.now }
{
    is_form_fast(candidate, mode)
}

/// The parent followed by the column, where that has none of these minors.
pub(crate) fn candidate(parent: &Rep, forbidden: &Forbidden, column: &ProductColumn) -> Option<Rep>
    requires room { size parent.now < 16 }
    requires column { IsAdmissible parent.now column.now.items }
    ensures { MatchOption result (¬ (Avoids forbidden.now (followed_by parent.now column.now.items)))
        (λ child. (child ≡ followed_by parent.now column.now.items) × Avoids forbidden.now child) }
{
    let child = extended(parent, column);
    if forbidden.are_avoided_by(&child) {
        Some(child)
    } else {
        None
    }
}

/// The parent followed by the column.
fn extended(parent: &Rep, column: &ProductColumn) -> Rep
    requires room { size parent.now < 16 }
    requires column { IsAdmissible parent.now column.now.items }
    ensures { result ≡ followed_by parent.now column.now.items }
{
    let mut child = parent.copy();
    child.push_column(column);
    child
}
