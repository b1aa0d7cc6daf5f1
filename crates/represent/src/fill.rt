//! The search, entry by entry.
ghost use Rattle.std.specs.Prelude.{◌<◌, ◌≤◌, IfSome, IsNone};
ghost use Rattle.represent.specs.Sought.{matroid_of, IsSought};
ghost use Rattle.represent.specs.Filled.{AreCodes};
ghost use Rattle.represent.specs.Kept.{KeepsBefore};
ghost use Rattle.represent.specs.Completions.{IsLeastWith, NoneWith, IsFree};

use crate::free::is_free;
use crate::target::{Codes, Target};
use crate::told::keeps_bases;
use small_lists::followed_by;

/// The entries of the least completion of these; none where they have none.
pub(crate) fn fill(target: &Target, codes: Codes) -> Option<Codes>
    requires sought { IsSought target.now.order (matroid_of target.now) }
    requires codes { AreCodes target.now.order (matroid_of target.now) codes.items }
    requires kept { KeepsBefore target.now.order (matroid_of target.now) codes.items }
    ensures codes { IfSome result (λ whole. AreCodes target.now.order (matroid_of target.now) whole.items) }
    ensures found { IfSome result (λ whole. IsLeastWith target.now.order (matroid_of target.now) codes.items whole.items) }
    ensures none { IsNone result → NoneWith target.now.order (matroid_of target.now) codes.items }
{
    if codes.len() == usize::from(target.size - target.rank) * usize::from(target.rank) {
        return Some(codes);
    }
    let end = codes_end(target, &codes);
    for code in 0..end {
        let longer = followed_by(codes.as_slice(), code);
        if keeps_bases(target, &longer) {
            if let Some(whole) = fill(target, longer) {
                return Some(whole);
            }
        }
    }
    None
}

/// The end of the codes to try at the next entry. It is 2 where 1 will do for all that aren't 0: the column, or the row, of a
/// completion may then be scaled.
fn codes_end(target: &Target, codes: &Codes) -> u8
    requires { IsSought target.now.order (matroid_of target.now) }
    ensures within { result ≤ target.now.order }
    ensures two { result < target.now.order → 2 ≤ result }
    ensures free { result < target.now.order → IsFree target.now.rank codes.now.items }
{
    if is_free(target.rank, codes) {
        target.order.min(2)
    } else {
        target.order
    }
}
