//! Short lists that lie in an `ArrayVec`, copied and made longer. No memory is taken.
#![tactic(auto)]

ghost use Rattle.std.specs.Prelude.{◌≡◌, ◌<◌, ◌≤◌, [], ◌∷◌, ◌++◌, length};

use arrayvec::ArrayVec;

/// The list of these items.
pub fn list_of<T: Copy + Default + Drop, const N: usize>(items: &[T]) -> ArrayVec<T, N>
    requires { length items.now ≤ N }
    ensures { result.items ≡ items.now }
{
    match ArrayVec::try_from(items) {
        Ok(list) => list,
        Err(_) => unreachable!(),
    }
}

/// The list of these items with one more at the end.
pub fn followed_by<T: Copy + Default + Drop, const N: usize>(items: &[T], last: T) -> ArrayVec<T, N>
    requires { length items.now < N }
    ensures { result.items ≡ items.now ++ last ∷ [] }
{
    let mut list = list_of(items);
    list.push(last);
    list
}
