//! Short lists, and sets of columns.
ghost use Rattle.std.specs.Prelude.{◌≡◌};

use arrayvec::ArrayVec;
use column_sets::{
    complement, few_sets_of_size, first_of_size, first_set, in_set, set_count, sets_of_size,
};
use field_tables::Mask;
use small_lists::{followed_by, list_of};
use std::test::Fail;

#[test]
fn short_lists(rt: HostRuntime) {
    let list: ArrayVec<u8, 4> = list_of(&[1, 2]);
    let longer: ArrayVec<u8, 4> = followed_by(list.as_slice(), 3);
    assert_eq!(rt; longer.as_slice(), [1, 2, 3].as_slice());
}

#[test]
fn sets_of_columns(rt: HostRuntime) -> Result<(), Fail> {
    assert_eq!(rt; set_count(4), 16);
    assert!(rt; in_set(6, 2));
    assert!(rt; !in_set(6, 3));
    assert_eq!(rt; complement(4, 6), 9);
    let with_last = |set: Mask| set >= 8;
    assert_eq!(rt; first_set(4, with_last), Some(8));
    assert_eq!(rt; first_of_size(4, 2, with_last), Some(9));
    assert_eq!(rt; first_of_size(3, 2, with_last), None);
    let pairs = sets_of_size(rt.alloc(), 4, 2, with_last)?;
    assert_eq!(rt; pairs.as_slice(), &[9, 10, 12][..]);
    let few = few_sets_of_size(4, 2, with_last);
    assert_eq!(rt; few.as_slice(), &[9, 10, 12][..]);
    Ok(())
}
