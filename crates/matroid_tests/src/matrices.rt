ghost use Rattle.std.specs.Prelude.{◌≡◌, ◌≤◌, length};
ghost use Rattle.small_lists.specs.Lists.{lists};

use arrayvec::ArrayVec;
use field_tables::Column;
use named_matroids::{matrix_item, named};
use small_lists::list_of;
use std::test::Fail;

// The columns of the table.
fn columns_of<const N: usize>(table: &[[u8; N]]) -> ArrayVec<Column, 10>
    requires rows { N ≤ 6 }
    requires few { length table.now ≤ 10 }
    ensures { lists result.items ≡ table.now }
{
    let mut columns = ArrayVec::new();
    for codes in table {
        columns.push(list_of(codes));
    }
    columns
}

// The cycle matroid of K4 by four rows of rank 3: the last row is the sum of the others.
#[test]
fn matrix_of_k4(rt: HostRuntime) -> Result<(), Fail> {
    let columns = columns_of(&[
        [1, 0, 0, 1],
        [0, 1, 0, 1],
        [0, 0, 1, 1],
        [0, 1, 1, 0],
        [1, 0, 1, 0],
        [1, 1, 0, 0],
    ]);
    let item = matrix_item(2, columns.as_slice());
    let Ok(k4) = named(b"K4") else {
        return Err("no matroid of that name".into());
    };
    assert_eq!(rt; item.minor().rank(), 3);
    assert!(rt; item.minor().bases() == k4.minor().bases());
    Ok(())
}

// Two loops: the only basis is the empty set.
#[test]
fn matrix_of_rank_zero(rt: HostRuntime) -> Result<(), Fail> {
    let columns = columns_of(&[[0], [0]]);
    let item = matrix_item(2, columns.as_slice());
    assert_eq!(rt; item.minor().rank(), 0);
    assert_eq!(rt; item.minor().size(), 2);
    assert!(rt; item.minor().bases() == [0].as_slice());
    Ok(())
}
