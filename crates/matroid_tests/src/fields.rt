//! Fields.
use field_tables::Field;
use std::process::Abort;
use std::test::Fail;

/// Compares the products of the codes from 2 on with their rows.
fn compare_products(rt: &impl Abort, field: Field, rows: &[&[u8]]) {
    let q = field.order();
    assert_eq!(rt; rows.len() + 2, usize::from(q));
    for a in 2..q {
        let row = rows[usize::from(a) - 2];
        assert_eq!(rt; row.len(), rows.len(), "the row of {a} over {q}");
        for b in 2..q {
            assert_eq!(rt;
                field.mul(a, b),
                row[usize::from(b) - 2],
                "{a} times {b} over {q}"
            );
        }
    }
}

/// The field of this order.
fn field_of(order: u8) -> Result<Field, Fail> {
    Ok(Field::of(order).ok_or("no field of that order")?)
}

#[test]
fn products_over_four(rt: HostRuntime) -> Result<(), Fail> {
    compare_products(&rt, field_of(4)?, &[&[3, 1], &[1, 2]]);
    Ok(())
}

#[test]
fn products_over_eight(rt: HostRuntime) -> Result<(), Fail> {
    compare_products(
        &rt,
        field_of(8)?,
        &[
            &[4, 6, 3, 1, 7, 5],
            &[6, 5, 7, 4, 1, 2],
            &[3, 7, 6, 2, 5, 1],
            &[1, 4, 2, 7, 3, 6],
            &[7, 1, 5, 3, 2, 4],
            &[5, 2, 1, 6, 4, 3],
        ],
    );
    Ok(())
}

#[test]
fn products_over_nine(rt: HostRuntime) -> Result<(), Fail> {
    compare_products(
        &rt,
        field_of(9)?,
        &[
            &[1, 6, 8, 7, 3, 5, 4],
            &[6, 2, 5, 8, 1, 4, 7],
            &[8, 5, 6, 1, 7, 2, 3],
            &[7, 8, 1, 3, 4, 6, 2],
            &[3, 1, 7, 4, 2, 8, 5],
            &[5, 4, 2, 6, 8, 3, 1],
            &[4, 7, 3, 2, 5, 1, 6],
        ],
    );
    Ok(())
}

/// Compares the product of two codes over the field of this order.
fn compare_product(rt: &impl Abort, order: u8, a: u8, b: u8, product: u8) -> Result<(), Fail> {
    let field = field_of(order)?;
    assert!(rt; a < field.order());
    assert!(rt; b < field.order());
    assert_eq!(rt; field.mul(a, b), product, "over {order}");
    Ok(())
}

#[test]
fn products_over_primes(rt: HostRuntime) -> Result<(), Fail> {
    compare_product(&rt, 11, 4, 3, 1)?;
    compare_product(&rt, 13, 12, 11, 2)
}

/// Compares the degree of the field of this order, if there is one.
fn compare_degree(rt: &impl Abort, order: u8, degree: Option<u8>) {
    let found = Field::of(order).map(|field| field.degree());
    assert_eq!(rt; found, degree, "at {order}");
}

#[test]
fn orders_and_degrees(rt: HostRuntime) {
    compare_degree(&rt, 2, Some(1));
    compare_degree(&rt, 4, Some(2));
    compare_degree(&rt, 8, Some(3));
    compare_degree(&rt, 9, Some(2));
    compare_degree(&rt, 11, Some(1));
    compare_degree(&rt, 13, Some(1));
    compare_degree(&rt, 6, None);
    compare_degree(&rt, 12, None);
    compare_degree(&rt, 16, None);
}

#[test]
fn operations_over_four(rt: HostRuntime) -> Result<(), Fail> {
    let four = Field::of(4).ok_or("no field of order 4")?;
    assert_eq!(rt; four.frobenius(2), 3);
    Ok(())
}

#[test]
fn operations_over_seven(rt: HostRuntime) -> Result<(), Fail> {
    let seven = Field::of(7).ok_or("no field of order 7")?;
    seven.laws();
    assert_eq!(rt; seven.order(), 7);
    assert_eq!(rt; seven.neg(3), 4);
    assert_eq!(rt; seven.inv(3), 5);
    Ok(())
}

#[test]
fn operations_over_nine(rt: HostRuntime) -> Result<(), Fail> {
    let nine = Field::of(9).ok_or("no field of order 9")?;
    assert_eq!(rt; nine.add(5, 7), 0);
    assert_eq!(rt; nine.sum_of_products(&[1, 3], &[5, 3]), 4);
    Ok(())
}
