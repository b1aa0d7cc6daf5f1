//! Orderly generation, run: which columns of one parent are kept, and the levels beside those of the other way.
ghost use Rattle.std.specs.Prelude.{ℕ};
ghost use Rattle.level_driver.specs.Grown.{IsParentLevel};

use extension::Columns;
use level_driver::{FormList, first_level, grow_alone};
use orderly::{keeps, next_level};
use product_rep::{ProductColumn, Rep};
use request_reader::{Request, read_request};
use std::alloc::Global;
use std::process::Abort;
use std::test::Fail;

#[test]
fn columns_of_one_parent(rt: HostRuntime) -> Result<(), Fail> {
    let request = read_request(b"rank 3\nfield 2\nsize 7\n")
        .ok()
        .ok_or("refused")?;
    let level = first_level(rt.alloc(), &request)?;
    let rank = request.rank();
    let size = request.size();
    assert!(rt; rank < size);
    let answers = answers_of_first(rt.alloc(), &request, &level.forms)?;
    let want = [(11, true), (101, false), (110, false), (111, true)];
    assert_eq!(rt; answers.as_slice(), &want[..]);
    Ok(())
}

// The columns by which the first form can be extended, and whether each is kept.
fn answers_of_first(
    alloc: Global,
    request: &Request,
    forms: &FormList,
) -> Result<Vec<(u32, bool)>, Fail>
    requires { (n : ℕ) × IsParentLevel request.now n forms.now }
{
    request.laws();
    let mut answers = Vec::new(alloc);
    let Some(parent) = forms.get(0) else {
        return Ok(answers);
    };
    for column in Columns::of(parent) {
        answers.push((text_of(&column), keeps(request, parent, &column)))?;
    }
    Ok(answers)
}

// The number whose digits in base 10 the codes are.
fn text_of(column: &ProductColumn) -> u32 {
    let mut number = 0u32;
    for code in column.as_slice() {
        number = number.wrapping_mul(10).wrapping_add(u32::from(*code));
    }
    number
}

// Compares the number of forms and of tries of each size above the rank.
fn compare_counts(
    rt: &impl Abort,
    alloc: Global,
    text: &str,
    want: &[(usize, u128)],
) -> Result<(), Fail> {
    let counts = counts_both_ways(rt, alloc, text)?;
    assert_eq!(rt; counts.as_slice(), want, "at {text:?}");
    Ok(())
}

#[test]
fn level_of_one_parent(rt: HostRuntime) -> Result<(), Fail> {
    compare_counts(&rt, rt.alloc(), "rank 3\nfield 2\nsize 4\n", &[(2, 4)])
}

#[test]
fn levels_of_both_ways(rt: HostRuntime) -> Result<(), Fail> {
    let alloc = rt.alloc();
    let text = "rank 3\nfield 2\nsize 7\n";
    compare_counts(&rt, alloc, text, &[(2, 4), (1, 6), (1, 2), (1, 1)])?;
    let text = "rank 3\nfield 2\nsize 7\nforbid K4\n";
    compare_counts(&rt, alloc, text, &[(2, 4), (1, 6), (0, 0), (0, 0)])?;
    let text = "rank 3\nfield 2 x 3\nsize 7\n";
    compare_counts(&rt, alloc, text, &[(2, 10), (1, 9), (1, 2), (0, 0)])?;
    let text = "rank 3\nfield 4\nsize 8\nequivalence semilinear\n";
    counts_both_ways(&rt, alloc, text)?;
    Ok(())
}

// The number of forms and of tries of each size above the rank. Both ways have the same.
fn counts_both_ways(
    rt: &impl Abort,
    alloc: Global,
    text: &str,
) -> Result<Vec<(usize, u128)>, Fail> {
    let request = read_request(text.as_bytes()).ok().ok_or("refused")?;
    let mut level = first_level(alloc, &request)?;
    let mut counts = Vec::new(alloc);
    for _ in request.rank()..request.size() {
        let other = grow_alone(alloc, &request, &level.forms)?;
        level = next_level(alloc, &request, &level.forms)?;
        assert_eq!(rt; level.tried, other.tried);
        assert!(rt; are_same(&level.forms, &other.forms));
        counts.push((level.forms.len(), level.tried))?;
    }
    Ok(counts)
}

// Whether two lists have the same forms.
fn are_same(ones: &FormList, others: &FormList) -> bool {
    for i in 0..ones.len() {
        let (Some(one), Some(other)) = (ones.get(i), others.get(i)) else {
            return false;
        };
        if !have_same_columns(one, other) {
            return false;
        }
    }
    ones.len() == others.len()
}

// Whether two representations over the same fields have the same columns.
pub fn have_same_columns(one: &Rep, other: &Rep) -> bool {
    if one.size() != other.size() {
        return false;
    }
    for j in 0..one.size() {
        if one.column(j).as_slice() != other.column(j).as_slice() {
            return false;
        }
    }
    true
}
