//! Connectivity.
use crate::build::{rep_of, unit_rep};
use bases::{agree, is_simple};
use connectivity::{connected, cosimple, three_connected};
use product_rep::Rep;
use std::process::Abort;
use std::test::Fail;

/// How connected a representation is.
#[derive(Debug, PartialEq, Drop)]
struct Connections {
    connected: bool,
    three_connected: bool,
    cosimple: bool,
}

const ALL: Connections = Connections {
    connected: true,
    three_connected: true,
    cosimple: true,
};

/// How connected the representation is, whose factors agree.
fn connections_of(rep: &Rep) -> Result<Connections, Fail> {
    if !agree(rep) {
        return Err("no agreement".into());
    }
    Ok(Connections {
        connected: connected(rep),
        three_connected: three_connected(rep),
        cosimple: cosimple(rep),
    })
}

/// Compares how connected the representation is, which isn't cosimple.
fn compare_series(
    rt: &impl Abort,
    rep: &Rep,
    connected: bool,
    three_connected: bool,
) -> Result<(), Fail> {
    let want = Connections {
        connected,
        three_connected,
        cosimple: false,
    };
    assert_eq!(rt; connections_of(rep)?, want, "at {}", rep.size());
    Ok(())
}

// A coloop beside a triangle, a circuit of four elements, and two triangles with a common element.
#[test]
fn small_binary_matroids(rt: HostRuntime) -> Result<(), Fail> {
    compare_series(&rt, &rep_of(&[2], 3, &[[0, 1, 1]])?, false, false)?;
    compare_series(&rt, &rep_of(&[2], 3, &[[1, 1, 1]])?, true, false)?;
    compare_series(&rt, &rep_of(&[2], 3, &[[0, 1, 1], [1, 0, 1]])?, true, false)
}

#[test]
fn complete_graph_on_four_vertices(rt: HostRuntime) -> Result<(), Fail> {
    let rep = rep_of(&[2], 3, &[[0, 1, 1], [1, 0, 1], [1, 1, 0]])?;
    assert_eq!(rt; connections_of(&rep)?, ALL);
    Ok(())
}

#[test]
fn fano_plane(rt: HostRuntime) -> Result<(), Fail> {
    let rep = rep_of(&[2], 3, &[[0, 1, 1], [1, 0, 1], [1, 1, 0], [1, 1, 1]])?;
    assert_eq!(rt; connections_of(&rep)?, ALL);
    Ok(())
}

// A single coloop, which has no two sides, and one beside a triangle.
#[test]
fn coloops(rt: HostRuntime) -> Result<(), Fail> {
    compare_series(&rt, &unit_rep(&[2], 1)?, true, true)?;
    compare_series(&rt, &rep_of(&[2], 3, &[[1, 1, 0]])?, false, false)
}

// Three points on each of two lines of the ternary plane, whose common point 120 is none of them: the 2-sum of two lines of
// four points, which has neither parallel nor series pairs.
#[test]
fn two_sum_of_lines(rt: HostRuntime) -> Result<(), Fail> {
    let rep = rep_of(&[3], 3, &[[1, 1, 0], [1, 2, 2], [1, 2, 1]])?;
    assert!(rt; is_simple(&rep));
    let want = Connections {
        three_connected: false,
        ..ALL
    };
    assert_eq!(rt; connections_of(&rep)?, want);
    Ok(())
}
