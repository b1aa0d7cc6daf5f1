// The gates that whole runs are given.
use crate::growth::CountingGate;
use crate::ran::{Given, asked, new_store, run_at};
use crate::stores::{fano_listing, fano_request};
use formats::Status;
use outside::{Gate, HoldGate};
use std::alloc::Global;
use std::process::Abort;
use std::sync::Wait;
use std::test::*;
use std::thread::Threads;

// The run with this gate lists the binary matroids of rank 3.
fn is_listed_at<R: Threads + Wait + Abort + Sync, G: Gate + Sync>(
    rt: &R,
    alloc: Global,
    given: Given,
    gate: &G,
) -> Result<(), Fail> {
    let mut store = new_store(alloc)?;
    let ran = run_at(rt, alloc, &mut store, given, gate)?;
    assert_eq!(rt; ran.report.status, Status::Done);
    assert_eq!(rt; ran.held.as_slice(), fano_listing());
    Ok(())
}

// Of the workers of this run one comes to the gate while another is held there, before the two parents of size 4.
fn workers_meet<R: Threads + Wait + Abort + Sync>(
    rt: &R,
    alloc: Global,
    given: Given,
) -> Result<(), Fail> {
    let gate = HoldGate::new(1, 10_000_000);
    is_listed_at(rt, alloc, given, &gate)?;
    assert!(rt; gate.met());
    Ok(())
}

#[test]
fn the_workers_of_a_run_meet(rt: HostRuntime) -> Result<(), Fail> {
    let two = asked(&["--workers", "2"], fano_request());
    workers_meet(&rt, rt.alloc(), two)?;
    workers_meet(&rt, rt.alloc(), asked(&[], fano_request()))
}

// The levels of sizes 3 to 6 have 1, 2, 1 and 1 forms, each of which is a parent once.
fn asks_before_each_parent<R: Threads + Wait + Abort + Sync>(
    rt: &R,
    alloc: Global,
    given: Given,
) -> Result<(), Fail> {
    let gate = CountingGate::new();
    is_listed_at(rt, alloc, given, &gate)?;
    assert_eq!(rt; gate.calls(), [4, 1, 0]);
    Ok(())
}

#[test]
fn a_run_asks_its_gate_before_each_parent(rt: HostRuntime) -> Result<(), Fail> {
    let one = asked(&["--workers", "1"], fano_request());
    let many = asked(&["--workers", "64"], fano_request());
    asks_before_each_parent(&rt, rt.alloc(), one)?;
    asks_before_each_parent(&rt, rt.alloc(), asked(&[], fano_request()))?;
    asks_before_each_parent(&rt, rt.alloc(), many)
}
