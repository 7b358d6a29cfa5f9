ghost use Rattle.std.specs.Prelude.{IfOk};
ghost use Rattle.tau_scan.specs.Reading.{IsLog};

use crate::images::put_disks;
use std::alloc::Global;
use std::process::Abort;
use std::test::*;
use tau_disk::MemDisk;
use tau_pool::{Next, Pools};
use tau_scan::{Log, scan};

/// The log of these disks.
fn log_of(alloc: Global, disks: &mut [MemDisk]) -> Result<Log, Fail>
    ensures { IfOk result (λ log. IsLog log) }
{
    if disks.is_empty() || disks.len() > 16 {
        return Err(Fail::from("no number of streams"));
    }
    match scan(alloc, disks, None) {
        Ok(log) => Ok(log),
        Err(_) => Err(Fail::from("no log")),
    }
}

/// The pools of the log of streams with these images.
fn pools_of(alloc: Global, images: &str) -> Result<Pools, Fail> {
    let mut disks = Vec::new(alloc);
    if !put_disks(alloc, &mut disks, images) {
        return Err(Fail::from("no images"));
    }
    let log = log_of(alloc, disks.as_mut_slice())?;
    match Pools::new(alloc, &log) {
        Ok(pools) => Ok(pools),
        Err(_) => Err(Fail::from("no memory")),
    }
}

/// Checks how far each stream is recovered.
fn is_recovered(rt: &impl Abort, pools: &Pools, positions: [u64; 2]) {
    assert!(rt; pools.rlv().as_slice() == positions.as_slice());
}

/// The stream and the index of the first record that is left; 255 and 0 if none is.
fn first_left(pools: &Pools) -> (u8, usize) {
    match pools.first_left() {
        Some(left) => (left.stream, left.index),
        None => (255, 0),
    }
}

#[test]
fn a_record_waits_for_another_stream(rt: HostRuntime) -> Result<(), Fail> {
    let mut pools = pools_of(rt.alloc(), "waiting apart")?;
    let Next::Taken(third) = pools.take() else {
        return Err(Fail::from("nothing is ready"));
    };
    assert_eq!(rt; (third.stream, third.index), (0, 2));
    let Next::Taken(second) = pools.take() else {
        return Err(Fail::from("one is ready"));
    };
    assert_eq!(rt; (second.stream, second.index), (1, 1));
    assert_eq!(rt; pools.take(), Next::NotYet);
    assert_eq!(rt; pools.in_flight(), 2);
    pools.finish(third);
    is_recovered(&rt, &pools, [13, 13]);
    assert_eq!(rt; pools.take(), Next::NotYet);
    pools.finish(second);
    is_recovered(&rt, &pools, [13, 53]);
    let Next::Taken(first) = pools.take() else {
        return Err(Fail::from("the last is ready"));
    };
    assert_eq!(rt; (first.stream, first.index), (0, 1));
    assert_eq!(rt; pools.take(), Next::Done);
    pools.finish(first);
    is_recovered(&rt, &pools, [101, 53]);
    assert_eq!(rt; pools.in_flight(), 0);
    Ok(())
}

#[test]
fn tangled_records_are_never_ready(rt: HostRuntime) -> Result<(), Fail> {
    let mut pools = pools_of(rt.alloc(), "tangled-0 tangled-1")?;
    assert!(rt; pools.take() == Next::NotYet);
    assert_eq!(rt; first_left(&pools), (0, 1));
    Ok(())
}

/// Two epochs of two streams: the first record of stream 0 that is taken starts at 38, and none of stream 1 is.
#[test]
fn pools_hold_what_is_taken(rt: HostRuntime) -> Result<(), Fail> {
    let pools = pools_of(rt.alloc(), "three-runs-0 three-runs-1")?;
    is_recovered(&rt, &pools, [38, 111]);
    Ok(())
}
