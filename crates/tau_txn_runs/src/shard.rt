//! What locks do to vectors and rows, against the worked runs.
ghost use Rattle.std.specs.Prelude.{◌<◌};

use std::alloc::Global;
use std::process::Abort;
use std::test::*;
use tau_base::{Key, Lv, Mode, Value};
use tau_shard::{Shard, ShardRefusal};

fn key(row: i64) -> Key {
    Key { table: 0, row }
}

/// A call reads a key and frees it with this vector; what the lock joined.
fn reads(shard: &mut Shard, worker: u8, row: i64, lv: &Lv) -> Result<Lv, ShardRefusal>
    requires { worker < 32 }
{
    let mut dep = Lv::zero(2);
    let key = key(row);
    match shard.lock(worker, key, Mode::Read, &mut dep) {
        Ok(_) => {
            shard.free(worker, key, lv, None);
            Ok(dep)
        }
        Err(refusal) => Err(refusal),
    }
}

/// A call writes a row and frees it with this vector; what the lock joined.
fn writes(
    shard: &mut Shard,
    worker: u8,
    row: i64,
    lv: &Lv,
    value: Value,
) -> Result<Lv, ShardRefusal>
    requires { worker < 32 }
{
    let mut dep = Lv::zero(2);
    let key = key(row);
    match shard.lock(worker, key, Mode::Write, &mut dep) {
        Ok(_) => {
            shard.free(worker, key, lv, Some(value));
            Ok(dep)
        }
        Err(refusal) => Err(refusal),
    }
}

/// A call writes a row that it lends, and frees it with this vector; what the lock joined.
fn writes_lent(
    shard: &mut Shard,
    worker: u8,
    row: i64,
    lv: &Lv,
    value: &Value,
) -> Result<Lv, ShardRefusal>
    requires { worker < 32 }
{
    let mut dep = Lv::zero(2);
    let key = key(row);
    match shard.lock_key(worker, key, Mode::Write, &mut dep) {
        Ok(()) => {
            shard.free_by(worker, key, lv, Some(value));
            Ok(dep)
        }
        Err(refusal) => Err(refusal),
    }
}

/// A call locks a key and quits it; what the lock joined.
fn quits(shard: &mut Shard, worker: u8, row: i64) -> Result<Lv, ShardRefusal>
    requires { worker < 32 }
{
    let mut dep = Lv::zero(2);
    let key = key(row);
    match shard.lock(worker, key, Mode::Write, &mut dep) {
        Ok(_) => {
            shard.quit(worker, key);
            Ok(dep)
        }
        Err(refusal) => Err(refusal),
    }
}

#[test]
fn read_then_written_by_another(rt: HostRuntime) {
    let mut shard = Shard::new(rt.alloc(), 2);
    let zero = Lv::zero(2);
    let first = zero.with(0, 82);
    assert_eq!(rt; reads(&mut shard, 0, 1, &first), Ok(zero));
    assert_eq!(rt;
        writes(&mut shard, 1, 1, &first.with(1, 98), Value::Int(9)),
        Ok(first)
    );
    assert_eq!(rt; shard.value(key(1)), Value::Int(9));
}

#[test]
fn busy_names_the_lowest_holder(rt: HostRuntime) {
    let mut shard = Shard::new(rt.alloc(), 2);
    let mut dep = Lv::zero(2);
    assert_eq!(rt;
        shard.lock(3, key(1), Mode::Read, &mut dep),
        Ok(Value::Absent)
    );
    assert_eq!(rt;
        shard.lock(5, key(1), Mode::Read, &mut dep),
        Ok(Value::Absent)
    );
    assert_eq!(rt;
        shard.lock(5, key(1), Mode::Write, &mut dep),
        Err(ShardRefusal::Busy { holder: 3 })
    );
    assert_eq!(rt; shard.drop_covered(&dep), 0);
}

/// Up to this vector so many entries are dropped.
fn drops(rt: &impl Abort, shard: &mut Shard, upto: &Lv, entries: usize) {
    assert_eq!(rt; shard.drop_covered(upto), entries);
}

/// The shard's floor is this vector.
fn has_floor(rt: &impl Abort, shard: &Shard, floor: &Lv) {
    assert_eq!(rt; shard.floor(), *floor);
}

/// So many rows are there.
fn presents(rt: &impl Abort, alloc: Global, shard: &Shard, count: usize) {
    let mut rows = Vec::new(alloc);
    assert!(rt; shard.present(&mut rows).is_ok());
    assert_eq!(rt; rows.len(), count);
}

#[test]
fn removed_entry_raises_the_floor(rt: HostRuntime) {
    let mut shard = Shard::new(rt.alloc(), 2);
    let zero = Lv::zero(2);
    let lv = zero.with(0, 53);
    assert_eq!(rt; writes(&mut shard, 0, 1, &lv, Value::Int(5)), Ok(zero));
    drops(&rt, &mut shard, &zero.with(0, 52), 0);
    drops(&rt, &mut shard, &lv, 1);
    has_floor(&rt, &shard, &lv);
    assert_eq!(rt; reads(&mut shard, 1, 65, &lv), Ok(lv));
    presents(&rt, rt.alloc(), &shard, 1);
}

#[test]
fn quit_raises_no_vector(rt: HostRuntime) {
    let floor = Lv::zero(2).with(1, 13);
    let mut shard = Shard::with_floor(rt.alloc(), floor);
    assert_eq!(rt; quits(&mut shard, 0, 1), Ok(floor));
    assert_eq!(rt; quits(&mut shard, 1, 1), Ok(floor));
}

#[test]
fn row_is_lent_and_written(rt: HostRuntime) {
    let mut shard = Shard::new(rt.alloc(), 2);
    let zero = Lv::zero(2);
    let lv = zero.with(1, 7);
    assert!(rt; shard.row(key(1)).is_none());
    assert_eq!(rt;
        writes_lent(&mut shard, 0, 1, &lv, &Value::Int(3)),
        Ok(zero)
    );
    assert_eq!(rt; writes_lent(&mut shard, 1, 1, &lv, &Value::Int(4)), Ok(lv));
    assert!(rt; shard.row(key(1)).is_some());
    assert_eq!(rt; shard.value(key(1)), Value::Int(4));
}
